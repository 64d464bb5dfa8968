// The kinds of things that a card knows: interfaces, access rules, references and keys.
ghost use Rattle.std.specs.Prelude.{◌≡◌};
ghost use Rattle.piv_model.specs.Rules.{use_rule_of};

/// An interface of the card.
#[derive(Clone, Copy, PartialEq, Eq, Debug)]
pub enum Interface {
    Contact,
    Contactless,
}

/// What the use of an object or a key asks of its connection (SP 800-73-4 part 1, access rules).
#[derive(Clone, Copy, PartialEq, Eq, Debug)]
pub enum Rule {
    /// Nothing.
    Always,
    /// The contact interface and a login by a PIN.
    Pin,
    /// It is never granted: it asks for the virtual contact interface.
    Never,
    /// The contact interface and a login by the administration key.
    Admin,
    /// The contact interface.
    ContactUse,
    /// The right answer to a challenge. No table asks it: it names a wrong answer.
    Response,
}

/// A reference: secret data that a person gives to log in or to unblock.
#[derive(Clone, Copy, PartialEq, Eq, Debug)]
pub enum RefId {
    /// The PIN of the PIV application, key reference 80.
    Pin,
    /// The PIN unblocking key, key reference 81.
    Puk,
    /// The PIN of the whole card, key reference 00.
    GlobalPin,
}

/// A key of the card.
#[derive(Clone, Copy, PartialEq, Eq, Debug)]
pub enum KeyId {
    /// The card management key, key reference 9B.
    AdminKey,
    /// The card authentication key, key reference 9E.
    CardAuth,
}

/// An application of the card.
#[derive(Clone, Copy, PartialEq, Eq, Debug)]
pub enum Application {
    /// The PIV card application.
    Piv,
    /// The application that is selected when a connection is opened.
    Idle,
}

/// How far a command came that lost power.
#[derive(Clone, Copy, PartialEq, Eq, Debug)]
pub enum Took {
    /// The memory is as before the command.
    Nothing,
    /// One try of the compared reference was spent.
    Spent,
    /// The command did its work.
    Done,
}

/// The rule for the use of a key.
pub fn use_rule(key: KeyId) -> Rule
    ensures { result ≡ use_rule_of key }
{
    match key {
        KeyId::AdminKey => Rule::ContactUse,
        KeyId::CardAuth => Rule::Always,
    }
}
