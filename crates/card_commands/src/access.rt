// Whether an access rule holds on a connection.
ghost use Rattle.std.specs.Prelude.{◌≡◌, List, ℕ, Some, IsTrue};
ghost use Rattle.piv_model.specs.Memory.{Memory};
ghost use Rattle.piv_rules.specs.Answers.{holds, global_counts, is_contact, situation};
ghost use Rattle.card_commands.specs.Connections.{channel_of};

use crate::connection::Conn;
use access_rules::{Verdict, decide};
use piv_model::{Interface, ObjectId, Rule, Store};

// The bytes of a Discovery Object, and the first byte of its policy where the Global PIN counts (SP 800-73-4 part 1).
const LENGTH: usize = 18;

const POLICY: usize = 16;

const GLOBAL_COUNTS: u8 = 0x60;

// Whether the login by the Global PIN opens what asks for a PIN.
#[tactic(auto, using(crate::proofs::Policies::counting))]
fn global_counts<S: Store>(store: &S) -> bool
    requires on { IsTrue (S.state store.now).power.on }
    ensures { (m : Memory) → (S.state store.now).mem ≡ Some m → result ≡ global_counts m }
{
    let discovery = ObjectId::discovery();
    if store.length(discovery) != LENGTH {
        return false;
    }
    let mut value = [0; LENGTH];
    store.fill(discovery, &mut value);
    value[POLICY] == GLOBAL_COUNTS
}

// Whether a reference may be used on a connection.
pub(crate) fn has_contact_use(conn: &Conn, interface: Interface) -> bool
    ensures { result ≡ is_contact interface }
{
    match decide(Rule::ContactUse, interface, &conn.status(), false) {
        Verdict::Permit => true,
        Verdict::Deny { .. } => false,
    }
}

// Whether a rule holds on a connection.
pub(crate) fn is_permitted<S: Store>(
    rule: Rule,
    conn: &Conn,
    interface: Interface,
    store: &S,
) -> bool
    requires on { IsTrue (S.state store.now).power.on }
    ensures { (m : Memory) → (S.state store.now).mem ≡ Some m → (block : List ℕ)
        → result ≡ holds (situation m interface block (channel_of conn.now)) rule }
{
    if rule == Rule::Response {
        return false;
    }
    let counts = global_counts(store);
    match decide(rule, interface, &conn.status(), counts) {
        Verdict::Permit => true,
        Verdict::Deny { .. } => false,
    }
}
