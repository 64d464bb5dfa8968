use crate::{Status, Verdict, decide};
use piv_model::{Interface, Rule};
use std::test::Fail;

// A row of the table: a rule, an interface, the logins by the PIN, by the Global PIN and by the
// administration key, whether that of the Global PIN counts, and whether the rule holds.
type Row = (Rule, Interface, [bool; 3], bool, bool);

const YES: bool = true;

const NO: bool = false;

fn row_holds(row: Row) -> bool {
    let (rule, interface, [pin, global, admin], counts, permitted) = row;
    let status = Status {
        piv: true,
        pin,
        global,
        admin,
    };
    if rule == Rule::Response {
        return false;
    }
    let expected = if permitted {
        Verdict::Permit
    } else {
        Verdict::Deny { rule, sw: 0x6982 }
    };
    decide(rule, interface, &status, counts) == expected
}

#[test]
fn each_rule_asks_for_its_login_on_contact(rt: HostRuntime) -> Result<(), Fail> {
    let contact = Interface::Contact;
    let rows = [
        (Rule::Always, contact, [NO, NO, NO], NO, YES),
        (Rule::Never, contact, [YES, YES, YES], YES, NO),
        (Rule::Pin, contact, [NO, NO, YES], YES, NO),
        (Rule::Pin, contact, [YES, NO, NO], NO, YES),
        (Rule::Pin, contact, [NO, YES, NO], NO, NO),
        (Rule::Pin, contact, [NO, YES, NO], YES, YES),
        (Rule::Admin, contact, [YES, YES, NO], YES, NO),
        (Rule::Admin, contact, [NO, NO, YES], NO, YES),
        (Rule::ContactUse, contact, [NO, NO, NO], NO, YES),
    ];
    for row in rows {
        assert!(rt; row_holds(row), "{row:?}");
    }
    Ok(())
}

#[test]
fn no_login_opens_anything_without_contact(rt: HostRuntime) -> Result<(), Fail> {
    let contactless = Interface::Contactless;
    let rows = [
        (Rule::Always, contactless, [NO, NO, NO], NO, YES),
        (Rule::Never, contactless, [YES, YES, YES], YES, NO),
        (Rule::Pin, contactless, [YES, YES, YES], YES, NO),
        (Rule::Admin, contactless, [YES, YES, YES], YES, NO),
        (Rule::ContactUse, contactless, [YES, YES, YES], YES, NO),
    ];
    for row in rows {
        assert!(rt; row_holds(row), "{row:?}");
    }
    Ok(())
}
