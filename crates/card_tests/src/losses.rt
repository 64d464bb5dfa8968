// Commands that lose power in one of their writes: what is left of the memory, and what is said.
use crate::commands::{Card, card_of, expect, losing_card, spelled};
use memory_store::{Leaves, Loss, MemoryStore};
use std::alloc::Global;
use std::test::Fail;
use test_starts::{global_start, limited_start};

// A comparison spends a try in its first two writes, and fills the counter in the next two. Each row is a command, the
// first of the two writes, whether the new memory is left, what is said, the tries left, and the answer to the old PIN.
#[test]
fn what_is_said_of_a_lost_command_is_what_its_memory_shows(rt: HostRuntime) -> Result<(), Fail> {
    let alloc = rt.alloc();
    let change = "0024008010313233343536FFFF363534333231FFFF";
    let same = "0024008010313233343536FFFF313233343536FFFF";
    let unblocking = "002C0080103132333435363738363534333231FFFF";
    let wrong_unblocking = "002C0080103030303030303030363534333231FFFF";
    let change_of_puk = "002400811031323334353637383837363534333231";
    let (old, new) = (Leaves::Old, Leaves::New);
    for (command, first, leaves, said, left, login) in [
        ("wrong", 1, old, "Nothing", "63C3", "9000"),
        ("wrong", 1, new, "Spent", "63C2", "9000"),
        ("login", 1, old, "Nothing", "63C3", "9000"),
        ("login", 1, new, "Spent", "63C2", "9000"),
        ("login", 3, old, "Spent", "63C2", "9000"),
        ("login", 3, new, "Nothing", "63C3", "9000"),
        (change, 1, old, "Nothing", "63C3", "9000"),
        (change, 1, new, "Spent", "63C2", "9000"),
        (change, 3, old, "Spent", "63C2", "9000"),
        (change, 3, new, "Done", "63C3", "63C2"),
        (same, 3, old, "Spent", "63C2", "9000"),
        (same, 3, new, "Nothing", "63C3", "9000"),
        (change_of_puk, 1, old, "Nothing", "63C3", "9000"),
        (change_of_puk, 1, new, "Spent", "63C3", "9000"),
        (change_of_puk, 3, old, "Spent", "63C3", "9000"),
        (change_of_puk, 3, new, "Done", "63C3", "9000"),
        (wrong_unblocking, 1, old, "Nothing", "63C3", "9000"),
        (wrong_unblocking, 1, new, "Spent", "63C3", "9000"),
        (unblocking, 3, old, "Spent", "63C3", "9000"),
        (unblocking, 3, new, "Done", "63C3", "63C2"),
    ] {
        for later in 0..2 {
            let write = u64::saturating_add(first, later);
            let mut card = losing_card(alloc, write, leaves)?;
            expect(alloc, &mut card, "select template")?;
            let lost = card.send(alloc, spelled(command))?;
            assert_eq!(rt; lost.as_str(), said, "{command}, {write}");
            expect(alloc, &mut card, "login 6D00\nselect template")?;
            let tries = card.send(alloc, spelled("query"))?;
            assert_eq!(rt; tries.as_str(), left, "{command}, {write}");
            let answer = card.send(alloc, spelled("login"))?;
            assert_eq!(rt; answer.as_str(), login, "{command}, {write}");
        }
    }
    Ok(())
}

// A put of one block has three writes.
#[test]
fn a_lost_put_leaves_the_old_or_the_new_value(rt: HostRuntime) -> Result<(), Fail> {
    let alloc = rt.alloc();
    let another = "00DB3FFF0B5C035FC10253043E01FE00";
    let same = "00DB3FFF0B5C035FC10253043E00FE00";
    let (old, new) = ("53043E00FE009000", "53043E01FE009000");
    for (command, leaves, said, value) in [
        (another, Leaves::Old, "Nothing", old),
        (another, Leaves::New, "Done", new),
        (same, Leaves::Old, "Nothing", old),
        (same, Leaves::New, "Nothing", old),
    ] {
        for write in 1..4 {
            let mut card = losing_card(alloc, write, leaves)?;
            let rows = "select template\nchallenge challenged\nresponse 9000";
            expect(alloc, &mut card, rows)?;
            let lost = card.send(alloc, command)?;
            assert_eq!(rt; lost.as_str(), said, "{command}, {write}");
            expect(alloc, &mut card, "select template")?;
            let got = card.send(alloc, spelled("chuid"))?;
            assert_eq!(rt; got.as_str(), value, "{command}, {write}");
        }
    }
    Ok(())
}

// The rows up to the lost command, with what is said of it, and those behind it.
fn loses(alloc: Global, card: &mut Card<MemoryStore>, lost: &str, then: &str) -> Result<(), Fail> {
    expect(alloc, card, "select template")?;
    expect(alloc, card, lost)?;
    expect(alloc, card, "global_query 6D00\nselect template")?;
    Ok(expect(alloc, card, then)?)
}

// A card with a Global PIN loses power in this write, and another one in the next, which belongs to the same change.
fn global_loses(
    alloc: Global,
    first: u64,
    how: Leaves,
    lost: &str,
    then: &str,
) -> Result<(), Fail> {
    for later in 0..2 {
        let write = u64::saturating_add(first, later).max(1);
        let mut card = card_of(alloc, &global_start(alloc, 3)?, &[Loss { write, how }])?;
        loses(alloc, &mut card, lost, then)?;
    }
    Ok(())
}

// The old value and all tries.
const KEPT: &str = "
    global_query 63C3
    query 63C3
    global_login_by_new 63C2
    global_login 9000
    login 9000
";

// The old value and one try less. A login fills the counter.
const SPENT: &str = "
    global_query 63C2
    query 63C3
    global_login_by_new 63C1
    global_login 9000
    0020FF00 9000
    global_query 63C3
    login 9000
";

// The new value and all tries.
const RENEWED: &str = "
    global_query 63C3
    query 63C3
    global_login 63C2
    global_login_by_new 9000
    login 9000
";

#[test]
fn a_lost_login_by_the_global_pin_leaves_its_value(rt: HostRuntime) -> Result<(), Fail> {
    let alloc = rt.alloc();
    let (old, new) = (Leaves::Old, Leaves::New);
    global_loses(alloc, 1, old, "global_login Nothing", KEPT)?;
    global_loses(alloc, 1, new, "global_login Spent", SPENT)?;
    global_loses(alloc, 3, old, "global_login Spent", SPENT)?;
    global_loses(alloc, 3, new, "global_login Nothing", KEPT)?;
    global_loses(alloc, 1, old, "global_wrong Nothing", KEPT)?;
    global_loses(alloc, 1, new, "global_wrong Spent", SPENT)?;
    // Behind a mismatch, which has two writes, the counter isn't full.
    let behind = "global_wrong 63C2\nglobal_login Nothing";
    global_loses(alloc, 3, old, behind, SPENT)?;
    let behind = "global_wrong 63C2\nglobal_login Spent";
    let twice = "global_query 63C1\nquery 63C3\nglobal_wrong 63C0\nglobal_login 6983";
    global_loses(alloc, 3, new, behind, twice)?;
    global_loses(alloc, 5, old, behind, twice)?;
    let behind = "global_wrong 63C2\nglobal_login Done";
    global_loses(alloc, 5, new, behind, KEPT)?;
    // A login by the PIN beside it spends and fills another counter.
    global_loses(
        alloc,
        1,
        new,
        "login Spent",
        "global_query 63C3\nquery 63C2",
    )?;
    global_loses(
        alloc,
        3,
        old,
        "login Spent",
        "global_query 63C3\nquery 63C2",
    )
}

#[test]
fn a_lost_change_of_the_global_pin_leaves_the_old_or_the_new_value(
    rt: HostRuntime,
) -> Result<(), Fail> {
    let alloc = rt.alloc();
    let (old, new) = (Leaves::Old, Leaves::New);
    global_loses(alloc, 1, old, "global_change Nothing", KEPT)?;
    global_loses(alloc, 1, new, "global_change Spent", SPENT)?;
    global_loses(alloc, 3, old, "global_change Spent", SPENT)?;
    global_loses(alloc, 3, new, "global_change Done", RENEWED)?;
    global_loses(alloc, 1, old, "wrong_global_change Nothing", KEPT)?;
    global_loses(alloc, 1, new, "wrong_global_change Spent", SPENT)?;
    // The value that stands already.
    let same = "0024000010393837363534FFFF393837363534FFFF Nothing";
    global_loses(alloc, 1, old, same, KEPT)?;
    global_loses(alloc, 3, new, same, KEPT)?;
    let same = "0024000010393837363534FFFF393837363534FFFF Spent";
    global_loses(alloc, 1, new, same, SPENT)?;
    global_loses(alloc, 3, old, same, SPENT)?;
    let same = "global_wrong 63C2\n0024000010393837363534FFFF393837363534FFFF Done";
    global_loses(alloc, 5, new, same, KEPT)?;
    // A change of the PIN beside it leaves it.
    let changed = "global_query 63C3\nquery 63C3\nlogin 63C2\nlogin_by_new 9000\nglobal_login 9000";
    global_loses(alloc, 3, new, "change Done", changed)
}

// The plain card loses power in this write, and another one in the next, which belongs to the same change.
fn plain_loses(alloc: Global, first: u64, how: Leaves, lost: &str, then: &str) -> Result<(), Fail> {
    for later in 0..2 {
        let write = u64::saturating_add(first, later);
        let mut card = losing_card(alloc, write, how)?;
        loses(alloc, &mut card, lost, then)?;
    }
    Ok(())
}

// A wrong change of the PUK tells how many tries it had: one more than are left.
#[test]
fn a_lost_unblocking_changes_both_references_or_none(rt: HostRuntime) -> Result<(), Fail> {
    let alloc = rt.alloc();
    let (old, new) = (Leaves::Old, Leaves::New);
    let all = "query 63C3\nlogin_by_new 63C2\nlogin 9000\nwrong_change_of_puk 63C2";
    let spent = "query 63C3\nlogin_by_new 63C2\nlogin 9000\nwrong_change_of_puk 63C1";
    let done = "query 63C3\nlogin 63C2\nlogin_by_new 9000\nwrong_change_of_puk 63C2";
    plain_loses(alloc, 1, old, "unblock Nothing", all)?;
    plain_loses(alloc, 1, new, "unblock Spent", spent)?;
    plain_loses(alloc, 3, old, "unblock Spent", spent)?;
    plain_loses(alloc, 3, new, "unblock Done", done)?;
    plain_loses(alloc, 1, old, "wrong_unblock Nothing", all)?;
    plain_loses(alloc, 1, new, "wrong_unblock Spent", spent)?;
    // The PIN that stands already: behind the match it is called done, though the memory is the one before it.
    let same = "002C0080103132333435363738313233343536FFFF Nothing";
    plain_loses(alloc, 1, old, same, all)?;
    let same = "002C0080103132333435363738313233343536FFFF Spent";
    plain_loses(alloc, 1, new, same, spent)?;
    plain_loses(alloc, 3, old, same, spent)?;
    let same = "002C0080103132333435363738313233343536FFFF Done";
    plain_loses(alloc, 3, new, same, all)?;
    // Behind a wrong PUK, which has two writes.
    let behind = "wrong_unblock 63C2\nunblock Nothing";
    plain_loses(alloc, 3, old, behind, spent)?;
    let behind = "wrong_unblock 63C2\nunblock Spent";
    let twice = "query 63C3\nlogin 9000\nwrong_change_of_puk 63C0\nunblock 6983";
    plain_loses(alloc, 3, new, behind, twice)?;
    plain_loses(alloc, 5, old, behind, twice)?;
    let behind = "wrong_unblock 63C2\nunblock Done";
    plain_loses(alloc, 5, new, behind, done)
}

// Three mismatches have six writes.
#[test]
fn a_lost_unblocking_leaves_the_pin_blocked_or_unblocked(rt: HostRuntime) -> Result<(), Fail> {
    let alloc = rt.alloc();
    let (old, new) = (Leaves::Old, Leaves::New);
    let lost = "wrong 63C2\nwrong 63C1\nwrong 63C0\nunblock Nothing";
    let then = "query 63C0\nlogin 6983\nlogin_by_new 6983\nwrong_change_of_puk 63C2";
    plain_loses(alloc, 7, old, lost, then)?;
    let lost = "wrong 63C2\nwrong 63C1\nwrong 63C0\nunblock Spent";
    let then = "
        query 63C0
        login 6983
        login_by_new 6983
        wrong_change_of_puk 63C1
        unblock 9000
        query 63C3
        login_by_new 9000
        wrong_change_of_puk 63C2
    ";
    plain_loses(alloc, 7, new, lost, then)?;
    plain_loses(alloc, 9, old, lost, then)?;
    let lost = "wrong 63C2\nwrong 63C1\nwrong 63C0\nunblock Done";
    let then = "query 63C3\nlogin 63C2\nlogin_by_new 9000\nwrong_change_of_puk 63C2";
    plain_loses(alloc, 9, new, lost, then)
}

// A card whose references have one try each loses power in this write.
fn limited_loses(
    alloc: Global,
    write: u64,
    how: Leaves,
    lost: &str,
    then: &str,
) -> Result<(), Fail> {
    let write = write.max(1);
    let mut card = card_of(alloc, &limited_start(alloc, 1)?, &[Loss { write, how }])?;
    loses(alloc, &mut card, lost, then)
}

#[test]
fn a_last_try_that_is_lost_blocks_its_reference(rt: HostRuntime) -> Result<(), Fail> {
    let alloc = rt.alloc();
    let (old, new) = (Leaves::Old, Leaves::New);
    let blocked = "query 63C0\nlogin 6983\nchange 6983\nunblock 9000\nlogin_by_new 9000";
    limited_loses(alloc, 1, new, "login Spent", blocked)?;
    limited_loses(alloc, 4, old, "login Spent", blocked)?;
    limited_loses(alloc, 4, new, "login Nothing", "query 63C1\nlogin 9000")?;
    let for_good = "unblock 6983\nwrong_change_of_puk 6983\nquery 63C1\nlogin 9000";
    limited_loses(alloc, 2, new, "unblock Spent", for_good)?;
    limited_loses(alloc, 3, old, "unblock Spent", for_good)?;
    let done = "query 63C1\nlogin_by_new 9000\nlogin 63C0\nunblock 9000\nquery 63C1";
    limited_loses(alloc, 4, new, "unblock Done", done)
}
