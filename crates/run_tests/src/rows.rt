// Scripts on the plain card, line by line with their answers.
use crate::lost::{Left, LostWrite};
use crate::runs::By;
use crate::story::Story;
use crate::words::spelled;
use std::alloc::Global;
use std::process::Abort;
use std::test::Fail;

// Each row is a line of the script, and its answer behind `=`.
fn expect_rows(
    rt: &impl Abort,
    alloc: Global,
    by: By,
    lost: &[LostWrite],
    rows: &str,
) -> Result<(), Fail> {
    let mut story = Story::new(alloc, lost)?;
    for row in rows.trim().lines() {
        let (line, answer) = row.split_once('=').ok_or("no answer")?;
        story.add(spelled(line.trim()), spelled(answer.trim()))?;
    }
    story.expect(rt, by)
}

// The references have the same writes in each store: two spend a try, and two fill the counter where the PIN is right.
fn expect_both(rt: &impl Abort, alloc: Global, lost: &[LostWrite], rows: &str) -> Result<(), Fail> {
    expect_rows(rt, alloc, By::Bench, lost, rows)?;
    expect_rows(rt, alloc, By::Player, lost, rows)
}

// A loss behind a write.
fn after(number: u64) -> LostWrite {
    LostWrite {
        number,
        left: Left::After,
    }
}

#[test]
fn a_lost_login_spends_a_try_or_none(rt: HostRuntime) -> Result<(), Fail> {
    let alloc = rt.alloc();
    let cases = [
        (1, Left::Torn(0), "right", "nothing", "63C3"),
        (2, Left::Torn(0x10), "wrong", "nothing", "63C3"),
        (2, Left::Torn(0xAB), "wrong", "spent", "63C2"),
        (3, Left::Before, "right", "spent", "63C2"),
        (4, Left::After, "right", "nothing", "63C3"),
    ];
    for (number, left, login, took, word) in cases {
        let rows = format!(in alloc;
            "front = PIV_OK
            select = template
            {login} = lost
            power A = DONE {took}
            select = template
            query = REPLY - {word}"
        )?;
        expect_both(&rt, alloc, &[LostWrite { number, left }], rows.as_str())?;
    }
    Ok(())
}

#[test]
fn a_login_that_is_lost_behind_its_last_write_has_filled_the_counter(
    rt: HostRuntime,
) -> Result<(), Fail> {
    let rows = "
        front = PIV_OK
        select = template
        wrong = PIV_AUTHENTICATION_FAILURE 63C2
        right = lost
        power A = DONE done
        select = template
        query = REPLY - 63C3
    ";
    expect_both(&rt, rt.alloc(), &[after(6)], rows)
}

#[test]
fn three_losses_block_a_pin_that_was_never_compared(rt: HostRuntime) -> Result<(), Fail> {
    let rows = "
        front = PIV_OK
        select = template
        wrong = lost
        power A = DONE spent
        select = template
        wrong = lost
        power A = DONE spent
        select = template
        wrong = lost
        power A = DONE spent
        select = template
        wrong = PIV_AUTHENTICATION_FAILURE 6983
        power A = ON
        select = template
    ";
    expect_both(&rt, rt.alloc(), &[after(2), after(4), after(6)], rows)
}

// A put of 64 bytes writes a block, a slot of the directory and its selector; in twin records a slot and its selector.
#[test]
fn a_lost_put_leaves_the_old_value_or_the_new_one(rt: HostRuntime) -> Result<(), Fail> {
    let alloc = rt.alloc();
    let value = times(alloc, "5A", 64)?;
    let new = format!(in alloc; "PIV_OK 5340{value}")?;
    let cases = [
        (By::Bench, 1, Left::Torn(0), "nothing", "information"),
        (By::Bench, 3, Left::After, "done", new.as_str()),
        (By::Player, 1, Left::Torn(0), "nothing", "information"),
        (By::Player, 2, Left::After, "done", new.as_str()),
    ];
    for (by, number, left, took, printed) in cases {
        let rows = format!(in alloc;
            "front = PIV_OK
            select = template
            admin = PIV_OK
            put h 2.16.840.1.101.3.7.2.48.1 fill 64 5A = lost
            power A = DONE {took}
            select = template
            right = PIV_OK
            printed = {printed}"
        )?;
        expect_rows(&rt, alloc, by, &[LostWrite { number, left }], rows.as_str())?;
    }
    Ok(())
}

fn times(alloc: Global, text: &str, count: usize) -> Result<String, Fail> {
    let mut long = String::new(alloc);
    for _ in 0..count {
        long.push_str(text)?;
    }
    Ok(long)
}

// The response to the plain card's first challenge is as OpenSSL enciphers it.
#[test]
fn the_longest_object_is_put_in_64_parts_and_read_in_64_rests(rt: HostRuntime) -> Result<(), Fail> {
    let alloc = rt.alloc();
    let value = times(alloc, "A5", 16_384)?;
    let parts = times(alloc, "part 1\n", 64)?;
    let rests = times(alloc, "rest 1\n", 64)?;
    let mut story = Story::new(alloc, &[])?;
    story.add(spelled("front"), "PIV_OK")?;
    story.add(spelled("select"), spelled("template"))?;
    story.add(spelled("admin"), "PIV_OK")?;
    story.add(spelled("right"), "PIV_OK")?;
    story.add("put h 2.16.840.1.101.3.7.2.96.48 fill 16384 A5", "PIV_OK")?;
    story.add(
        "get h 2.16.840.1.101.3.7.2.96.48",
        format!(in alloc; "PIV_OK 53824000{value}")?.as_str(),
    )?;
    story.add(
        "put h 2.16.840.1.101.3.7.2.96.48 fill 16385 A5",
        "PIV_INSUFFICIENT_CARD_RESOURCE",
    )?;
    let history = format!(in alloc;
        "opened 1 contact shared
call 1 A4 04 00 A000000308000010000100 9000 -
call 1 87 08 9B 7C028100 9000 76B8E0ADA0F13D90405D6AE55386BD28
call 1 87 08 9B 7C12821042155C90AB20DCE01EB4F8787E51B59A 9000 -
call 1 20 00 80 313233343536FFFF 9000 -
{parts}call 1 DB 3F FF 5C035FC10853824000{value} 9000 -
call 1 CB 3F FF 5C035FC108 9000 -
{rests}{parts}call 1 DB 3F FF 5C035FC10853824001{value}A5 6A84 -
"
    )?;
    story.expect_all(&rt, By::Bench, history.as_str())
}
