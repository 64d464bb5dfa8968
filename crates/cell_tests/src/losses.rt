// Losses of power, over blocks and over twin records on a device.
ghost use Rattle.std.specs.Prelude.{◌≤◌, IfOk};
ghost use Rattle.power_loss.specs.Due.{RisesFrom};
ghost use Rattle.power_loss.specs.Plans.{write_numbers};

use crate::cells::losing_cell;
use crate::histories::expect_history;
use crate::rows::{expect, expect_act};
use block_store::Blocks;
use card_cell::CardCell;
use card_image::{Image, Objects};
use nvm_device::{Fused, How, Loss, MemNvm, Pattern};
use piv_model::RefId;
use std::alloc::Global;
use std::process::Abort;
use std::test::Fail;
use twin_store::Twins;

// What a write leaves in its range: the old bytes, the new ones, or one byte everywhere, in hexadecimal digits.
fn left(alloc: Global, word: &str) -> Result<How, Fail> {
    match word {
        "before" => Ok(How::Before),
        "after" => Ok(How::After),
        _ => {
            let byte = hex::decode(alloc, word).or(Err("no byte"))?;
            match byte.first() {
                None => Err(Fail::from("no byte")),
                Some(byte) => Ok(How::Torn(Pattern::new(&[*byte]))),
            }
        }
    }
}

fn one_loss(alloc: Global, write: &str, how: &str) -> Result<Vec<Loss>, Fail>
    ensures { IfOk result (λ losses. RisesFrom 0 (write_numbers losses.items)) }
{
    let write = write.parse::<u64>().or(Err("no number"))?.max(1);
    let how = left(alloc, how)?;
    Ok(vec![in alloc; Loss { write, how }]?)
}

// A command, the rows that come before it, and what is sent behind its loss.
#[derive(Clone, Copy)]
struct Case<'a> {
    before: &'a str,
    command: &'a str,
    sent: &'a str,
}

// A row has a write, what is left of it, what power_up says, and the answers to what is sent.
fn expect_loss<O: Objects>(
    rt: &impl Abort,
    alloc: Global,
    case: Case<'_>,
    row: &str,
) -> Result<(), Fail> {
    let mut words = row.split_whitespace();
    let write = words.next().ok_or("no write")?;
    let how = words.next().ok_or("no bytes")?;
    let took = words.next().ok_or("not told")?;
    let mut cell = losing_cell::<O>(alloc, 100, one_loss(alloc, write, how)?)?;
    expect(
        rt,
        alloc,
        &mut cell,
        "shared contact = 1 0\n1 0 select = template",
    )?;
    expect(rt, alloc, &mut cell, case.before)?;
    expect_act(rt, alloc, &mut cell, case.command, "mute 1")?;
    expect_act(rt, alloc, &mut cell, "power up", took)?;
    expect_act(rt, alloc, &mut cell, "1 1 select", "template")?;
    for (apdu, want) in case.sent.split_whitespace().zip(words) {
        let act = format!(in alloc; "1 1 {apdu}")?;
        expect_act(rt, alloc, &mut cell, &act, want)?;
    }
    Ok(())
}

fn expect_losses<O: Objects>(
    rt: &impl Abort,
    alloc: Global,
    case: Case<'_>,
    table: &str,
) -> Result<(), Fail> {
    for row in table.trim().lines() {
        expect_loss::<O>(rt, alloc, case, row)?;
    }
    Ok(())
}

// The wrong PIN before has two writes; the login spends a try in two more, and gives all back in two.
#[test]
fn a_lost_login_leaves_the_tries_of_one_of_its_steps(rt: HostRuntime) -> Result<(), Fail> {
    let case = Case {
        before: "1 0 wrong = 63C2",
        command: "1 0 login",
        sent: "query login",
    };
    let table = "
        3 before nothing 63C2 9000
        3 after  nothing 63C2 9000
        3 00     nothing 63C2 9000
        3 AB     nothing 63C2 9000
        4 before nothing 63C2 9000
        4 after  spent   63C1 9000
        4 00     spent   63C1 9000
        4 AB     nothing 63C2 9000
        5 before spent   63C1 9000
        5 after  spent   63C1 9000
        5 00     spent   63C1 9000
        5 AB     spent   63C1 9000
        6 before spent   63C1 9000
        6 after  done    63C3 9000
        6 00     spent   63C1 9000
        6 AB     done    63C3 9000
    ";
    expect_losses::<Blocks>(&rt, rt.alloc(), case, table)?;
    expect_losses::<Twins>(&rt, rt.alloc(), case, table)
}

// A wrong PIN before has two writes.
#[test]
fn a_lost_change_leaves_the_old_pin_or_the_new_one(rt: HostRuntime) -> Result<(), Fail> {
    let case = Case {
        before: "1 0 wrong = 63C2",
        command: "1 0 change",
        sent: "query login login-new",
    };
    let table = "
        3 before nothing 63C2 9000 63C2
        3 after  nothing 63C2 9000 63C2
        3 00     nothing 63C2 9000 63C2
        3 AB     nothing 63C2 9000 63C2
        4 before nothing 63C2 9000 63C2
        4 after  spent   63C1 9000 63C2
        4 00     spent   63C1 9000 63C2
        4 AB     nothing 63C2 9000 63C2
        5 before spent   63C1 9000 63C2
        5 after  spent   63C1 9000 63C2
        5 00     spent   63C1 9000 63C2
        5 AB     spent   63C1 9000 63C2
        6 before spent   63C1 9000 63C2
        6 after  done    63C3 63C2 9000
        6 00     spent   63C1 9000 63C2
        6 AB     done    63C3 63C2 9000
    ";
    expect_losses::<Blocks>(&rt, rt.alloc(), case, table)?;
    expect_losses::<Twins>(&rt, rt.alloc(), case, table)
}

// A wrong PIN and a wrong PUK before have two writes each.
#[test]
fn a_lost_unblocking_leaves_the_tries_of_both_or_fills_both(rt: HostRuntime) -> Result<(), Fail> {
    let case = Case {
        before: "1 0 wrong = 63C2\n1 0 wrong-puk = 63C2",
        command: "1 0 unblock",
        sent: "query wrong-puk login login-new",
    };
    let table = "
        5 before nothing 63C2 63C1 9000 63C2
        5 after  nothing 63C2 63C1 9000 63C2
        5 00     nothing 63C2 63C1 9000 63C2
        5 AB     nothing 63C2 63C1 9000 63C2
        6 before nothing 63C2 63C1 9000 63C2
        6 after  spent   63C2 63C0 9000 63C2
        6 00     nothing 63C2 63C1 9000 63C2
        6 AB     spent   63C2 63C0 9000 63C2
        7 before spent   63C2 63C0 9000 63C2
        7 after  spent   63C2 63C0 9000 63C2
        7 00     spent   63C2 63C0 9000 63C2
        7 AB     spent   63C2 63C0 9000 63C2
        8 before spent   63C2 63C0 9000 63C2
        8 after  done    63C3 63C2 63C2 9000
        8 00     done    63C3 63C2 63C2 9000
        8 AB     spent   63C2 63C0 9000 63C2
    ";
    expect_losses::<Blocks>(&rt, rt.alloc(), case, table)?;
    expect_losses::<Twins>(&rt, rt.alloc(), case, table)
}

const PUT: Case<'static> = Case {
    before: "1 0 challenge = challenged\n1 0 response = 9000",
    command: "1 0 put",
    sent: "login printed",
};

// One block, a slot of the directory, and its selector.
#[test]
fn a_lost_put_leaves_the_old_value_or_the_new_one_in_blocks(rt: HostRuntime) -> Result<(), Fail> {
    let table = "
        1 before nothing 9000 information
        1 after  nothing 9000 information
        1 00     nothing 9000 information
        1 AB     nothing 9000 information
        2 before nothing 9000 information
        2 after  nothing 9000 information
        2 00     nothing 9000 information
        2 AB     nothing 9000 information
        3 before nothing 9000 information
        3 after  done    9000 other
        3 00     nothing 9000 information
        3 AB     done    9000 other
    ";
    expect_losses::<Blocks>(&rt, rt.alloc(), PUT, table)
}

#[test]
fn a_lost_put_leaves_the_old_value_or_the_new_one_in_twin_records(
    rt: HostRuntime,
) -> Result<(), Fail> {
    let table = "
        1 before nothing 9000 information
        1 after  nothing 9000 information
        1 00     nothing 9000 information
        1 AB     nothing 9000 information
        2 before nothing 9000 information
        2 after  done    9000 other
        2 00     nothing 9000 information
        2 AB     done    9000 other
    ";
    expect_losses::<Twins>(&rt, rt.alloc(), PUT, table)
}

// A put of a value that stands already says nothing, and a login at a full counter too.
#[test]
fn a_lost_command_that_changes_nothing_did_nothing(rt: HostRuntime) -> Result<(), Fail> {
    let alloc = rt.alloc();
    let login = Case {
        before: "",
        command: "1 0 login",
        sent: "query",
    };
    let table = "
        1 after  nothing 63C3
        2 before nothing 63C3
        2 after  spent   63C2
        3 after  spent   63C2
        4 before spent   63C2
        4 after  nothing 63C3
    ";
    expect_losses::<Blocks>(&rt, alloc, login, table)?;
    let mut again = PUT;
    again.before = "1 0 challenge = challenged\n1 0 response = 9000\n1 0 put = 9000";
    expect_losses::<Blocks>(&rt, alloc, again, "6 after nothing 9000 other")
}

// The acts of rows on a device with these losses, and the lines of the history that they leave.
fn expect_run<O: Objects>(
    rt: &impl Abort,
    alloc: Global,
    losses: Vec<Loss>,
    rows: &str,
    history: &str,
) -> Result<CardCell<Image<Fused<MemNvm>, O>>, Fail>
    requires rises { RisesFrom 0 (write_numbers losses.items) }
{
    let mut cell = losing_cell::<O>(alloc, 100, losses)?;
    expect(rt, alloc, &mut cell, rows)?;
    expect_history(rt, alloc, &cell, history)?;
    Ok(cell)
}

// A row has a write of a login, what is left of it, the PIN, what `power_up` says, and the answer to a query behind it.
fn expect_lost_login<O: Objects>(rt: &impl Abort, alloc: Global, row: &str) -> Result<(), Fail> {
    let mut words = row.split_whitespace();
    let write = words.next().ok_or("no write")?;
    let how = words.next().ok_or("no bytes")?;
    let pin = words.next().ok_or("no PIN")?;
    let took = words.next().ok_or("not told")?;
    let tries = words.next().ok_or("no tries")?;
    let rows = format!(in alloc;
        "
        shared contact = 1 0
        1 0 select = template
        1 0 0020008008{pin} = mute 1
        power up = {took}
        1 1 select = template
        1 1 query = {tries}
    "
    )?;
    let history = format!(in alloc;
        "
        opened 1 contact shared
        call 1 A4 04 00 A000000308000010000100 9000 -
        cut 1 20 00 80 {pin}
        up {took}
        call 1 A4 04 00 A000000308000010000100 9000 -
        call 1 20 00 80 - {tries} -
    "
    )?;
    expect_run::<O>(rt, alloc, one_loss(alloc, write, how)?, &rows, &history)?;
    Ok(())
}

// A torn selector is a byte everywhere, which names a slot by whether it is odd.
#[test]
fn a_lost_login_stands_in_the_history_as_it_came(rt: HostRuntime) -> Result<(), Fail> {
    let table = "
        1 00     313233343536FFFF nothing 63C3
        2 AB     393939393939FFFF spent   63C2
        2 10     393939393939FFFF nothing 63C3
        3 before 313233343536FFFF spent   63C2
        4 after  313233343536FFFF nothing 63C3
    ";
    for row in table.trim().lines() {
        expect_lost_login::<Blocks>(&rt, rt.alloc(), row)?;
        expect_lost_login::<Twins>(&rt, rt.alloc(), row)?;
    }
    Ok(())
}

// The wrong login has two writes, and the right one is lost with its last.
#[test]
fn a_login_that_fills_the_counter_is_done(rt: HostRuntime) -> Result<(), Fail> {
    let alloc = rt.alloc();
    let rows = "
        shared contact = 1 0
        1 0 select = template
        1 0 wrong = 63C2
        1 0 login = mute 1
        power up = done
        1 1 select = template
        1 1 query = 63C3
    ";
    let history = "
        opened 1 contact shared
        call 1 A4 04 00 A000000308000010000100 9000 -
        call 1 20 00 80 393939393939FFFF 63C2 -
        cut 1 20 00 80 313233343536FFFF
        up done
        call 1 A4 04 00 A000000308000010000100 9000 -
        call 1 20 00 80 - 63C3 -
    ";
    expect_run::<Blocks>(&rt, alloc, one_loss(alloc, "6", "after")?, rows, history)?;
    expect_run::<Twins>(&rt, alloc, one_loss(alloc, "6", "after")?, rows, history)?;
    Ok(())
}

// Each loss comes after the write that spends a try; no comparison is made.
fn expect_blocked<O: Objects>(rt: &impl Abort, alloc: Global) -> Result<(), Fail> {
    let losses = vec![in alloc;
        Loss {
            write: 2,
            how: How::After
        },
        Loss {
            write: 4,
            how: How::After
        },
        Loss {
            write: 6,
            how: How::After
        },
    ]?;
    let rows = "
        shared contact = 1 0
        1 0 select = template
        1 0 wrong = mute 1
        power up = spent
        1 1 select = template
        1 1 wrong = mute 2
        power up = spent
        1 2 select = template
        1 2 wrong = mute 3
        power up = spent
        1 3 select = template
        1 3 wrong = 6983
        power up = on
    ";
    let history = "
        opened 1 contact shared
        call 1 A4 04 00 A000000308000010000100 9000 -
        cut 1 20 00 80 393939393939FFFF
        up spent
        call 1 A4 04 00 A000000308000010000100 9000 -
        cut 1 20 00 80 393939393939FFFF
        up spent
        call 1 A4 04 00 A000000308000010000100 9000 -
        cut 1 20 00 80 393939393939FFFF
        up spent
        call 1 A4 04 00 A000000308000010000100 9000 -
        call 1 20 00 80 393939393939FFFF 6983 -
        note power on
    ";
    let mut cell = expect_run::<O>(rt, alloc, losses, rows, history)?;
    assert!(rt; cell.comparisons(RefId::Pin) == 0);
    let rows = "1 3 unblock = 9000\n1 3 login-new = 9000";
    expect(rt, alloc, &mut cell, rows)
}

#[test]
fn losses_of_power_block_a_pin_without_a_comparison(rt: HostRuntime) -> Result<(), Fail> {
    expect_blocked::<Blocks>(&rt, rt.alloc())?;
    expect_blocked::<Twins>(&rt, rt.alloc())
}
