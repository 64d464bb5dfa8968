// The acts on a cell.
use crate::cells::{losing_cell, plain_cell};
use crate::histories::printed;
use crate::rows::{expect, expect_over_each};
use piv_model::RefId;
use std::test::Fail;
use twin_store::Twins;

#[test]
fn acts_are_answered_in_the_order_of_their_table(rt: HostRuntime) -> Result<(), Fail> {
    let rows = "
        exclusive contact = 1 0
        shared contact = locked
        shared contactless = 2 0
        reset contact = reset
        1 0 select = stale 1
        1 1 select = template
        power off = cut
        2 0 chuid = mute 1
        reset contact = off
        power up = nothing
        power up = on
        2 1 chuid = 6D00
        close 1 = closed
        close 1 = no connection
    ";
    let history = "
        opened 1 contact exclusive
        note connect contact locked
        opened 2 contactless shared
        reset contact
        note exchange 1 stale
        call 1 A4 04 00 A000000308000010000100 9000 -
        cut
        note exchange 2 mute
        note reset contact off
        up nothing
        note power on
        call 2 CB 3F FF 5C035FC102 6D00 -
        closed 1
        note disconnect 1 noconnection
    ";
    expect_over_each(&rt, rt.alloc(), 20, rows, history)
}

#[test]
fn a_connection_is_locked_by_an_exclusive_one_on_its_interface(
    rt: HostRuntime,
) -> Result<(), Fail> {
    let rows = "
        shared contact = 1 0
        exclusive contact = locked
        shared contact = 2 0
        exclusive contactless = 3 0
        shared contactless = locked
        exclusive contactless = locked
        shared contact = 4 0
        close 3 = closed
        shared contactless = 5 0
        exclusive contactless = locked
        close 1 = closed
        close 2 = closed
        exclusive contact = locked
        close 4 = closed
        exclusive contact = 6 0
    ";
    expect(&rt, rt.alloc(), &mut plain_cell(rt.alloc(), 20)?, rows)
}

#[test]
fn sixteen_are_open_over_both_interfaces(rt: HostRuntime) -> Result<(), Fail> {
    let alloc = rt.alloc();
    let rows = "
        shared contact = 1 0
        shared contactless = 2 0
        shared contact = 3 0
        shared contact = 4 0
        shared contact = 5 0
        shared contactless = 6 0
        shared contactless = 7 0
        shared contactless = 8 0
        shared contact = 9 0
        shared contact = 10 0
        shared contact = 11 0
        shared contact = 12 0
        shared contactless = 13 0
        shared contactless = 14 0
        shared contactless = 15 0
        shared contact = 16 0
        shared contact = no channel
        exclusive contactless = locked
        close 3 = closed
        shared contact = 17 0
        shared contactless = no channel
        3 0 chuid = no connection
        17 0 chuid = 6D00
    ";
    expect(&rt, alloc, &mut plain_cell(alloc, 40)?, rows)?;
    let mut twins = losing_cell::<Twins>(alloc, 40, Vec::new(alloc))?;
    expect(&rt, alloc, &mut twins, rows)
}

#[test]
fn the_turns_end_in_the_middle_of_a_chain(rt: HostRuntime) -> Result<(), Fail> {
    let rows = "
        shared contact = 1 0
        1 0 select = template
        1 0 part = 9000
        1 0 part = full
        close 1 = full
        power off = full
    ";
    let history = "
        opened 1 contact shared
        call 1 A4 04 00 A000000308000010000100 9000 -
        part 1
    ";
    expect_over_each(&rt, rt.alloc(), 3, rows, history)
}

#[test]
fn an_epoch_is_stale_after_resets_and_losses_of_its_own_side(rt: HostRuntime) -> Result<(), Fail> {
    let rows = "
        shared contact = 1 0
        shared contactless = 2 0
        reset contact = reset
        1 0 select = stale 1
        2 0 select = template
        reset contact = reset
        1 1 select = stale 2
        1 2 select = template
        power off = cut
        power up = nothing
        1 2 query = stale 3
        2 0 query = stale 1
        1 7 query = 6D00
    ";
    expect(&rt, rt.alloc(), &mut plain_cell(rt.alloc(), 20)?, rows)
}

#[test]
fn connections_are_closed_but_not_opened_without_power(rt: HostRuntime) -> Result<(), Fail> {
    let rows = "
        shared contact = 1 0
        power off = cut
        shared contact = off
        1 0 select = mute 1
        2 0 select = no connection
        close 1 = closed
        1 0 select = no connection
        power off = off
        power up = nothing
        shared contact = 2 1
    ";
    expect(&rt, rt.alloc(), &mut plain_cell(rt.alloc(), 20)?, rows)
}

#[test]
fn comparisons_are_counted_since_the_last_match(rt: HostRuntime) -> Result<(), Fail> {
    let alloc = rt.alloc();
    let mut cell = plain_cell(alloc, 40)?;
    let rows = "
        shared contact = 1 0
        1 0 select = template
        1 0 wrong = 63C2
        1 0 query = 63C2
        1 0 wrong = 63C1
    ";
    expect(&rt, alloc, &mut cell, rows)?;
    assert!(rt; cell.comparisons(RefId::Pin) == 2);
    let rows = "
        1 0 wrong-puk = 63C2
        1 0 login = 9000
    ";
    expect(&rt, alloc, &mut cell, rows)?;
    assert!(rt; cell.comparisons(RefId::Pin) == 0);
    assert!(rt; cell.comparisons(RefId::Puk) == 1);
    assert!(rt; cell.comparisons(RefId::GlobalPin) == 0);
    expect(&rt, alloc, &mut cell, "1 0 unblock = 9000")?;
    assert!(rt; cell.comparisons(RefId::Puk) == 0);
    Ok(())
}

fn moves<T: Send>(x: T) -> T {
    x
}

#[test]
fn a_cell_moves_between_threads(rt: HostRuntime) -> Result<(), Fail> {
    let mut cell = moves(plain_cell(rt.alloc(), 5)?);
    expect(&rt, rt.alloc(), &mut cell, "shared contact = 1 0")?;
    let (store, history) = cell.into_parts();
    let _ = moves(store);
    let _ = moves(history);
    Ok(())
}

#[test]
fn a_copied_history_has_the_same_entries(rt: HostRuntime) -> Result<(), Fail> {
    let alloc = rt.alloc();
    let mut cell = plain_cell(alloc, 5)?;
    let rows = "
        exclusive contact = 1 0
        1 0 select = template
        1 0 part = 9000
        power off = cut
        power up = nothing
    ";
    expect(&rt, alloc, &mut cell, rows)?;
    let history = printed(alloc, cell.history())?;
    let copy = printed(alloc, &cell.history().copy()?)?;
    assert!(rt; copy.taken() == history.taken());
    assert!(rt; copy.taken().ends_with(b"part 1\ncut\nup nothing\n"));
    Ok(())
}
