// Cells behind a port.
ghost use Rattle.std.specs.Prelude.{◌≡◌, ◌<◌};

use card_acts::{Act, Answer};
use card_cell::CardCell;
use cell_port::CellPort;
use client_api::Port;
use memory_store::MemoryStore;
use piv_model::Interface::Contact;
use piv_model::{Entry, plain_start};
use std::alloc::Global;
use std::marker::Brand;
use std::test::Fail;

// The plain card in memory, with so many turns.
fn plain_cell(alloc: Global, turns: usize) -> Result<CardCell<MemoryStore>, Fail> {
    let start = plain_start(alloc)?;
    let store = MemoryStore::new(alloc, &start, Vec::new(alloc))?;
    match CardCell::new(alloc, store, &start.random, turns.min(1_000_000)) {
        Ok(cell) => Ok(cell),
        Err(_) => Err(Fail::from("no memory")),
    }
}

// The number of a connection that is opened on a card.
fn connected<P: Port>(port: &mut P, card: usize) -> Option<u32>
    requires { card < P.cards port.old }
    ensures { P.cards port.new ≡ P.cards port.old }
{
    let act = Act::Connect {
        interface: Contact,
        shared: true,
    };
    match port.turn(card, act) {
        Answer::Connected { c, epoch: _ } => Some(c),
        _ => None,
    }
}

#[test]
fn each_card_has_its_own_turns_and_history(rt: HostRuntime) -> Result<(), Fail> {
    let alloc = rt.alloc();
    let cells = vec![in alloc; plain_cell(alloc, 5)?, plain_cell(alloc, 1)?]?;
    let mut port: CellPort<MemoryStore, Brand> = CellPort::new(cells);
    assert_eq!(rt; connected(&mut port, 0), Some(1));
    assert_eq!(rt; connected(&mut port, 1), Some(1));
    assert_eq!(rt; connected(&mut port, 1), None);
    assert_eq!(rt; connected(&mut port, 0), Some(2));
    let cells = port.into_cells();
    let lengths = [cells[0].history().len(), cells[1].history().len()];
    assert_eq!(rt; lengths, [2, 1]);
    let second = cells[0].history().entry(1);
    assert!(rt; matches!(second, Entry::Opened { c: 2, .. }));
    Ok(())
}
