// Turns at one cell.
ghost use Rattle.std.specs.Prelude.{◌≡◌, ◌≤◌, IfSome, [], min};
ghost use Rattle.card_acts.specs.Acts.{IsShort};
ghost use Rattle.card_cell.specs.Cells.{history_of, turns_of};

use crate::commands::command;
use block_store::BlockStore;
use card_cell::{Act, CardCell};
use nvm_device::MemNvm;
use piv_model::Interface::Contact;
use piv_model::plain_start;
use std::alloc::Global;

type Cell = CardCell<BlockStore<MemNvm>>;

// The plain card in blocks, with so many turns. None for want of memory.
fn plain_cell(alloc: Global, turns: usize) -> Option<Cell>
    requires { turns ≤ 1000000 }
    ensures { IfSome result (λ cell. (history_of cell ≡ []) × (turns_of cell ≡ turns)) }
{
    let start = plain_start(alloc).ok()?;
    let blank = MemNvm::new(alloc, 1_114_112).ok()?;
    let store = BlockStore::personalise(blank, &start).ok()?;
    CardCell::new(alloc, store, &start.random, turns).ok()
}

// The act of a turn: a connect, and then commands on its connection.
fn act_of_turn(turn: usize) -> Act<'static>
    ensures { IsShort result }
{
    if turn == 0 {
        Act::Connect {
            interface: Contact,
            shared: true,
        }
    } else {
        Act::Exchange {
            c: 1,
            epoch: 0,
            bytes: command(turn - 1),
        }
    }
}

/// The entries of a cell with so many turns, at most 1,000,000, after so many acts. None for want of memory.
pub fn count(alloc: Global, turns: usize, made: usize) -> Option<usize>
    ensures { IfSome result (λ entries. entries ≡ min made (min turns 1000000)) }
{
    let most = turns.min(1_000_000);
    let mut cell = plain_cell(alloc, most)?;
    for turn in 0..made {
        cell.turn(act_of_turn(turn));
    }
    Some(cell.history().len())
}
