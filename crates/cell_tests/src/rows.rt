// Rows of text: an act on a cell, and its answer.
use crate::cells::{losing_cell, plain_cell};
use crate::histories::expect_history;
use crate::words::spelled;
use block_store::Blocks;
use card_cell::{Act, Answer, CardCell};
use piv_model::Interface::{Contact, Contactless};
use piv_model::{Interface, Store, Took};
use std::alloc::Global;
use std::process::Abort;
use std::test::Fail;
use twin_store::Twins;

fn interface(word: &str) -> Interface {
    if word == "contact" {
        Contact
    } else {
        Contactless
    }
}

fn text(alloc: Global, word: &str) -> Result<String, Fail> {
    Ok(format!(in alloc; "{word}")?)
}

fn reply(alloc: Global, body: &[u8], sw: u16) -> Result<String, Fail> {
    let mut bytes = Vec::new(alloc);
    bytes.extend_from_slice(body)?;
    bytes.extend_from_slice(&sw.to_be_bytes())?;
    Ok(hex::encode_upper(alloc, bytes)?)
}

fn came(took: Took) -> &'static str {
    match took {
        Took::Nothing => "nothing",
        Took::Spent => "spent",
        Took::Done => "done",
    }
}

fn told(alloc: Global, answer: Answer) -> Result<String, Fail> {
    match answer {
        Answer::Full => text(alloc, "full"),
        Answer::Connected { c, epoch } => Ok(format!(in alloc; "{c} {epoch}")?),
        Answer::Disconnected => text(alloc, "closed"),
        Answer::Reply { body, sw } => reply(alloc, body.as_slice(), sw),
        Answer::Mute { epoch } => Ok(format!(in alloc; "mute {epoch}")?),
        Answer::Stale { epoch } => Ok(format!(in alloc; "stale {epoch}")?),
        Answer::NoConnection => text(alloc, "no connection"),
        Answer::Locked => text(alloc, "locked"),
        Answer::NoChannel => text(alloc, "no channel"),
        Answer::Off => text(alloc, "off"),
        Answer::On => text(alloc, "on"),
        Answer::WasReset => text(alloc, "reset"),
        Answer::WasCut => text(alloc, "cut"),
        Answer::Up { took } => text(alloc, came(took)),
    }
}

fn number(word: &str) -> Result<u32, Fail> {
    Ok(word.parse::<u32>().or(Err("no number"))?)
}

fn connected<S: Store>(cell: &mut CardCell<S>, side: &str, shared: bool) -> Answer {
    cell.turn(Act::Connect {
        interface: interface(side),
        shared,
    })
}

// The bytes of an APDU on a connection, by a caller who knows an epoch.
fn exchanged<S: Store>(
    alloc: Global,
    cell: &mut CardCell<S>,
    c: u32,
    epoch: u32,
    apdu: &str,
) -> Result<Answer, Fail> {
    let bytes = hex::decode(alloc, spelled(apdu)).or(Err("no hexadecimal text"))?;
    if bytes.len() > 512 {
        return Err(Fail::from("too long"));
    }
    let act = Act::Exchange {
        c,
        epoch,
        bytes: bytes.as_slice(),
    };
    Ok(cell.turn(act))
}

// What an act is answered. Two words are an act by its name, and three are a connection, an epoch and an APDU.
fn acted<S: Store>(alloc: Global, cell: &mut CardCell<S>, act: &str) -> Result<Answer, Fail> {
    let (name, rest) = act.split_once(' ').ok_or("no act")?;
    match name {
        "shared" => Ok(connected(cell, rest, true)),
        "exclusive" => Ok(connected(cell, rest, false)),
        "close" => Ok(cell.turn(Act::Disconnect { c: number(rest)? })),
        "reset" => Ok(cell.turn(Act::Reset {
            interface: interface(rest),
        })),
        "power" => {
            let act = if rest == "off" { Act::Cut } else { Act::Power };
            Ok(cell.turn(act))
        }
        _ => {
            let (epoch, apdu) = rest.split_once(' ').ok_or("no epoch")?;
            exchanged(alloc, cell, number(name)?, number(epoch)?, apdu)
        }
    }
}

// The act has this answer.
pub(crate) fn expect_act<S: Store>(
    rt: &impl Abort,
    alloc: Global,
    cell: &mut CardCell<S>,
    act: &str,
    want: &str,
) -> Result<(), Fail> {
    let given = told(alloc, acted(alloc, cell, act)?)?;
    assert!(rt; given.as_str() == spelled(want), "{act}: {given}");
    Ok(())
}

// Each row is an act, and its answer behind `=`.
pub(crate) fn expect<S: Store>(
    rt: &impl Abort,
    alloc: Global,
    cell: &mut CardCell<S>,
    rows: &str,
) -> Result<(), Fail> {
    for row in rows.trim().lines() {
        let (act, want) = row.split_once('=').ok_or("no answer")?;
        expect_act(rt, alloc, cell, act.trim(), want.trim())?;
    }
    Ok(())
}

// The same over a store in memory, twin records and blocks; and the lines of the histories.
pub(crate) fn expect_over_each(
    rt: &impl Abort,
    alloc: Global,
    turns: usize,
    rows: &str,
    history: &str,
) -> Result<(), Fail> {
    let mut memory = plain_cell(alloc, turns)?;
    expect(rt, alloc, &mut memory, rows)?;
    expect_history(rt, alloc, &memory, history)?;
    let mut twins = losing_cell::<Twins>(alloc, turns, Vec::new(alloc))?;
    expect(rt, alloc, &mut twins, rows)?;
    expect_history(rt, alloc, &twins, history)?;
    let mut blocks = losing_cell::<Blocks>(alloc, turns, Vec::new(alloc))?;
    expect(rt, alloc, &mut blocks, rows)?;
    expect_history(rt, alloc, &blocks, history)
}
