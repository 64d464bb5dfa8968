// Lines of hexadecimal, each an APDU, and what is written for them.
ghost use Rattle.std.specs.Prelude.{◌≡◌, ◌≤◌, ◌<◌, [], length, not, true, IsTrue, IfOk, OnOk, Some};
ghost use Rattle.piv_model.specs.Base.{Base};
ghost use Rattle.piv_rules.specs.Acts.{Records, entries};
ghost use Rattle.piv_rules.specs.RandomBlocks.{draws_count};
ghost use Rattle.challenge_blocks.specs.Blocks.{most_blocks};
ghost use Rattle.card_app.specs.Stands.{IsAttached, store_state};
ghost use Rattle.piv_cli.specs.Lines.{has_dash, kept as kept_of, opened_first, text_line};
ghost use Rattle.piv_cli.specs.Outputs.{most_input};
ghost use Rattle.piv_cli.specs.Sessions.{Answers, AreAnswered, IsAfter, LinesLeave, LosesOnce, Replies};

use crate::hexadecimal::{
    add_line, copy_without_blanks, decode, first_line, without_carriage_return,
};
use arrayvec::ArrayVec;
use card_app::{Card, CardFault, Outcome};
use challenge_blocks::Blocks;
use piv_apdu::write_reply;
use piv_model::status_words::SUCCESS;
use piv_model::{Interface, Store};
use std::alloc::{AllocError, Global};

// The connection on which every line is sent.
const CONNECTION: u32 = 1;

// Buffers that each line uses again.
#[derive(Drop)]
struct Buffers {
    text: Vec<u8>,
    bytes: Vec<u8>,
    reply: ArrayVec<u8, 258>,
}

// Sends these bytes on the connection. What is replied is in `reply`; false where the card is mute.
fn reply_to<S: Store>(
    card: &mut Card<S>,
    blocks: &mut Blocks,
    bytes: &[u8],
    reply: &mut ArrayVec<u8, 258>,
) -> bool
    requires { IsAttached card.old 1 }
    ensures attached { IsAttached card.new 1 }
    ensures power { result ≡ (store_state card.new).power.on }
    ensures losses { LosesOnce (store_state card.old) (store_state card.new) }
    ensures replies { (B : Base) (R : Records) → IsAfter card.old blocks.old B R → draws_count (entries R) < most_blocks
        → Replies B R bytes.now card.old card.new blocks.new result reply.new.items }
{
    reply.clear();
    match card.exchange(CONNECTION, bytes, blocks.block()) {
        Outcome::Part => write_reply(&[], SUCCESS, reply),
        Outcome::Call {
            command: _,
            sw: _,
            body,
            last,
            drew,
        } => {
            write_reply(body, last, reply);
            blocks.draw_if(drew);
        }
        Outcome::Rest { body, last } => write_reply(body, last, reply),
        Outcome::Bad(sw) => write_reply(&[], sw, reply),
        Outcome::Mute => return false,
    }
    true
}

// Answers one line.
fn answer_line<S: Store>(
    card: &mut Card<S>,
    blocks: &mut Blocks,
    line: &[u8],
    buffers: &mut Buffers,
    out: &mut Vec<u8>,
) -> Result<(), AllocError>
    requires { IsAttached card.old 1 }
    ensures attached { IsAttached card.new 1 }
    ensures losses { LosesOnce (store_state card.old) (store_state card.new) }
    ensures dash { has_dash out.old.items ≡ not (store_state card.old).power.on
        → OnOk result (has_dash out.new.items ≡ not (store_state card.new).power.on) }
    ensures answered { (B : Base) (R : Records) → IsAfter card.old blocks.old B R → draws_count (entries R) < most_blocks
        → OnOk result (Answers B R (text_line (kept_of line.now)) card.old card.new blocks.new out.old.items out.new.items) }
{
    copy_without_blanks(line, &mut buffers.text)?;
    let text = without_carriage_return(&buffers.text);
    if text.is_empty() {
        return Ok(());
    }
    if !decode(text, &mut buffers.bytes)? {
        out.extend_from_slice(b"?\n")?;
        return Ok(());
    }
    if !reply_to(card, blocks, &buffers.bytes, &mut buffers.reply) {
        out.extend_from_slice(b"-\n")?;
        return Ok(());
    }
    add_line(buffers.reply.as_slice(), out)?;
    Ok(())
}

// Answers all lines of an input, after the connection was opened.
fn answer_each<S: Store>(
    alloc: Global,
    card: &mut Card<S>,
    blocks: &mut Blocks,
    input: &[u8],
) -> Result<Vec<u8>, AllocError>
    requires attached { IsAttached card.old 1 }
    requires few { length input.now ≤ most_input }
    ensures losses { LosesOnce (store_state card.old) (store_state card.new) }
    ensures dash { (store_state card.old).power.on ≡ true
        → IfOk result (λ out. has_dash out.items ≡ not (store_state card.new).power.on) }
    ensures answered { (B : Base) → IsAfter card.old blocks.old B opened_first
        → IfOk result (λ out. AreAnswered B input.now card.old card.new out.items) }
{
    let mut buffers = Buffers {
        text: Vec::new(alloc),
        bytes: Vec::new(alloc),
        reply: ArrayVec::new(),
    };
    let mut out = Vec::new(alloc);
    let mut rest = input;
    'lines: loop {
        match first_line(rest) {
            Some((line, after)) => {
                answer_line(card, blocks, line, &mut buffers, &mut out)?;
                rest = after;
            }
            None => {
                answer_line(card, blocks, rest, &mut buffers, &mut out)?;
                return Ok(out);
            }
        }
    }
}

/// What is written for an input: one line for each of its lines that asks something. The card is made from `store`,
/// which is handed back, and has these random bytes; one shared connection is open on contact before the first line.
pub fn answer_lines<S: Store + Drop>(
    alloc: Global,
    store: S,
    random: [u8; 32],
    input: &[u8],
) -> (S, Result<Vec<u8>, AllocError>)
    requires on { IsTrue (S.state store).power.on }
    requires few { length input.now ≤ most_input }
    ensures losses { LosesOnce (S.state store) (S.state result.0) }
    ensures dash { IfOk result.1 (λ out. has_dash out.items ≡ not (S.state result.0).power.on) }
    ensures answered { (B : Base) → B.random ≡ random → (S.state store).mem ≡ Some B.memory
        → IfOk result.1 (λ out. LinesLeave B input.now out.items (S.state store) (S.state result.0)) }
{
    let mut card = match Card::new(alloc, store) {
        Ok(card) => card,
        Err(CardFault::NoMemory(store)) => return (store, Err(AllocError)),
    };
    card.attach(CONNECTION, Interface::Contact);
    let mut blocks = Blocks::new(random);
    let answered = answer_each(alloc, &mut card, &mut blocks, input);
    (card.into_store(), answered)
}
