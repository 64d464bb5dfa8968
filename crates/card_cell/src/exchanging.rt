// An exchange that reaches the card, with its entry.
ghost use Rattle.std.specs.Prelude.{◌≡◌, ◌≤◌, ◌+◌, ◌∷◌, ℕ, List, length, true, false, Some, None, if◌then◌else◌};
ghost use Rattle.piv_model.specs.Base.{Base};
ghost use Rattle.piv_model.specs.Written.{HasRoom};
ghost use Rattle.piv_rules.specs.Acts.{Records, entries, Exchange};
ghost use Rattle.piv_rules.specs.RandomBlocks.{next_block};
ghost use Rattle.card_app.specs.Plans.{DueFollows, GoesOn};
ghost use Rattle.card_app.specs.Stands.{CardStandsFor, IsAttached, is_attached, attached_count, held_card, store_state};
ghost use Rattle.card_app.specs.After.{epoch_at};
ghost use Rattle.card_cell.specs.Exchanged.{latest, answer_made, IsNoted, IsEntryOf};
ghost use Rattle.card_cell.specs.Losses.{is_loss, IsCounted};

use crate::compared::{Comparison, comparison_in};
use card_app::{Card, Outcome};
use piv_model::status_words::SUCCESS;
use piv_model::{Entry, History, ReplyBytes, Store, Took};
use piv_rules::took_by;

// What an exchange came to, whether it drew the block, and the comparison of its command with how far that came.
#[derive(Drop)]
pub(crate) enum Exchanged {
    Replied {
        body: ReplyBytes,
        sw: u16,
        drew: bool,
        compared: Option<Comparison>,
        took: Took,
    },
    Mute,
}

impl Exchanged {
    // An answer where no command is noted.
    fn without_command(body: ReplyBytes, sw: u16) -> Exchanged
        ensures { result ≡ Exchanged.Replied body sw false None Took.Nothing }
    {
        Exchanged::Replied {
            body,
            sw,
            drew: false,
            compared: None,
            took: Took::Nothing,
        }
    }
}

// The block that a call bears.
fn borne(drew: bool, block: &[u8; 16]) -> Option<[u8; 16]>
    ensures { result ≡ (if drew then Some block.now else None) }
{
    if drew { Some(*block) } else { None }
}

// An exchange on a card that is on, and that has a Global PIN or hasn't; its entry is added.
pub(crate) fn exchange<S: Store>(
    card: &mut Card<S>,
    history: &mut History,
    c: u32,
    bytes: &[u8],
    block: &[u8; 16],
    has_global: bool,
) -> Exchanged
    requires on { (store_state card.old).power.on ≡ true }
    requires attached { IsAttached card.old c }
    requires room { HasRoom 1 (held_card card.old + 255) history.old }
    ensures noted { IsNoted history.old history.new (held_card card.old) (held_card card.new) }
    ensures counted { IsCounted (is_loss (latest history.new.past)) (store_state card.old) (store_state card.new) }
    ensures kind { IsEntryOf has_global result (latest history.new.past) }
    ensures numbers { (d : ℕ) → is_attached card.new d ≡ is_attached card.old d }
    ensures count { attached_count card.new ≡ attached_count card.old }
    ensures stands { (B : Base) (R : Records) (known : ℕ) → CardStandsFor card.old B R
        → epoch_at R c ≤ known → block.now ≡ next_block B (entries R)
        → CardStandsFor card.new B (record {
          act = Exchange c known bytes.now;
          entry = latest history.new.past;
          answer = answer_made (epoch_at R c) result;
        } ∷ R) }
    ensures plan { (B : Base) (R : Records) (L : List ℕ) → CardStandsFor card.old B R
        → block.now ≡ next_block B (entries R)
        → GoesOn S.put_cost B L (entries R) (latest history.new.past) (store_state card.old) (store_state card.new) }
    ensures due { (B : Base) (R : Records) → CardStandsFor card.old B R → block.now ≡ next_block B (entries R)
        → DueFollows S.put_cost B (entries R) (latest history.new.past) (store_state card.old) (store_state card.new) }
{
    match card.exchange(c, bytes, block) {
        Outcome::Part => {
            history.push(Entry::Part { c });
            Exchanged::without_command(ReplyBytes::of(&[]), SUCCESS)
        }
        Outcome::Call {
            command,
            sw,
            body,
            last,
            drew,
        } => {
            let body = ReplyBytes::of(body);
            let compared = comparison_in(command, has_global);
            history.push(Entry::Call {
                c,
                command,
                sw,
                block: borne(drew, block),
            });
            Exchanged::Replied {
                body,
                sw: last,
                drew,
                compared,
                took: took_by(sw),
            }
        }
        Outcome::Rest { body, last } => {
            history.push(Entry::Rest { c });
            Exchanged::without_command(ReplyBytes::of(body), last)
        }
        Outcome::Bad(sw) => {
            history.push(Entry::Bad { c, sw });
            Exchanged::without_command(ReplyBytes::of(&[]), sw)
        }
        Outcome::Mute => {
            let running = card.running();
            history.push(Entry::Cut { running });
            Exchanged::Mute
        }
    }
}
