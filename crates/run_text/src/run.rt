// The text of a run.
ghost use Rattle.std.specs.Prelude.{◌≡◌, map, length};
ghost use Rattle.piv_ports.specs.Writes.{Writes};
ghost use Rattle.run_text.specs.RunTexts.{heading, answers_text, script_text, card_text, scripts_text, cards_text, run_text};

use entry_text::{print_answer, print_history};
use piv_model::{ApiAnswer, History};
use piv_ports::{Sink, WriteStop, write_all};
use piv_scene::Scene;

// A word, a name and the end of the line.
fn print_heading<K: Sink>(word: &[u8], name: &str, sink: &mut K) -> Result<(), WriteStop>
    ensures { Writes K.taken K.flushed K.faults (heading word.now name.now) sink.old sink.new result }
{
    write_all(sink, word)?;
    write_all(sink, name.as_bytes())?;
    write_all(sink, b"\n")
}

fn print_answers<K: Sink>(answers: &[ApiAnswer], sink: &mut K) -> Result<(), WriteStop>
    ensures { Writes K.taken K.flushed K.faults (answers_text answers.now) sink.old sink.new result }
{
    'answers: for k in 0..answers.len() {
        print_answer(k + 1, &answers[k], sink)?;
    }
    Ok(())
}

fn print_script<K: Sink>(name: &str, answers: &[ApiAnswer], sink: &mut K) -> Result<(), WriteStop>
    ensures { Writes K.taken K.flushed K.faults (script_text name.now answers.now) sink.old sink.new result }
{
    print_heading(b"script ", name, sink)?;
    print_answers(answers, sink)
}

fn print_card<K: Sink>(name: &str, history: &History, sink: &mut K) -> Result<(), WriteStop>
    ensures { Writes K.taken K.flushed K.faults (card_text name.now history.now.past) sink.old sink.new result }
{
    print_heading(b"card ", name, sink)?;
    print_history(history, sink)
}

fn print_scripts<K: Sink>(
    scene: &Scene,
    answers: &[Vec<ApiAnswer>],
    sink: &mut K,
) -> Result<(), WriteStop>
    requires { length answers.now ≡ length scene.now.scripts }
    ensures { Writes K.taken K.flushed K.faults (scripts_text scene.now.scripts (map (λ a. a.items) answers.now)) sink.old sink.new result }
{
    'scripts: for k in 0..scene.scripts() {
        print_script(scene.script(k).name(), &answers[k], sink)?;
    }
    Ok(())
}

fn print_cards<K: Sink>(scene: &Scene, histories: &[History], sink: &mut K) -> Result<(), WriteStop>
    requires { length histories.now ≡ length scene.now.cards }
    ensures { Writes K.taken K.flushed K.faults (cards_text scene.now.cards (map (λ h. h.past) histories.now)) sink.old sink.new result }
{
    'cards: for k in 0..scene.cards() {
        print_card(scene.card_name(k), &histories[k], sink)?;
    }
    Ok(())
}

/// Prints a run of a scene: the answers of each script in their order, then the history of each card.
pub fn print_run<K: Sink>(
    scene: &Scene,
    answers: &[Vec<ApiAnswer>],
    histories: &[History],
    sink: &mut K,
) -> Result<(), WriteStop>
    requires scripts { length answers.now ≡ length scene.now.scripts }
    requires cards { length histories.now ≡ length scene.now.cards }
    ensures { Writes K.taken K.flushed K.faults
        (run_text scene.now (map (λ a. a.items) answers.now) (map (λ h. h.past) histories.now)) sink.old sink.new result }
{
    print_scripts(scene, answers, sink)?;
    print_cards(scene, histories, sink)
}
