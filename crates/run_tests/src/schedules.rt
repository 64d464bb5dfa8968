// Two scripts that are run by schedules, over a port that notes the card of each turn.
ghost use Rattle.std.specs.Prelude.{◌<◌, ◌≡◌, ◌∷◌, [], ℕ, All, IfOk, map, true};
ghost use Rattle.script_line.specs.Playable.{ArePlayable, IsPlayable};
ghost use Rattle.client_api.specs.Players.{AreNamesOn};
ghost use Rattle.script_runs.specs.Turns.{AllPlayable};

use card_acts::{Act, Answer};
use client_api::{Port, Readers};
use piv_model::Interface::Contact;
use piv_model::{ApiAnswer, ReplyBytes, Took};
use script_line::{Line, Script, read_line};
use script_runs::{answers_of, play_all, players_of};
use std::alloc::Global;
use std::test::Fail;

const FIRST: &str = "connect h front shared
logout h
version";

const SECOND: &str = "version
reset back
cut B";

// The port: each act is done, and each turn leaves its card's digit.
#[derive(Drop)]
struct Noted {
    cards: Vec<u8>,
}

impl Port for Noted {
    ghost use Rattle.std.specs.Prelude.{[]};
    ghost use Rattle.client_api.specs.Ports.{Log};

    ghost cards = { λ p. 2 };

    ghost bases = { λ p. [] };

    ghost turns = { λ p k. 0 };

    ghost seen = { λ p k. 0 };

    // It keeps no records.
    ghost stands = { λ p log. ⊥ };

    ghost above = { λ p log stood. absurd stood };

    fn turn(&mut self, card: usize, act: Act<'_>) -> Answer {
        let _ = self.cards.push(if card == 0 { b'0' } else { b'1' });
        match act {
            Act::Connect {
                interface: _,
                shared: _,
            } => Answer::Connected { c: 1, epoch: 0 },
            Act::Disconnect { c: _ } => Answer::Disconnected,
            Act::Exchange {
                c: _,
                epoch: _,
                bytes: _,
            } => Answer::Reply {
                body: ReplyBytes::of(&[]),
                sw: 0x9000,
            },
            Act::Reset { interface: _ } => Answer::WasReset,
            Act::Cut => Answer::WasCut,
            Act::Power => Answer::Up { took: Took::Spent },
        }
    }
}

// A line of a kind that has no limit.
fn playable(line: Line) -> Result<Line, Fail>
    ensures { IfOk result (λ line. IsPlayable line) }
{
    match line {
        Line::Connect { h, reader, shared } => Ok(Line::Connect { h, reader, shared }),
        Line::Logout { h } => Ok(Line::Logout { h }),
        Line::Version => Ok(Line::Version),
        Line::Reset { reader } => Ok(Line::Reset { reader }),
        Line::Cut { card } => Ok(Line::Cut { card }),
        _ => Err(Fail::from("a line of another kind")),
    }
}

#[tactic(auto, using(client_api::proofs::Starting::playable_laws))]
fn push(alloc: Global, script: &mut Script, text: &str) -> Result<(), Fail>
    requires { ArePlayable script.old.lines }
    ensures { ArePlayable script.new.lines }
{
    let line = playable(read_line(alloc, text)?)?;
    script.push(line)?;
    Ok(())
}

fn script_of(alloc: Global, text: &str) -> Result<Script, Fail>
    ensures { IfOk result (λ script. ArePlayable script.lines) }
{
    let mut script = Script::new(alloc, "s")?;
    'lines: for line in text.lines() {
        push(alloc, &mut script, line)?;
    }
    Ok(script)
}

fn readers(alloc: Global) -> Result<Readers, Fail>
    ensures { IfOk result (λ readers. AreNamesOn 2 readers) }
{
    let mut readers = Readers::new(alloc);
    readers.add("front", 0, Contact)?;
    readers.add("back", 1, Contact)?;
    readers.add_card("B", 1)?;
    Ok(readers)
}

fn is_inside(schedule: &[u32]) -> bool
    ensures { result ≡ true → All (λ k. k < 2) schedule.now }
{
    for k in schedule {
        if *k >= 2 {
            return false;
        }
    }
    true
}

// The cards of the turns, and the answers.
fn run(
    alloc: Global,
    scripts: &[Script; 2],
    schedule: &[u32],
) -> Result<(Vec<u8>, Vec<Vec<ApiAnswer>>), Fail>
    requires { AllPlayable (map (λ s. s.lines) scripts.now) }
{
    let mut port = Noted {
        cards: Vec::new(alloc),
    };
    let mut players = players_of(alloc, scripts)?;
    let room = Vec::with_capacity(alloc, players.len())?;
    if !is_inside(schedule) {
        return Err(Fail::from("a place that no script has"));
    }
    play_all(&mut players, schedule, &mut port, &readers(alloc)?)?;
    Ok((port.cards, answers_of(players, room)))
}

#[test]
fn a_schedule_interleaves_scripts_and_the_rounds_end_them(rt: HostRuntime) -> Result<(), Fail> {
    let alloc = rt.alloc();
    let scripts = [script_of(alloc, FIRST)?, script_of(alloc, SECOND)?];
    let (by_rounds, answers) = run(alloc, &scripts, &[])?;
    assert!(rt; by_rounds.as_slice() == "001010".as_bytes());
    assert_eq!(rt; answers.len(), 2);
    assert_eq!(rt; answers[0].len(), 3);
    assert_eq!(rt; answers[1].len(), 3);
    assert!(rt; matches!(answers[0][2], ApiAnswer::Version));
    assert!(rt; matches!(answers[1][0], ApiAnswer::Version));
    let (mixed, _) = run(alloc, &scripts, &[1, 1, 0])?;
    assert!(rt; mixed.as_slice() == "100100".as_bytes());
    let (second_first, _) = run(alloc, &scripts, &[1, 1, 1, 1, 0])?;
    assert!(rt; second_first.as_slice() == "110000".as_bytes());
    let (first_first, _) = run(alloc, &scripts, &[0, 0, 0, 0, 0, 0, 1])?;
    assert!(rt; first_first.as_slice() == "000011".as_bytes());
    Ok(())
}
