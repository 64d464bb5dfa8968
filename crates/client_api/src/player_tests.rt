// A script as it is played, over a port whose answers stand in a list.
ghost use Rattle.std.specs.Prelude.{IfOk};
ghost use Rattle.script_line.specs.Playable.{IsPlayable, ArePlayable};
ghost use Rattle.client_api.specs.Players.{AreNamesOn, IsReady};

use crate::listed::{Listed, Told};
use crate::tests::moves;
use crate::{Player, Readers};
use entry_text::print_answer;
use piv_model::Interface::Contact;
use piv_model::NoMemory;
use piv_ports::MemSink;
use script_line::{Line, Script, read_line};
use std::alloc::Global;
use std::test::Fail;

const LINES: &str = "version
generate
logout h
connect h none shared
connect h r shared
get h 1.2
get h 2.16.840.1.101.3.7.2.48.0
reset r
cut c
power c
get h 2.16.840.1.101.3.7.2.48.0
disconnect h
logout h
connect h r exclusive
logout h";

const ANSWERS: &str = "1 VERSION 800-73-4 Client API
2 UNSUPPORTED
3 PIV_INVALID_CARD_HANDLE
4 PIV_CONNECTION_FAILURE
5 PIV_OK
6 PIV_INVALID_OID
7 PIV_OK 010201
8 DONE
9 DONE
10 DONE spent
11 PIV_CARD_READER_ERROR
12 PIV_OK
13 PIV_INVALID_CARD_HANDLE
14 PIV_CONNECTION_LOCKED
15 PIV_INVALID_CARD_HANDLE
";

// A line of a kind that has no limit.
fn playable(line: Line) -> Result<Line, Fail>
    ensures { IfOk result (λ line. IsPlayable line) }
{
    match line {
        Line::Connect { h, reader, shared } => Ok(Line::Connect { h, reader, shared }),
        Line::Disconnect { h } => Ok(Line::Disconnect { h }),
        Line::Logout { h } => Ok(Line::Logout { h }),
        Line::Get { h, oid } => Ok(Line::Get { h, oid }),
        Line::Version => Ok(Line::Version),
        Line::Generate => Ok(Line::Generate),
        Line::Reset { reader } => Ok(Line::Reset { reader }),
        Line::Cut { card } => Ok(Line::Cut { card }),
        Line::Power { card } => Ok(Line::Power { card }),
        _ => Err(Fail::from("a line with a limit")),
    }
}

#[tactic(auto, using(crate::proofs::Starting::playable_laws))]
fn push(alloc: Global, script: &mut Script, text: &str) -> Result<(), Fail>
    requires { ArePlayable script.old.lines }
    ensures { ArePlayable script.new.lines }
{
    let line = playable(read_line(alloc, text)?)?;
    script.push(line)?;
    Ok(())
}

fn script_of(alloc: Global, text: &str) -> Result<Script, Fail>
    ensures { IfOk result (λ script. ArePlayable script.lines) }
{
    let mut script = Script::new(alloc, "s")?;
    'lines: for line in text.lines() {
        push(alloc, &mut script, line)?;
    }
    Ok(script)
}

fn readers(alloc: Global) -> Result<Readers, Fail>
    ensures { IfOk result (λ readers. AreNamesOn 1 readers) }
{
    let mut readers = Readers::new(alloc);
    readers.add("r", 0, Contact)?;
    readers.add_card("c", 0)?;
    Ok(readers)
}

fn play(player: &mut Player<'_>, port: &mut Listed<'_>, readers: &Readers) -> Result<(), NoMemory>
    requires ready { IsReady 1 player.old }
    requires names { AreNamesOn 1 readers.now }
{
    'steps: loop {
        if !player.step(port, readers)? {
            return Ok(());
        }
    }
}

#[test]
fn lines_take_the_newest_handle_of_their_name(rt: HostRuntime) -> Result<(), Fail> {
    let alloc = rt.alloc();
    let script = script_of(alloc, LINES)?;
    let mut port = Listed {
        answers: &[
            Told::Done,
            Told::Reply(0x6101, 2),
            Told::Reply(0x9000, 1),
            Told::Done,
            Told::Done,
            Told::Done,
            Told::Mute(2),
            Told::Done,
            Told::NoConnection,
            Told::Locked,
            Told::NoConnection,
        ],
        next: 0,
        sent: Vec::new(alloc),
    };
    let mut player = Player::new(alloc, &script)?;
    play(&mut player, &mut port, &readers(alloc)?)?;
    assert_eq!(rt; port.next, 11);
    let mut sink = MemSink::new(alloc, 4096, 4096, Vec::new(alloc)).or(Err("memory"))?;
    for (k, answer) in player.into_answers().iter().enumerate() {
        print_answer(k.saturating_add(1), answer, &mut sink).or(Err("not printed"))?;
    }
    assert!(rt; sink.taken() == ANSWERS.as_bytes());
    let _ = moves(Player::new(alloc, &script)?);
    Ok(())
}
