// A scene that loses power in each of its writes.
use crate::card::{Card, Command, PUK};
use crate::lost::{Left, LostWrite};
use crate::runs::By;
use crate::story::Story;
use crate::words::spelled;
use piv_model::Took;
use std::alloc::Global;
use std::process::Abort;
use std::test::Fail;

const PIN: &str = "313233343536FFFF";

const WRONG: &str = "393939393939FFFF";

const SECOND: &str = "363534333231FFFF";

const THIRD: &str = "373737373737FFFF";

const COMMANDS: [Command; 9] = [
    Command::LogIn(WRONG),
    Command::LogIn(PIN),
    Command::Admin,
    Command::Put("3E01FE00"),
    Command::Change(PIN, SECOND),
    Command::LogIn(SECOND),
    Command::Unblock("3030303030303030", THIRD),
    Command::Unblock(PUK, THIRD),
    Command::LogIn(THIRD),
];

// The writes of a put of one block before the selector: the block and a slot of the directory, or a slot of the object.
fn put_writes(by: By) -> u64 {
    match by {
        By::Bench => 2,
        By::Player => 1,
    }
}

fn line_of(alloc: Global, command: Command) -> Result<String, Fail> {
    Ok(match command {
        Command::LogIn(pin) => format!(in alloc; "login h 670D8108{pin}830180")?,
        Command::Admin => String::from_str(alloc, spelled("admin"))?,
        Command::Put(value) => format!(in alloc; "put h 2.16.840.1.101.3.7.2.48.0 hex {value}")?,
        Command::Change(old, new) => format!(in alloc; "apdu h 0024008010{old}{new}")?,
        Command::Unblock(puk, new) => format!(in alloc; "apdu h 002C008010{puk}{new}")?,
    })
}

fn answer_of(alloc: Global, command: Command, word: u16) -> Result<String, Fail> {
    Ok(match command {
        Command::Change(_, _) | Command::Unblock(_, _) => format!(in alloc; "REPLY - {word:X}")?,
        Command::LogIn(_) if word != 0x9000 => {
            format!(in alloc; "PIV_AUTHENTICATION_FAILURE {word:X}")?
        }
        Command::LogIn(_) | Command::Admin | Command::Put(_) => String::from_str(alloc, "PIV_OK")?,
    })
}

fn word_of(took: Took) -> &'static str {
    match took {
        Took::Nothing => "DONE nothing",
        Took::Spent => "DONE spent",
        Took::Done => "DONE done",
    }
}

// A command, and behind it the power, a selection, and what stands.
fn add_command(
    alloc: Global,
    story: &mut Story,
    card: &mut Card<'_>,
    command: Command,
) -> Result<(), Fail> {
    let line = line_of(alloc, command)?;
    match card.make(command) {
        Ok(word) => {
            story.add(line.as_str(), answer_of(alloc, command, word)?.as_str())?;
            story.add("power A", "ON")?;
        }
        Err(took) => {
            story.add(line.as_str(), spelled("lost"))?;
            story.add("power A", word_of(took))?;
        }
    }
    let query = card.query();
    let chuid = card.chuid();
    story.add(spelled("select"), spelled("template"))?;
    story.add(
        spelled("query"),
        format!(in alloc; "REPLY - {query:X}")?.as_str(),
    )?;
    story.add(
        spelled("chuid"),
        format!(in alloc; "PIV_OK 5304{chuid}")?.as_str(),
    )
}

// Runs the commands where these writes are lost. Gives the number of writes.
fn expect_losses(
    rt: &impl Abort,
    alloc: Global,
    by: By,
    commands: &[Command],
    lost: &[LostWrite],
) -> Result<u64, Fail> {
    let mut story = Story::new(alloc, lost)?;
    let mut card = Card::new(put_writes(by), lost);
    story.add(spelled("front"), "PIV_OK")?;
    story.add(spelled("select"), spelled("template"))?;
    for command in commands {
        add_command(alloc, &mut story, &mut card, *command)?;
    }
    story.expect(rt, by)?;
    Ok(card.writes())
}

// A loss of one more write than there are never comes.
fn expect_each_loss(
    rt: &impl Abort,
    alloc: Global,
    by: By,
    commands: &[Command],
) -> Result<(), Fail> {
    let writes = expect_losses(rt, alloc, by, commands, &[])?;
    for number in 1..=writes.saturating_add(1) {
        for left in [
            Left::Before,
            Left::Torn(0),
            Left::Torn(1),
            Left::Torn(255),
            Left::After,
        ] {
            expect_losses(rt, alloc, by, commands, &[LostWrite { number, left }])?;
        }
    }
    Ok(())
}

#[test]
fn each_write_of_a_scene_is_lost_in_each_way(rt: HostRuntime) -> Result<(), Fail> {
    expect_each_loss(&rt, rt.alloc(), By::Bench, &COMMANDS)?;
    expect_each_loss(&rt, rt.alloc(), By::Player, &COMMANDS)
}

// The first of three losses, and how many writes come from one to the next.
fn three_losses(first: u64, gap: u64) -> [LostWrite; 3] {
    let second = first.saturating_add(gap);
    [
        LostWrite {
            number: first,
            left: Left::After,
        },
        LostWrite {
            number: second,
            left: Left::Torn(1),
        },
        LostWrite {
            number: second.saturating_add(gap),
            left: Left::Before,
        },
    ]
}

#[test]
fn three_writes_of_a_scene_are_lost(rt: HostRuntime) -> Result<(), Fail> {
    for by in [By::Bench, By::Player] {
        for gap in [1, 2, 5] {
            for first in 1..16 {
                expect_losses(&rt, rt.alloc(), by, &COMMANDS, &three_losses(first, gap))?;
            }
        }
    }
    Ok(())
}
