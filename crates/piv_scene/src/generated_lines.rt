// The lines of the generated scene.
ghost use Rattle.std.specs.Prelude.{◌≡◌, Some, is_some, true, IfOk};
ghost use Rattle.line_words.specs.Words.{name_word, oid_word, bytes_word};
ghost use Rattle.piv_scene.specs.GeneratedScene.{generated_line as generated_line_of, line_of_kind as line_of_kind_of, h as handle_name, reader_of_script as reader_of_script_of, chuid_oid, printed_oid, authenticator, wrong_pin, challenge};
ghost use Rattle.piv_model.specs.ApplicationNames.{full_aid};
ghost use Rattle.piv_model.specs.PlainCard.{plain_pin, plain_admin_key};
ghost use Rattle.script_line.specs.declared.line.Line.TheVariants.{Connect, Select, Login, Get, PutFill, Crypt, Admin};

use line_words::{Bytes, Text, read_bytes, read_name, read_oid};
use piv_model::NoMemory;
use script_line::Line;
use std::alloc::Global;

const CHUID: &str = "2.16.840.1.101.3.7.2.48.0";

const PRINTED_INFORMATION: &str = "2.16.840.1.101.3.7.2.48.1";

const RIGHT_LOGIN: &str = "670D8108313233343536FFFF830180";

const WRONG_LOGIN: &str = "670D8108393939393939FFFF830180";

const ADMIN_KEY: &str = "101112131415161718191A1B1C1D1E1F";

const CHALLENGE: &str = "7C148200811000112233445566778899AABBCCDDEEFF";

const APPLICATION: &str = "A000000308000010000100";

fn name(alloc: Global, word: &str) -> Result<Text, NoMemory>
    requires { name_word word.now ≡ Some word.now }
    ensures { IfOk result (λ t. t ≡ word.now) }
{
    match read_name(alloc, word) {
        Ok(text) => Ok(text),
        Err(_) => Err(NoMemory),
    }
}

fn oid(alloc: Global, word: &str) -> Result<Text, NoMemory>
    requires { oid_word word.now ≡ Some word.now }
    ensures { IfOk result (λ t. t ≡ word.now) }
{
    match read_oid(alloc, word) {
        Ok(text) => Ok(text),
        Err(_) => Err(NoMemory),
    }
}

fn bytes(alloc: Global, word: &str) -> Result<Bytes, NoMemory>
    requires { is_some (bytes_word word.now) ≡ true }
    ensures { IfOk result (λ b. bytes_word word.now ≡ Some b) }
{
    match read_bytes(alloc, word) {
        Ok(bytes) => Ok(bytes),
        Err(_) => Err(NoMemory),
    }
}

// The one handle of each script.
#[tactic(auto, unfolding(line_words::specs::Words::is_name))]
fn handle(alloc: Global) -> Result<Text, NoMemory>
    ensures { IfOk result (λ t. t ≡ handle_name) }
{
    name(alloc, "h")
}

/// The line that connects script `k`.
#[tactic(auto, unfolding(line_words::specs::Words::is_name))]
pub(crate) fn connect_line(alloc: Global, k: u32) -> Result<Line, NoMemory>
    ensures { IfOk result (λ line. line ≡ Connect handle_name (reader_of_script_of k) true) }
{
    let reader = if k == 3 { "gate" } else { "front" };
    Ok(Line::Connect {
        h: handle(alloc)?,
        reader: name(alloc, reader)?,
        shared: true,
    })
}

/// The line that selects the PIV application.
pub(crate) fn select_line(alloc: Global) -> Result<Line, NoMemory>
    ensures { IfOk result (λ line. line ≡ Select handle_name full_aid) }
{
    let h = handle(alloc)?;
    let aid = bytes(alloc, APPLICATION)?;
    Ok(Line::Select { h, aid })
}

#[tactic(auto, unfolding(line_words::specs::Words::is_oid))]
fn get_chuid(alloc: Global) -> Result<Line, NoMemory>
    ensures { IfOk result (λ line. line ≡ Get handle_name chuid_oid) }
{
    let h = handle(alloc)?;
    let oid = oid(alloc, CHUID)?;
    Ok(Line::Get { h, oid })
}

#[tactic(auto, unfolding(line_words::specs::Words::is_oid))]
fn get_printed(alloc: Global) -> Result<Line, NoMemory>
    ensures { IfOk result (λ line. line ≡ Get handle_name printed_oid) }
{
    let h = handle(alloc)?;
    let oid = oid(alloc, PRINTED_INFORMATION)?;
    Ok(Line::Get { h, oid })
}

#[tactic(auto, unfolding(line_words::specs::Words::is_oid))]
fn put_printed(alloc: Global, size: u64) -> Result<Line, NoMemory>
    ensures { IfOk result (λ line. line ≡ PutFill handle_name printed_oid size 0x5A) }
{
    let h = handle(alloc)?;
    let oid = oid(alloc, PRINTED_INFORMATION)?;
    Ok(Line::PutFill {
        h,
        oid,
        size,
        fill: 0x5A,
    })
}

fn right_login(alloc: Global) -> Result<Line, NoMemory>
    ensures { IfOk result (λ line. line ≡ Login handle_name (authenticator plain_pin)) }
{
    let h = handle(alloc)?;
    let auth = bytes(alloc, RIGHT_LOGIN)?;
    Ok(Line::Login { h, auth })
}

fn wrong_login(alloc: Global) -> Result<Line, NoMemory>
    ensures { IfOk result (λ line. line ≡ Login handle_name (authenticator wrong_pin)) }
{
    let h = handle(alloc)?;
    let auth = bytes(alloc, WRONG_LOGIN)?;
    Ok(Line::Login { h, auth })
}

fn admin_line(alloc: Global) -> Result<Line, NoMemory>
    ensures { IfOk result (λ line. line ≡ Admin handle_name 0x08 plain_admin_key) }
{
    let h = handle(alloc)?;
    let key = bytes(alloc, ADMIN_KEY)?;
    Ok(Line::Admin {
        h,
        algorithm: 0x08,
        key,
    })
}

fn crypt_line(alloc: Global) -> Result<Line, NoMemory>
    ensures { IfOk result (λ line. line ≡ Crypt handle_name 0x08 0x9E challenge) }
{
    let h = handle(alloc)?;
    let input = bytes(alloc, CHALLENGE)?;
    Ok(Line::Crypt {
        h,
        algorithm: 0x08,
        key: 0x9E,
        input,
    })
}

fn line_of_kind(alloc: Global, kind: u32, size: u64) -> Result<Line, NoMemory>
    ensures { IfOk result (λ line. line ≡ line_of_kind_of kind size) }
{
    match kind {
        0 => get_chuid(alloc),
        1 => get_printed(alloc),
        2 => right_login(alloc),
        3 => wrong_login(alloc),
        4 => Ok(Line::Logout { h: handle(alloc)? }),
        5 => admin_line(alloc),
        6 => put_printed(alloc, size),
        _ => crypt_line(alloc),
    }
}

/// The line that a word chooses.
pub(crate) fn generated_line(alloc: Global, word: u32) -> Result<Line, NoMemory>
    ensures { IfOk result (λ line. line ≡ generated_line_of word) }
{
    line_of_kind(alloc, word % 8, u64::from(word / 8 % 1000 + 1))
}
