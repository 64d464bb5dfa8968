// The sizes of lines.
ghost use Rattle.std.specs.Prelude.{◌≡◌, nat_lt};
ghost use Rattle.piv_scene.specs.SceneLimits.{put_size as put_size_of, crypt_size as crypt_size_of, apdu_size as apdu_size_of, login_size as login_size_of, aid_size as aid_size_of, size_of as size_of_kind, any_above, all_lines, puts, LeftBehind};

use script_line::{Line, Script};

/// Which bytes of a line are counted.
#[derive(Clone, Copy)]
pub(crate) enum Size {
    Put,
    Crypt,
    Apdu,
    Login,
    Aid,
}

// What a line puts.
fn put_size(line: &Line) -> u64
    ensures { result ≡ put_size_of line.now }
{
    match line {
        Line::PutHex {
            h: _,
            oid: _,
            value,
        } => value.as_slice().len() as u64,
        Line::PutFill {
            h: _,
            oid: _,
            size,
            fill: _,
        } => *size,
        _ => 0,
    }
}

fn crypt_size(line: &Line) -> u64
    ensures { result ≡ crypt_size_of line.now }
{
    match line {
        Line::Crypt {
            h: _,
            algorithm: _,
            key: _,
            input,
        } => input.as_slice().len() as u64,
        _ => 0,
    }
}

fn apdu_size(line: &Line) -> u64
    ensures { result ≡ apdu_size_of line.now }
{
    match line {
        Line::Apdu { h: _, bytes } => bytes.as_slice().len() as u64,
        _ => 0,
    }
}

fn login_size(line: &Line) -> u64
    ensures { result ≡ login_size_of line.now }
{
    match line {
        Line::Login { h: _, auth } => auth.as_slice().len() as u64,
        _ => 0,
    }
}

fn aid_size(line: &Line) -> u64
    ensures { result ≡ aid_size_of line.now }
{
    match line {
        Line::Select { h: _, aid } => aid.as_slice().len() as u64,
        _ => 0,
    }
}

fn size_of(kind: Size, line: &Line) -> u64
    ensures { result ≡ size_of_kind kind line.now }
{
    match kind {
        Size::Put => put_size(line),
        Size::Crypt => crypt_size(line),
        Size::Apdu => apdu_size(line),
        Size::Login => login_size(line),
        Size::Aid => aid_size(line),
    }
}

// Whether a line of a script has more than so many bytes of a kind.
fn script_above(script: &Script, kind: Size, most: u64) -> bool
    ensures { result ≡ any_above most kind script.now.lines }
{
    for k in 0..script.len() {
        if size_of(kind, script.line(k)) > most {
            return true;
        }
    }
    false
}

/// Whether a line of the scripts has more than so many bytes of a kind.
pub(crate) fn lines_above(scripts: &[Script], kind: Size, most: u64) -> bool
    ensures { result ≡ any_above most kind (all_lines scripts.now) }
{
    for script in scripts {
        if script_above(script, kind, most) {
            return true;
        }
    }
    false
}

// What is left of so many bytes behind what a script puts, or None where they don't suffice.
fn behind_puts(script: &Script, most: u64) -> Option<u64>
    ensures { LeftBehind result most (puts script.now.lines) }
{
    let mut left = most;
    for k in 0..script.len() {
        let size = put_size(script.line(k));
        if size > left {
            return None;
        }
        left -= size;
    }
    Some(left)
}

/// Whether the scripts put more than so many bytes together.
pub(crate) fn puts_above(scripts: &[Script], most: u64) -> bool
    ensures { result ≡ nat_lt most (puts (all_lines scripts.now)) }
{
    let mut left = most;
    for script in scripts {
        match behind_puts(script, left) {
            Some(rest) => left = rest,
            None => return true,
        }
    }
    false
}
