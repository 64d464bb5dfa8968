// Reading a line from its words.
ghost use Rattle.std.specs.Prelude.{IfOk, Some};
ghost use Rattle.line_words.specs.Words.{Gives, texts, words as words_in};
ghost use Rattle.script_line.specs.declared.line.Line.{Line as ScriptLine};
ghost use Rattle.script_line.specs.Lines.{IsLine};
ghost use Rattle.script_line.specs.LineReading.{lone_name as lone_name_of, named_bytes as named_bytes_of, connect_of, get_of, put_of, put_hex_of, put_fill_of, crypt_of, admin_of, key_word, alone as alone_of, line_of_kind, line_of_words as line_of_words_of};

use crate::line::Line;
use line_words::{
    Bytes, LineFault, Text, read_byte, read_bytes, read_mode, read_name, read_number, read_oid,
    words_of,
};
use std::alloc::Global;

// The one word, a name.
fn lone_name(alloc: Global, rest: &[&str]) -> Result<Text, LineFault>
    ensures { Gives result (lone_name_of (texts rest.now)) }
{
    match rest {
        [name] => read_name(alloc, name),
        _ => Err(LineFault::Malformed),
    }
}

// Two words, a name and bytes.
fn named_bytes(alloc: Global, rest: &[&str]) -> Result<(Text, Bytes), LineFault>
    ensures { Gives result (named_bytes_of (texts rest.now)) }
{
    match rest {
        [name, bytes] => Ok((read_name(alloc, name)?, read_bytes(alloc, bytes)?)),
        _ => Err(LineFault::Malformed),
    }
}

fn read_connect(alloc: Global, rest: &[&str]) -> Result<Line, LineFault>
    ensures { Gives result (connect_of (texts rest.now)) }
{
    match rest {
        [h, reader, mode] => Ok(Line::Connect {
            h: read_name(alloc, h)?,
            reader: read_name(alloc, reader)?,
            shared: read_mode(mode)?,
        }),
        _ => Err(LineFault::Malformed),
    }
}

fn read_get(alloc: Global, rest: &[&str]) -> Result<Line, LineFault>
    ensures { Gives result (get_of (texts rest.now)) }
{
    match rest {
        [h, oid] => Ok(Line::Get {
            h: read_name(alloc, h)?,
            oid: read_oid(alloc, oid)?,
        }),
        _ => Err(LineFault::Malformed),
    }
}

fn read_put(alloc: Global, rest: &[&str]) -> Result<Line, LineFault>
    ensures { Gives result (put_of (texts rest.now)) }
{
    match rest {
        [h, oid, form, value] => read_put_hex(alloc, h, oid, form, value),
        [h, oid, form, size, fill] => read_put_fill(alloc, h, oid, form, size, fill),
        _ => Err(LineFault::Malformed),
    }
}

fn read_put_hex(
    alloc: Global,
    h: &str,
    oid: &str,
    form: &str,
    value: &str,
) -> Result<Line, LineFault>
    ensures { Gives result (put_hex_of h.now oid.now form.now value.now) }
{
    match form {
        "hex" => Ok(Line::PutHex {
            h: read_name(alloc, h)?,
            oid: read_oid(alloc, oid)?,
            value: read_bytes(alloc, value)?,
        }),
        _ => Err(LineFault::Malformed),
    }
}

fn read_put_fill(
    alloc: Global,
    h: &str,
    oid: &str,
    form: &str,
    size: &str,
    fill: &str,
) -> Result<Line, LineFault>
    ensures { Gives result (put_fill_of h.now oid.now form.now size.now fill.now) }
{
    match form {
        "fill" => Ok(Line::PutFill {
            h: read_name(alloc, h)?,
            oid: read_oid(alloc, oid)?,
            size: read_number(size)?,
            fill: read_byte(fill)?,
        }),
        _ => Err(LineFault::Malformed),
    }
}

fn read_crypt(alloc: Global, rest: &[&str]) -> Result<Line, LineFault>
    ensures { Gives result (crypt_of (texts rest.now)) }
{
    match rest {
        [h, algorithm, key, input] => Ok(Line::Crypt {
            h: read_name(alloc, h)?,
            algorithm: read_byte(algorithm)?,
            key: read_byte(key)?,
            input: read_bytes(alloc, input)?,
        }),
        _ => Err(LineFault::Malformed),
    }
}

fn read_admin(alloc: Global, rest: &[&str]) -> Result<Line, LineFault>
    ensures { Gives result (admin_of (texts rest.now)) }
{
    match rest {
        [h, algorithm, key] => Ok(Line::Admin {
            h: read_name(alloc, h)?,
            algorithm: read_byte(algorithm)?,
            key: read_key(alloc, key)?,
        }),
        _ => Err(LineFault::Malformed),
    }
}

fn read_key(alloc: Global, word: &str) -> Result<Bytes, LineFault>
    ensures { Gives result (key_word word.now) }
{
    let key = read_bytes(alloc, word)?;
    match key.as_slice().len() {
        16 | 24 | 32 => Ok(key),
        _ => Err(LineFault::Malformed),
    }
}

// A line that is one word.
fn alone(line: Line, rest: &[&str]) -> Result<Line, LineFault>
    ensures { Gives result (alone_of line (texts rest.now)) }
{
    match rest {
        [] => Ok(line),
        _ => Err(LineFault::Malformed),
    }
}

// The line of a first word and the rest.
fn line_of(alloc: Global, kind: &str, rest: &[&str]) -> Result<Line, LineFault>
    ensures { Gives result (line_of_kind kind.now (texts rest.now)) }
{
    match kind {
        "connect" => read_connect(alloc, rest),
        "disconnect" => Ok(Line::Disconnect {
            h: lone_name(alloc, rest)?,
        }),
        "select" => {
            let (h, aid) = named_bytes(alloc, rest)?;
            Ok(Line::Select { h, aid })
        }
        "login" => {
            let (h, auth) = named_bytes(alloc, rest)?;
            Ok(Line::Login { h, auth })
        }
        "logout" => Ok(Line::Logout {
            h: lone_name(alloc, rest)?,
        }),
        "get" => read_get(alloc, rest),
        "put" => read_put(alloc, rest),
        "crypt" => read_crypt(alloc, rest),
        "admin" => read_admin(alloc, rest),
        "apdu" => {
            let (h, bytes) = named_bytes(alloc, rest)?;
            Ok(Line::Apdu { h, bytes })
        }
        "version" => alone(Line::Version, rest),
        "generate" => alone(Line::Generate, rest),
        "secure" => alone(Line::Secure, rest),
        "reset" => Ok(Line::Reset {
            reader: lone_name(alloc, rest)?,
        }),
        "cut" => Ok(Line::Cut {
            card: lone_name(alloc, rest)?,
        }),
        "power" => Ok(Line::Power {
            card: lone_name(alloc, rest)?,
        }),
        _ => Err(LineFault::Malformed),
    }
}

fn line_of_words(alloc: Global, words: &[&str]) -> Result<Line, LineFault>
    ensures { Gives result (line_of_words_of (texts words.now)) }
{
    match words {
        [kind, rest @ ..] => line_of(alloc, kind, rest),
        [] => Err(LineFault::Malformed),
    }
}

// Reads a line, by the definition that goes over its words.
fn read_words(alloc: Global, text: &str) -> Result<Line, LineFault>
    ensures { Gives result (line_of_words_of (words_in text.now)) }
{
    let words = words_of(alloc, text)?;
    line_of_words(alloc, &words)
}

/// Reads a line. It is malformed exactly where the text is no line.
pub fn read_line(alloc: Global, text: &str) -> Result<Line, LineFault>
    // What is read is a line that the text is.
    ensures found { IfOk result (IsLine text.now) }
    // What is a line is read, and as no other line, unless memory is wanting.
    ensures only { (line : ScriptLine) → IsLine text.now line → Gives result (Some line) }
    // The same, by the definition that reads the words.
    ensures exact { Gives result (line_of_words_of (words_in text.now)) }
{
    read_words(alloc, text)
}
