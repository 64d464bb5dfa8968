// Lines of hexadecimal digits.
ghost use Rattle.std.specs.Prelude.{◌≡◌, ◌<◌, ◌++◌, ◌∷◌, [], length, filter, position, IfOk, IfSome, IfNone, OnOk};
ghost use Rattle.std.specs.List.{slice_split};
ghost use Rattle.std.specs.Str.Lines.{strip_carriage_return};
ghost use Rattle.hex.specs.Hex.{decode_of, encode_upper};
ghost use Rattle.piv_cli.specs.Lines.{counts, decoded_line, is_newline};
ghost use Rattle.piv_cli.specs.Sessions.{line_of};

use hex::decode_to_slice;
use std::alloc::AllocError;

/// The first line, and what follows its line feed, if there is one.
pub fn first_line(rest: &[u8]) -> Option<(&[u8], &[u8])>
    ensures one { IfNone result (slice_split is_newline rest.now ≡ rest.now ∷ []) }
    ensures first { IfSome result (λ parts.
        slice_split is_newline rest.now ≡ parts.0.now ∷ slice_split is_newline parts.1.now) }
    ensures shorter { IfSome result (λ parts. length parts.1.now < length rest.now) }
{
    match line_end(rest) {
        Some(end) => Some((&rest[..end], &rest[end + 1..])),
        None => None,
    }
}

// Where the first line feed is.
fn line_end(rest: &[u8]) -> Option<usize>
    ensures value { result ≡ position is_newline rest.now }
    ensures within { IfSome result (λ end. end < length rest.now) }
{
    rest.iter().position(|b| *b == b'\n')
}

/// Copies the bytes of a line that are no blanks, over what `text` had.
pub fn copy_without_blanks(line: &[u8], text: &mut Vec<u8>) -> Result<(), AllocError>
    ensures { OnOk result (text.new.items ≡ filter counts line.now) }
{
    text.clear();
    for b in line {
        if !(*b == b' ' || *b == b'\t') {
            text.push(*b)?;
        }
    }
    Ok(())
}

/// The text without one carriage return at its end.
pub fn without_carriage_return(text: &[u8]) -> &[u8]
    ensures { result.now ≡ strip_carriage_return text.now }
{
    match text {
        [rest @ .., last] => { if *last == b'\r' { rest } else { text } }
        [] => text,
    }
}

/// Decodes hexadecimal digits over what `bytes` had; false where they aren't an even number of digits.
pub fn decode(text: &[u8], bytes: &mut Vec<u8>) -> Result<bool, AllocError>
    ensures { IfOk result (λ good. decoded_line (decode_of text.now) ≡ line_of good bytes.new.items) }
{
    bytes.clear();
    if text.len() % 2 != 0 {
        return Ok(false);
    }
    bytes.resize(text.len() / 2, 0)?;
    match decode_to_slice(text, bytes.as_mut_slice()) {
        Ok(()) => Ok(true),
        Err(_) => Ok(false),
    }
}

const DIGITS: [u8; 16] = *b"0123456789ABCDEF";

#[tactic(auto, unfolding(hex::specs::Hex::encode_with))]
fn push_byte(b: u8, out: &mut Vec<u8>) -> Result<(), AllocError>
    ensures { OnOk result (out.new.items ≡ out.old.items ++ encode_upper (b ∷ [])) }
{
    out.push(DIGITS[(b / 16) as usize])?;
    out.push(DIGITS[(b % 16) as usize])?;
    Ok(())
}

/// Adds these bytes in upper case, and a line feed.
pub fn add_line(bytes: &[u8], out: &mut Vec<u8>) -> Result<(), AllocError>
    ensures { OnOk result (out.new.items ≡ out.old.items ++ (encode_upper bytes.now ++ 10 ∷ [])) }
{
    for b in bytes {
        push_byte(*b, out)?;
    }
    out.push(b'\n')?;
    Ok(())
}
