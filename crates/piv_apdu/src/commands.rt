// Command APDUs: a header, Lc with the data, and Le.
ghost use Rattle.std.specs.Prelude.{◌≡◌, ◌⊎◌, ◌≤◌, [], length, take, drop, None, Some, IfOk, MatchResult};
ghost use Rattle.piv_model.specs.Commands.{apdu_of, command_of};
ghost use Rattle.piv_model.specs.ApduForms.{apdu_of_header, apdu_spelled, command_bytes, most_of, most_with, refusal_of_class};

use arrayvec::ArrayVec;
use piv_model::status_words::{
    CLASS_NOT_SUPPORTED, LOGICAL_CHANNEL_NOT_SUPPORTED, SECURE_MESSAGING_NOT_SUPPORTED,
    WRONG_LENGTH,
};
use piv_model::{Apdu, Command};

/// What a reply may have where Le is 00 or absent.
pub const MOST_DATA: usize = 256;

// The status word that refuses a class, if one does.
fn refusal_of_class(class: u8) -> Option<u16>
    ensures { result ≡ refusal_of_class class }
{
    match class {
        0x00 | 0x10 => None,
        0x0C | 0x1C => Some(SECURE_MESSAGING_NOT_SUPPORTED),
        0x01..=0x03 | 0x11..=0x13 => Some(LOGICAL_CHANNEL_NOT_SUPPORTED),
        _ => Some(CLASS_NOT_SUPPORTED),
    }
}

fn most_of(le: u8) -> usize
    ensures { result ≡ most_of le }
{
    if le == 0 { MOST_DATA } else { le as usize }
}

/// An APDU with the header in `bytes`.
pub fn with_header<'a>(bytes: &'a [u8], body: &'a [u8], most: usize) -> Apdu<'a>
    requires { 4 ≤ length bytes.now }
    ensures { apdu_of result ≡ apdu_of_header bytes.now body.now most }
{
    Apdu {
        class: bytes[0],
        ins: bytes[1],
        p1: bytes[2],
        p2: bytes[3],
        body,
        most,
    }
}

/// Reads a command APDU, whose data are lent from `bytes`: at most 255 bytes, and Le of 1 to 256.
/// The error is the status word that refuses it: 67 00 for a wrong length, 68 82 for secure
/// messaging, 68 81 for another logical channel, 6E 00 for another class than 00 and 10.
#[tactic(auto, unfolding(piv_model::specs::ApduForms::apdu_spelled))]
pub fn read_command(bytes: &[u8]) -> Result<Apdu<'_>, u16>
    ensures read { MatchResult result
        (λ apdu. apdu_spelled bytes.now ≡ Ok (apdu_of apdu))
        (λ word. apdu_spelled bytes.now ≡ Err word) }
    ensures small { IfOk result (λ apdu. length apdu.body.now ≤ 255) }

    // The data are a slice of the input, behind the header and Lc.
    ensures lent { IfOk result (λ apdu. apdu.body.now ≡ take (length apdu.body.now) (drop 5 bytes.now)) }
    ensures most { IfOk result (λ apdu. (1 ≤ apdu.most) × (apdu.most ≤ 256)) }
{
    if bytes.len() < 4 {
        return Err(WRONG_LENGTH);
    }
    if let Some(word) = refusal_of_class(bytes[0]) {
        return Err(word);
    }
    match &bytes[4..] {
        [] => Ok(with_header(bytes, &[], MOST_DATA)),
        [le] => Ok(with_header(bytes, &[], most_of(*le))),
        [lc, rest @ ..] => {
            let n = *lc as usize;
            if n == 0 {
                Err(WRONG_LENGTH)
            } else if rest.len() == n {
                Ok(with_header(bytes, rest, MOST_DATA))
            } else if rest.len() == n + 1 {
                Ok(with_header(bytes, &rest[..n], most_of(rest[n])))
            } else {
                Err(WRONG_LENGTH)
            }
        }
    }
}

/// Writes a command APDU into `out`, which is empty: class 00 or 10, at most 255 bytes of data, and
/// Le where there is one. `read_command` reads it back.
pub fn write_command(class: u8, command: Command<'_>, le: Option<u8>, out: &mut ArrayVec<u8, 261>)
    requires class { (class ≡ 0x00) ⊎ (class ≡ 0x10) }
    requires small { length command.body.now ≤ 255 }
    requires empty { out.old.items ≡ [] }
    ensures written { out.new.items ≡ command_bytes class (command_of command.entry) le }
    ensures read { apdu_spelled out.new.items ≡ Ok (record {
      class = class;
      command = command_of command.entry;
      most = most_with le;
    }) }
{
    out.push(class);
    out.push(command.ins);
    out.push(command.p1);
    out.push(command.p2);
    if !command.body.is_empty() {
        out.push(command.body.len() as u8);
        let _ = out.try_extend_from_slice(command.body);
    }
    if let Some(le) = le {
        out.push(le);
    }
}
