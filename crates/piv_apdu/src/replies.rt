// Reply APDUs: the data and the status word.
ghost use Rattle.std.specs.Prelude.{◌≡◌, ◌<◌, ◌≤◌, ◌↔◌, [], length, Some, None, IsNone, IfSome, MatchOption};
ghost use Rattle.piv_model.specs.Framing.{reply_bytes};
ghost use Rattle.piv_model.specs.ApduForms.{reply_spelled};

use arrayvec::ArrayVec;

/// Reads a reply APDU: its data, which are lent from `bytes`, and its status word. There is none in
/// fewer than 2 bytes.
pub fn read_reply(bytes: &[u8]) -> Option<(&[u8], u16)>
    ensures read { MatchOption result
        (reply_spelled bytes.now ≡ None)
        (λ reply. reply_spelled bytes.now ≡ Some (reply.0.now, reply.1)) }
    ensures none { IsNone result ↔ (length bytes.now < 2) }
    ensures written { IfSome result (λ reply. bytes.now ≡ reply_bytes reply.0.now reply.1) }
{
    if bytes.len() < 2 {
        return None;
    }
    let end = bytes.len() - 2;
    let sw = bytes[end] as u16 * 256 + bytes[end + 1] as u16;
    Some((&bytes[..end], sw))
}

/// Writes a reply APDU into `out`, which is empty: the data, at most 256 bytes, and the status word.
/// `read_reply` reads it back.
pub fn write_reply(body: &[u8], sw: u16, out: &mut ArrayVec<u8, 258>)
    requires small { length body.now ≤ 256 }
    requires empty { out.old.items ≡ [] }
    ensures written { out.new.items ≡ reply_bytes body.now sw }
    ensures read { reply_spelled out.new.items ≡ Some (body.now, sw) }
{
    let _ = out.try_extend_from_slice(body);
    out.push((sw / 256) as u8);
    out.push((sw % 256) as u8);
}
