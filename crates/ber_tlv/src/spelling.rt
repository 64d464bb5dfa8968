// The beginning of an element.
ghost use Rattle.std.specs.Prelude.{◌≡◌, ◌≤◌, [], ◌++◌, ℕ, List, length};
ghost use Rattle.ber_tlv.specs.Elements.{element, IsElement, IsTagNumber, header_of, tag_bytes, length_bytes};

use arrayvec::ArrayVec;

fn push_tag(out: &mut ArrayVec<u8, 6>, tag: u32)
    requires empty { out.old.items ≡ [] }
    requires tag { IsTagNumber tag }
    ensures { out.new.items ≡ tag_bytes tag }
{
    let [_, high, middle, low] = tag.to_be_bytes();
    if tag >= 0x1_0000 {
        out.push(high);
    }
    if tag >= 0x100 {
        out.push(middle);
    }
    out.push(low);
}

fn push_length(out: &mut ArrayVec<u8, 6>, count: usize)
    requires count { count ≤ 65535 }
    requires room { length out.old.items ≤ 3 }
    ensures { out.new.items ≡ out.old.items ++ length_bytes count }
{
    if count >= 0x100 {
        out.push(0x82);
        out.push((count / 0x100) as u8);
        out.push((count % 0x100) as u8);
    } else if count >= 0x80 {
        out.push(0x81);
        out.push(count as u8);
    } else {
        out.push(count as u8);
    }
}

/// The beginning of an element: its tag, and the length of its value in the shortest form
/// (ISO/IEC 7816-4, BER-TLV data objects).
#[tactic(auto, unfolding(crate::specs::Elements::header_of))]
pub fn header(tag: u32, len: usize) -> ArrayVec<u8, 6>
    requires tag { IsTagNumber tag }
    requires len { len ≤ 65535 }
    ensures header { result.items ≡ header_of tag len }
    // What it begins is read back as that element.
    ensures read_back { (value : List ℕ) → length value ≡ len →
        IsElement (result.items ++ value) (element tag value) }
{
    let mut out = ArrayVec::new();
    push_tag(&mut out, tag);
    push_length(&mut out, len);
    out
}
