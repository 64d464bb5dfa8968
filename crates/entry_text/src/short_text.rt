// Short texts, in a buffer of fixed size.
ghost use Rattle.std.specs.Prelude.{◌≡◌, ◌≤◌, ◌<◌, ◌+◌, ◌*◌, ◌++◌, ◌∷◌, [], length, IfSome};
ghost use Rattle.std.specs.Fmt.{decimal};
ghost use Rattle.arrayvec.specs.ArrayVec.{array_vec_len};
ghost use Rattle.hex.specs.Hex.{IsBytes, encode_upper};
ghost use Rattle.line_words.specs.Digits.{byte_text, status_text};
ghost use Rattle.entry_text.specs.EntryTexts.{IsBlock, block_text};
ghost use Rattle.entry_text.specs.LineParts.{dash};

use arrayvec::ArrayVec;

/// The most bytes of a short text.
pub(crate) const SHORT_TEXT: usize = 96;

/// A text that a line begins or ends with.
pub(crate) type ShortText = ArrayVec<u8, SHORT_TEXT>;

/// Adds a text.
pub(crate) fn put_text(out: &mut ShortText, text: &[u8])
    requires { array_vec_len out.old + length text.now ≤ 96 }
    ensures items { out.new.items ≡ out.old.items ++ text.now }
    ensures len { array_vec_len out.new ≡ array_vec_len out.old + length text.now }
{
    let _ = out.try_extend_from_slice(text);
}

// Adds a digit below ten.
fn put_digit(out: &mut ShortText, digit: u64)
    requires room { array_vec_len out.old + 1 ≤ 96 }
    requires digit { digit < 10 }
    ensures items { out.new.items ≡ out.old.items ++ (48 + digit) ∷ [] }
    ensures len { array_vec_len out.new ≡ array_vec_len out.old + 1 }
{
    out.push(b'0' + digit as u8);
}

/// Adds a number in decimal.
pub(crate) fn put_decimal(out: &mut ShortText, number: u64)
    requires { array_vec_len out.old + length (decimal number) ≤ 96 }
    ensures items { out.new.items ≡ out.old.items ++ decimal number }
    ensures len { array_vec_len out.new ≡ array_vec_len out.old + length (decimal number) }
{
    if number < 10 {
        put_digit(out, number);
        return;
    }
    put_decimal(out, number / 10);
    put_digit(out, number % 10);
}

const DIGITS: [u8; 16] = *b"0123456789ABCDEF";

/// Adds a byte as two digits.
#[tactic(auto, unfolding(hex::specs::Hex::encode_with))]
pub(crate) fn put_byte(out: &mut ShortText, byte: u8)
    requires { array_vec_len out.old + 2 ≤ 96 }
    ensures items { out.new.items ≡ out.old.items ++ byte_text byte }
    ensures len { array_vec_len out.new ≡ array_vec_len out.old + 2 }
{
    out.push(DIGITS[(byte / 16) as usize]);
    out.push(DIGITS[(byte % 16) as usize]);
}

/// A text that begins with this word.
pub(crate) fn first_word(word: &str) -> ShortText
    requires { length word.now ≤ 12 }
    ensures text { result.items ≡ word.now }
    ensures room { array_vec_len result ≤ 12 }
{
    let mut out = ShortText::new();
    put_text(&mut out, word.as_bytes());
    out
}

/// Adds a space and a word.
pub(crate) fn put_word(out: &mut ShortText, word: &str)
    requires room { array_vec_len out.old ≤ 83 }
    requires short { length word.now ≤ 12 }
    ensures text { out.new.items ≡ out.old.items ++ 32 ∷ word.now }
    ensures room { array_vec_len out.new ≤ array_vec_len out.old + 13 }
{
    out.push(b' ');
    put_text(out, word.as_bytes());
}

/// Adds a space and a number.
#[tactic(auto, using(crate::proofs::DecimalSteps::ten_digits))]
pub(crate) fn put_number(out: &mut ShortText, number: u32)
    requires { array_vec_len out.old ≤ 83 }
    ensures text { out.new.items ≡ out.old.items ++ 32 ∷ decimal number }
    ensures room { array_vec_len out.new ≤ array_vec_len out.old + 11 }
{
    out.push(b' ');
    put_decimal(out, u64::from(number));
}

/// Adds a space and two digits.
pub(crate) fn put_spaced_byte(out: &mut ShortText, byte: u8)
    requires { array_vec_len out.old ≤ 83 }
    ensures text { out.new.items ≡ out.old.items ++ 32 ∷ byte_text byte }
    ensures room { array_vec_len out.new ≤ array_vec_len out.old + 3 }
{
    out.push(b' ');
    put_byte(out, byte);
}

/// Adds a space and a status word.
#[tactic(auto, unfolding(hex::specs::Hex::encode_with))]
pub(crate) fn put_status(out: &mut ShortText, sw: u16)
    requires { array_vec_len out.old ≤ 83 }
    ensures text { out.new.items ≡ out.old.items ++ 32 ∷ status_text sw }
    ensures room { array_vec_len out.new ≤ array_vec_len out.old + 5 }
{
    out.push(b' ');
    put_byte(out, (sw / 256) as u8);
    put_byte(out, (sw % 256) as u8);
}

/// Adds bytes, two digits each.
pub(crate) fn put_bytes(out: &mut ShortText, bytes: &[u8])
    requires { array_vec_len out.old + 2 * length bytes.now ≤ 96 }
    ensures items { out.new.items ≡ out.old.items ++ encode_upper bytes.now }
    ensures len { array_vec_len out.new ≡ array_vec_len out.old + 2 * length bytes.now }
    ensures bytes { IsBytes bytes.now }
{
    for byte in bytes {
        put_byte(out, *byte);
    }
}

/// Adds a space and a block, or a dash where there is none.
pub(crate) fn put_block(out: &mut ShortText, block: Option<[u8; 16]>)
    requires { array_vec_len out.old ≤ 60 }
    ensures text { out.new.items ≡ out.old.items ++ 32 ∷ block_text block }
    ensures room { array_vec_len out.new ≤ array_vec_len out.old + 33 }
    ensures fits { IfSome block IsBlock }
{
    out.push(b' ');
    match block {
        Some(block) => put_bytes(out, &block),
        None => out.push(b'-'),
    }
}

/// Adds a space, and a dash where there are no bytes.
pub(crate) fn put_dash(out: &mut ShortText, bytes: &[u8])
    requires { array_vec_len out.old ≤ 83 }
    ensures text { out.new.items ≡ out.old.items ++ 32 ∷ dash bytes.now }
    ensures room { array_vec_len out.new ≤ array_vec_len out.old + 2 }
    ensures bytes { IsBytes bytes.now }
{
    out.push(b' ');
    if bytes.is_empty() {
        out.push(b'-');
    }
}

/// Adds a space and a text.
pub(crate) fn put_spaced(out: &mut ShortText, text: &str)
    requires { array_vec_len out.old + 1 + length text.now ≤ 96 }
    ensures text { out.new.items ≡ out.old.items ++ 32 ∷ text.now }
    ensures len { array_vec_len out.new ≡ array_vec_len out.old + 1 + length text.now }
{
    out.push(b' ');
    put_text(out, text.as_bytes());
}
