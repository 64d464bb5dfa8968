// A PIN and a PUK.
ghost use Rattle.std.specs.Prelude.{◌≡◌, Some, None, if◌then◌else◌};
ghost use Rattle.std.specs.List.{list_all};
ghost use Rattle.piv_model.specs.Forms.{is_digit, is_digit_or_fill, is_pin, is_puk};

fn are_digits(bytes: &[u8]) -> bool
    ensures { result ≡ list_all is_digit bytes.now }
{
    bytes.iter().all(|b| b.is_ascii_digit())
}

fn are_digits_or_fill(bytes: &[u8]) -> bool
    ensures { result ≡ list_all is_digit_or_fill bytes.now }
{
    bytes.iter().all(|b| b.is_ascii_digit() || *b == 0xFF)
}

#[tactic(auto, unfolding(piv_model::specs::Forms::is_pin))]
fn is_pin(bytes: &[u8; 8]) -> bool
    ensures { result ≡ is_pin bytes.now }
{
    // Fill stands only behind the digits.
    are_digits(&bytes[..6])
        && are_digits_or_fill(&bytes[6..])
        && (bytes[6].is_ascii_digit() || bytes[7] == 0xFF)
}

/// A PIN: 6 to 8 bytes 30 to 39, filled up to 8 bytes with FF (SP 800-73-4 part 2, VERIFY). None exactly where the
/// bytes are no PIN.
#[tactic(auto, unfolding(piv_model::specs::Forms::is_pin))]
pub fn read_pin(bytes: &[u8]) -> Option<[u8; 8]>
    ensures { result ≡ (if is_pin bytes.now then Some bytes.now else None) }
{
    let pin = bytes.try_into().ok()?;
    if is_pin(&pin) { Some(pin) } else { None }
}

/// A PUK: any 8 bytes (SP 800-73-4 part 2, RESET RETRY COUNTER). None exactly where the bytes are no PUK.
pub fn read_puk(bytes: &[u8]) -> Option<[u8; 8]>
    ensures { result ≡ (if is_puk bytes.now then Some bytes.now else None) }
{
    bytes.try_into().ok()
}
