// Commands and APDUs, which borrow their data from the input.

/// A command with its joined data.
#[derive(Clone, Copy, Debug)]
pub struct Command<'a> {
    pub ins: u8,
    pub p1: u8,
    pub p2: u8,
    pub body: &'a [u8],
}

/// A command APDU of the short form (ISO/IEC 7816-4). `most` is the number of bytes, 1 to 256, that
/// its reply may have.
#[derive(Clone, Copy, Debug)]
pub struct Apdu<'a> {
    pub class: u8,
    pub ins: u8,
    pub p1: u8,
    pub p2: u8,
    pub body: &'a [u8],
    pub most: usize,
}

/// The fields of a dynamic authentication template: Witness (80), Challenge (81), Response (82)
/// (SP 800-73-4 part 2, GENERAL AUTHENTICATE).
#[derive(Clone, Copy, Debug)]
pub struct AuthFields<'a> {
    pub f80: Option<&'a [u8]>,
    pub f81: Option<&'a [u8]>,
    pub f82: Option<&'a [u8]>,
}
