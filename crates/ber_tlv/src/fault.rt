// Why no element begins at a place.
/// What is wrong first, in the order tag, length, value.
#[derive(Clone, Copy, Debug, PartialEq, Eq)]
pub enum TlvKind {
    /// The third byte of the tag says that a fourth follows.
    TagLong,
    /// The length is of a form that isn't admitted, or above 65,535.
    LengthBad,
    /// Bytes are missing.
    Short,
}

/// Where the element would begin, counted from the first byte of the input, and what is wrong.
#[derive(Clone, Copy, Debug, PartialEq, Eq)]
pub struct TlvFault {
    pub at: usize,
    pub kind: TlvKind,
}
