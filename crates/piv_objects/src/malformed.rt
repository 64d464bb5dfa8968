// The one fault of a field.
/// The bytes are not of the form.
#[derive(Clone, Copy, Debug, PartialEq, Eq)]
pub struct Malformed;
