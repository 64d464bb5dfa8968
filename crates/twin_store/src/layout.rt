// The sizes of the records.
use piv_model::limits::LONGEST_OBJECT;

// A length of two bytes and a value.
pub(crate) const SLOT: usize = LONGEST_OBJECT + 2;

// A selector byte and two slots. The records stand behind the header, in the order of the places.
pub(crate) const RECORD: usize = 1 + 2 * SLOT;
