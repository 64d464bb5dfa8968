// What a pass knows.
use std::collections::LinkedList;

/// What a pass knows. No value of it is made. X is what is held, B its base and E its record.
pub struct View<X, B, E> {
    pub is_first: bool,
    // None once it was joined away.
    pub base: Option<B>,
    pub seen: u64,
    // Each own record, with its place.
    pub own: LinkedList<(u64, E)>,
    pub out: u64,
    // The value, while this pass has taken it.
    pub taken: Option<X>,
}
