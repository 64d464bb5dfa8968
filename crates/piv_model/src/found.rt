// What a store finds on a device.

/// What a store finds on a device: nothing was ever written, bytes that stand for no memory, or a card.
#[derive(Drop)]
pub enum Found<S, N> {
    Blank(N),
    BadImage(N),
    Card(S),
}
