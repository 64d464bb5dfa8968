// Threads can share a turnstile, and a pass can move between them, where what is held can.
use crate::held::Held;
use crate::pass::{Pass, Turnstile};

fn moves<X: Send>(x: X) -> X {
    x
}

fn is_shared<X: Sync>(x: &X) -> &X {
    x
}

pub fn pass_moves<T: Held + Send>(pass: Pass<T>) -> Pass<T> {
    moves(pass)
}

pub fn turnstile_moves<T: Held + Send>(turnstile: Turnstile<T>) -> Turnstile<T> {
    moves(turnstile)
}

pub fn turnstile_is_shared<T: Held + Send>(turnstile: &Turnstile<T>) -> &Turnstile<T> {
    is_shared(turnstile)
}
