// The table behind a turnstile: a word, and a slot which has the value while no turn is made.
use crate::held::Held;
use crate::view::View;
use atomic_table::{Seat, Table, TableRule};
use std::alloc::Global;
use std::marker::PhantomData;

// The word while no turn is made, while one is made, and while one is made and a thread may sleep.
pub(crate) const FREE: u64 = 0;

pub(crate) const TAKEN: u64 = 1;

pub(crate) const AWAITED: u64 = 2;

pub struct OneAtATime<T> {
    held: PhantomData<T>,
}

impl<T: Held> TableRule<Option<T>, View<T, T::Base, T::Record>, T::Base> for OneAtATime<T> {
    ghost use Rattle.turnstile.specs.Rule.{Keeps, opener};

    ghost holds = { λ base s. Keeps T.stands_for base s };

    ghost first = { λ base. opener base };
}

pub type Board<T> = Table<
    Option<T>,
    View<T, <T as Held>::Base, <T as Held>::Record>,
    <T as Held>::Base,
    OneAtATime<T>,
    Global,
>;

pub type Place<T> = Seat<Option<T>, View<T, <T as Held>::Base, <T as Held>::Record>>;
