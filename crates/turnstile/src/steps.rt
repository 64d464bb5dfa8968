// What each step on the table tells. These types are for the proofs alone.
ghost use Rattle.turnstile.specs.Steps.{Takes, GivesBack, Looks, split_from, newcomer, both, joined_away};

use crate::held::Held;
use crate::view::View;
use atomic_table::{Join, Play, Split};
use std::marker::{Brand, PhantomData};

pub(crate) struct Take;

impl<T: Held> Play<Option<T>, View<T, T::Base, T::Record>> for Take {
    ghost then = { λ s m found w. Takes T.stands_for m found w };
}

// The record of a turn. A call at `Brand` picks it.
pub(crate) trait Made<E> {
    ghost use Rattle.std.specs.Prelude.{Option};

    ghost made: { Option E };
}

impl<E> Made<E> for Brand {
    ghost use Rattle.std.specs.Prelude.{None};

    ghost made = { None };
}

pub(crate) struct GiveBack<W> {
    made: PhantomData<W>,
}

impl<T: Held, W: Made<T::Record>> Play<Option<T>, View<T, T::Base, T::Record>> for GiveBack<W> {
    ghost then = { λ s m found w. GivesBack T.record_count W.made m w };
}

pub(crate) struct Look;

impl<T: Held> Play<Option<T>, View<T, T::Base, T::Record>> for Look {
    ghost then = { λ s m found w. Looks m w };
}

pub(crate) struct Cut;

impl<X, B, E> Split<View<X, B, E>> for Cut {
    ghost left = { split_from };

    ghost right = { newcomer };
}

pub(crate) struct Both;

impl<X, B, E> Join<View<X, B, E>> for Both {
    ghost both = { both };

    ghost spent = { joined_away };
}
