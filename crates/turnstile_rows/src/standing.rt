// Values are put behind turnstiles.
ghost use Rattle.std.specs.Prelude.{◌≡◌, ◌≤◌, ◌+◌, [], length, map, vec_capacity, IfOk, IfErr};
ghost use Rattle.turnstile.specs.Known.{first_pass};
ghost use Rattle.turnstile_rows.specs.Rows.{StandAtStart, StandBehind, bases_of};

use std::alloc::Global;
use turnstile::{Held, Pass, Turnstile, TurnstileFault};

/// Turnstiles with the first pass of each, in the order of their values, and the room of these values.
pub struct Stood<T: Held> {
    pub turnstiles: Vec<Turnstile<T>>,
    pub firsts: Vec<Pass<T>>,
    pub room: Vec<T>,
}

/// Puts each value behind a turnstile with its base. Where memory is wanting the values come back.
pub fn stand<T: Held>(
    alloc: Global,
    mut values: Vec<T>,
    bases: &[T::Base],
) -> Result<Stood<T>, Vec<T>>
    requires start { StandAtStart T.stands_for values.items bases.now }
    ensures bases { IfOk result (λ stood. bases_of stood.turnstiles.items ≡ bases.entry.now) }
    ensures firsts { IfOk result (λ stood. stood.firsts.items ≡ map first_pass stood.turnstiles.items) }
    ensures room { IfOk result (λ stood. (stood.room.items ≡ []) × (length bases.entry.now ≤ vec_capacity stood.room)) }
    ensures err { IfErr result (λ back. StandAtStart T.stands_for back.items bases.entry.now) }
{
    let Ok(mut turnstiles) = Vec::with_capacity(alloc, values.len()) else {
        return Err(values);
    };
    let Ok(mut firsts) = Vec::with_capacity(alloc, values.len()) else {
        turnstiles.destroy_empty();
        return Err(values);
    };
    while let Some(value) = values.pop() {
        let base = bases.get(values.len()).unwrap();
        match Turnstile::new(alloc, value, base) {
            Ok((turnstile, first)) => {
                turnstiles.push_reserved(turnstile);
                firsts.push_reserved(first);
            }
            Err(TurnstileFault::NoMemory(value)) => {
                values.push_reserved(value);
                return Err(unwind(turnstiles, firsts, values, bases));
            }
        }
    }
    turnstiles.reverse();
    firsts.reverse();
    Ok(Stood {
        turnstiles,
        firsts,
        room: values,
    })
}

// Takes the values back that stand behind turnstiles; the last turnstile has the first of them.
fn unwind<T: Held>(
    mut turnstiles: Vec<Turnstile<T>>,
    mut firsts: Vec<Pass<T>>,
    mut values: Vec<T>,
    bases: &[T::Base],
) -> Vec<T>
    requires behind { StandBehind T.stands_for values.items turnstiles.items bases.now }
    requires firsts { firsts.items ≡ map first_pass turnstiles.items }
    requires room { length values.items + length turnstiles.items ≤ vec_capacity values }
    ensures { StandAtStart T.stands_for result.items bases.entry.now }
{
    while let Some(turnstile) = turnstiles.pop() {
        let first = firsts.pop().unwrap();
        values.push_reserved(turnstile.close(first));
    }
    turnstiles.destroy_empty();
    values
}
