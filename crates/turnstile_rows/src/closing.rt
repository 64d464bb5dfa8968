// All turnstiles end.
ghost use Rattle.std.specs.Prelude.{◌≡◌, ◌≤◌, [], length, vec_capacity};
ghost use Rattle.turnstile_rows.specs.Rows.{ArePassesOf, AreFirst, HaveOut, AreClosed};

use turnstile::{Held, Pass, Turnstile};

/// Closes all turnstiles by their first passes. Their values come back in the room, in their order.
pub fn close_all<T: Held>(
    mut turnstiles: Vec<Turnstile<T>>,
    mut firsts: Vec<Pass<T>>,
    mut room: Vec<T>,
) -> Vec<T>
    requires own { ArePassesOf turnstiles.items firsts.items }
    requires first { AreFirst firsts.items }
    requires out { HaveOut 0 firsts.items }
    requires room { (room.items ≡ []) × (length turnstiles.items ≤ vec_capacity room) }
    ensures closed { AreClosed T.stands_for turnstiles.items firsts.items result.items }
{
    while let Some(turnstile) = turnstiles.pop() {
        let pass = firsts.pop().unwrap();
        room.push_reserved(turnstile.close(pass));
    }
    turnstiles.destroy_empty();
    room.reverse();
    room
}
