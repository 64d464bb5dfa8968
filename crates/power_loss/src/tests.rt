ghost use Rattle.std.specs.Prelude.{◌≡◌};

use crate::{Loss, Plan};
use std::test::Fail;

fn loss(write: u64, how: u8) -> Loss<u8>
    ensures { result.write ≡ write }
{
    Loss { write, how }
}

// So many writes, what is left by the one of them that is lost, and how many losses came then.
#[test]
fn a_loss_is_the_last_write_that_is_made(rt: HostRuntime) -> Result<(), Fail> {
    let losses = [loss(2, 20), loss(3, 30), loss(9, 90)].to_vec(rt.alloc())?;
    let mut plan = Plan::new(losses);
    for (writes, want, came) in [
        (1, None, 0),
        (1, Some(20), 1),
        (2, Some(30), 2),
        (5, None, 2),
        (1, Some(90), 3),
        (7, None, 3),
    ] {
        assert_eq!(rt; plan.planned_in(writes).copied(), want, "{writes}");
        plan.make(writes);
        assert_eq!(rt; plan.came(), came, "{writes}");
    }
    Ok(())
}

fn moves<T: Send>(value: T) -> T {
    value
}

fn shares<T: Sync>(value: &T) -> &T {
    value
}

#[test]
fn a_loss_moves_between_threads_and_is_shared_by_them(rt: HostRuntime) {
    assert_eq!(rt; shares(&moves(loss(2, 20))).how, 20);
}
