// What lost writes leave.
ghost use Rattle.std.specs.Prelude.{◌≡◌, ◌+◌, ◌<◌, IfOk};
ghost use Rattle.power_loss.specs.Due.{RisesFrom};
ghost use Rattle.power_loss.specs.Plans.{write_numbers};

use nvm_device::{How, Loss, Pattern};
use std::alloc::Global;
use std::test::Fail;

// What a lost write leaves in its range: what stood there, this byte everywhere, or the new bytes.
#[derive(Clone, Copy, PartialEq, Eq, Debug)]
pub(crate) enum Left {
    Before,
    Torn(u8),
    After,
}

pub(crate) const LEFT: [Left; 9] = [
    Left::Before,
    Left::Torn(0x00),
    Left::Torn(0x01),
    Left::Torn(0x02),
    Left::Torn(0x03),
    Left::Torn(0x04),
    Left::Torn(0xFF),
    Left::Torn(0xAB),
    Left::After,
];

impl Left {
    pub(crate) fn how(self) -> How {
        match self {
            Left::Before => How::Before,
            Left::Torn(byte) => How::Torn(Pattern::new(&[byte])),
            Left::After => How::After,
        }
    }

    // What a lost write of one byte leaves, by the old byte and the new one.
    pub(crate) fn byte(self, old: u8, new: u8) -> u8 {
        match self {
            Left::Before => old,
            Left::Torn(byte) => byte,
            Left::After => new,
        }
    }
}

fn loss(write: u64, left: Left) -> Loss
    ensures { result.write ≡ write }
{
    Loss {
        write,
        how: left.how(),
    }
}

// A loss at this write.
pub(crate) fn one_loss(alloc: Global, write: u8, left: Left) -> Result<Vec<Loss>, Fail>
    requires { 0 < write }
    ensures { IfOk result (λ losses. RisesFrom 0 (write_numbers losses.items)) }
{
    let mut losses = Vec::new(alloc);
    losses.push(loss(u64::from(write), left))?;
    Ok(losses)
}

// A loss at this write behind four, and one as many writes later.
pub(crate) fn two_losses<H: Drop>(
    alloc: Global,
    write: u8,
    first: H,
    second: H,
) -> Result<Vec<power_loss::Loss<H>>, Fail>
    requires { 0 < write }
    ensures { IfOk result (λ losses. RisesFrom 0 (write_numbers losses.items)) }
{
    let mut losses = Vec::new(alloc);
    losses.push(power_loss::Loss {
        write: 4 + u64::from(write),
        how: first,
    })?;
    losses.push(power_loss::Loss {
        write: 4 + 2 * u64::from(write),
        how: second,
    })?;
    Ok(losses)
}
