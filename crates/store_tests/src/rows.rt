// Rows of text: a place on a device, and bytes in hexadecimal digits.
ghost use Rattle.std.specs.Prelude.{◌≡◌, true, OnOk};

use crate::untold::Untold;
use nvm_device::Nvm;
use std::alloc::Global;
use std::test::Fail;

fn read_row(alloc: Global, row: &str) -> Result<(usize, Vec<u8>), Fail> {
    let (place, digits) = row.split_once(' ').ok_or("no place")?;
    let place: usize = place.parse().or(Err("no number"))?;
    let bytes = hex::decode(alloc, digits).or(Err("no digits"))?;
    Ok((place, bytes))
}

// Makes the bytes of a row stand.
pub(crate) fn set_row(alloc: Global, nvm: &mut Untold, row: &str) -> Result<(), Fail>
    ensures { ⟦<Untold as Nvm>⟧.state nvm.new ≡ ⟦<Untold as Nvm>⟧.state nvm.old }
{
    let (place, bytes) = read_row(alloc, row)?;
    nvm.set(place, &bytes);
    Ok(())
}

// Makes the bytes of all rows stand, and turns the power on.
pub(crate) fn set_rows(alloc: Global, nvm: &mut Untold, rows: &str) -> Result<(), Fail>
    ensures { OnOk result ((⟦<Untold as Nvm>⟧.state nvm.new).power.on ≡ true) }
{
    for row in rows.trim().lines() {
        set_row(alloc, nvm, row.trim())?;
    }
    nvm.power();
    Ok(())
}

// Whether the bytes of all rows stand.
pub(crate) fn hold_rows(alloc: Global, nvm: &Untold, rows: &str) -> Result<bool, Fail> {
    for row in rows.trim().lines() {
        let (place, bytes) = read_row(alloc, row.trim())?;
        if !nvm.holds(place, &bytes) {
            return Ok(false);
        }
    }
    Ok(true)
}
