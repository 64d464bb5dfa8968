// How the cells of a port began.
use std::marker::Brand;

/// How the cells of a port began, so that a port that is lent can't be exchanged for another. It exists in contracts alone;
/// a call at `Brand` picks it.
pub trait Beginnings {
    ghost use Rattle.std.specs.Prelude.{Bool, List};
    ghost use Rattle.card_cell.specs.declared.base.CellBase.{CellBase};

    /// What each cell began with, the first cell's first.
    ghost bases: { List CellBase };

    /// Whether each cell's store told when losses are due.
    ghost tells: { List Bool };
}

impl Beginnings for Brand {
    ghost use Rattle.std.specs.Prelude.{[]};

    ghost bases = { [] };

    ghost tells = { [] };
}
