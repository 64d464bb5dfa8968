// A caller's passes are taken back.
ghost use Rattle.std.specs.Prelude.{length, map, All};
ghost use Rattle.turnstile_rows.specs.Rows.{ArePassesOf, AreFirst, AreOthers, AreJoined, AreRowsOf, HaveOut};
ghost use Rattle.turnstile_rows.specs.Gathered.{AreGathered};

use turnstile::{Held, Pass, Turnstile};

/// Joins a pass of each turnstile into the first ones.
pub fn gather<T: Held>(
    turnstiles: &[Turnstile<T>],
    firsts: &mut Vec<Pass<T>>,
    mut passes: Vec<Pass<T>>,
)
    requires own { ArePassesOf turnstiles.now firsts.old.items × ArePassesOf turnstiles.now passes.items }
    requires first { AreFirst firsts.old.items × AreOthers passes.items }
    ensures own { ArePassesOf turnstiles.now firsts.new.items }
    ensures first { AreFirst firsts.new.items }
    ensures joined { AreJoined firsts.old.items passes.items firsts.new.items }
{
    while let Some(pass) = passes.pop() {
        let card = passes.len();
        let turnstile = turnstiles.get(card).unwrap();
        turnstile.join(&mut firsts[card], pass);
    }
}

/// Joins the rows of all callers into the first passes.
pub fn gather_all<T: Held>(
    turnstiles: &[Turnstile<T>],
    firsts: &mut Vec<Pass<T>>,
    rows: Vec<Vec<Pass<T>>>,
)
    requires own { ArePassesOf turnstiles.now firsts.old.items }
    requires first { AreFirst firsts.old.items }
    requires out { HaveOut (length rows.items) firsts.old.items }
    requires rows { AreRowsOf turnstiles.now (map (λ v. v.items) rows.items) }
    ensures own { ArePassesOf turnstiles.now firsts.new.items }
    ensures first { AreFirst firsts.new.items }
    ensures out { HaveOut 0 firsts.new.items }
    ensures gathered { AreGathered (map (λ v. v.items) rows.items) firsts.old.items firsts.new.items }
{
    for row in rows {
        gather(turnstiles, firsts, row);
    }
}
