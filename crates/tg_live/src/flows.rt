ghost use Rattle.std.specs.Prelude.{◌≡◌};
ghost use Rattle.std.specs.FinSet as set;
ghost use Rattle.tg_live.specs.glue.Tables.{edges_into};

use crate::tables::PlaceTable;
use std::marker::Model;

/// Where the instructions of a code go on, as a set of pairs of places: for each place it has the
/// places before it.
#[derive(Drop)]
pub struct Flow {
    before: PlaceTable,
}

impl Model for Flow {
    ghost use Rattle.std.specs.Prelude.{ℕ};
    ghost use Rattle.std.specs.FinSet as set;
    ghost use Rattle.std.specs.Coded.{coded_ℕ, coded×};
    ghost use Rattle.tg_live.specs.Flow.{pair_cmp};
    ghost use Rattle.tg_live.specs.glue.Tables.{edges_into};

    ghost Value = { set.FinSet pair_cmp };

    ghost coded = { set.code (coded× coded_ℕ coded_ℕ) };

    ghost view = { λ f. set.from_list (edges_into 0 f.before) };
}

impl Flow {
    pub(crate) fn new(before: PlaceTable) -> Flow
        ensures { result ≡ set.from_list (edges_into 0 before) }
    {
        Flow { before }
    }

    /// For each place the places before it.
    pub(crate) fn before(&self) -> &PlaceTable
        ensures { self.now ≡ set.from_list (edges_into 0 result.now) }
    {
        &self.before
    }
}
