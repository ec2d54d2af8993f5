ghost use Rattle.std.specs.Prelude.{◌≡◌, ◌<◌, ◌-◌, [], ◌∷◌, true, length, replicate, OnOk, IfOk};
ghost use Rattle.tg_live.specs.glue.Tables.{row, push_at};

use smallvec::SmallVec;
use std::alloc::Global;
use std::marker::Model;
use tg_base::Memory;
use tg_instr::{Instr, Opnd};

/// Rows of places. Most rows are short, and then they take no memory of their own.
#[derive(Drop)]
pub(crate) struct PlaceTable {
    rows: Vec<SmallVec<u32, 4>>,
}

impl Model for PlaceTable {
    ghost use Rattle.std.specs.Prelude.{ℕ, List, map};

    ghost Value = { List (List ℕ) };

    ghost view = { λ t. map (λ r. r.items) t.rows.items };
}

impl PlaceTable {
    /// So many empty rows.
    pub(crate) fn with_rows(alloc: Global, count: usize) -> Result<PlaceTable, Memory>
        ensures { IfOk result (λ t. t ≡ replicate count []) }
    {
        let mut rows = Vec::with_capacity(alloc, count)?;
        for _ in 0..count {
            rows.push(SmallVec::new(alloc))?;
        }
        Ok(PlaceTable { rows })
    }

    /// The number of rows.
    pub(crate) fn len(&self) -> usize
        ensures { result ≡ length self.now }
    {
        self.rows.len()
    }

    /// The places of a row, and none past the last row.
    pub(crate) fn row(&self, at: usize) -> &[u32]
        ensures { result.now ≡ row self.now at }
    {
        match self.rows.get(at) {
            Some(places) => places.as_slice(),
            None => &[],
        }
    }

    /// Whether the row of a place has the place before it alone.
    pub(crate) fn is_straight(&self, at: u32) -> bool
        ensures some { result ≡ true → 0 < at }
        ensures alone { result ≡ true → row self.now at ≡ (at - 1) ∷ [] }
    {
        let row = self.row(at as usize);
        row.len() == 1 && at > 0 && row[0] == at - 1
    }

    /// Puts a place at the end of a row.
    pub(crate) fn push(&mut self, at: usize, place: u32) -> Result<(), Memory>
        requires { at < length self.old }
        ensures { OnOk result (self.new ≡ push_at self.old at place) }
    {
        self.rows[at].push(place)?;
        Ok(())
    }
}

/// Rows of operands, which are kept in the same way: a table for both would hold arrays of a type
/// parameter, of whose size nothing is known.
#[derive(Drop)]
pub(crate) struct OperandTable {
    rows: Vec<SmallVec<Opnd, 2>>,
}

impl Model for OperandTable {
    ghost use Rattle.std.specs.Prelude.{List, map};
    ghost use Rattle.tg_instr.specs.declared.operands.Opnd.{Opnd};

    ghost Value = { List (List Opnd) };

    ghost view = { λ t. map (λ r. r.items) t.rows.items };
}

impl OperandTable {
    /// So many empty rows.
    pub(crate) fn with_rows(alloc: Global, count: usize) -> Result<OperandTable, Memory>
        ensures { IfOk result (λ t. t ≡ replicate count []) }
    {
        let mut rows = Vec::with_capacity(alloc, count)?;
        for _ in 0..count {
            rows.push(SmallVec::new(alloc))?;
        }
        Ok(OperandTable { rows })
    }

    /// The number of rows.
    pub(crate) fn len(&self) -> usize
        ensures { result ≡ length self.now }
    {
        self.rows.len()
    }

    /// The operands of a row, and none past the last row.
    pub(crate) fn row(&self, at: usize) -> &[Opnd]
        ensures { result.now ≡ row self.now at }
    {
        match self.rows.get(at) {
            Some(operands) => operands.as_slice(),
            None => &[],
        }
    }

    /// Puts an operand at the end of a row.
    pub(crate) fn push(&mut self, at: usize, one: Opnd) -> Result<(), Memory>
        requires { at < length self.old }
        ensures { OnOk result (self.new ≡ push_at self.old at one) }
    {
        self.rows[at].push(one)?;
        Ok(())
    }
}
