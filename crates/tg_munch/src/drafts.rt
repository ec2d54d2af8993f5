ghost use Rattle.std.specs.Prelude.{◌≡◌, [], OnOk, IfOk};
ghost use Rattle.tg_munch.specs.glue.Drafts.{Writes};
ghost use Rattle.tg_munch.specs.mirror.Choosing as choosing;
ghost use Rattle.tg_munch.specs.mirror.Tiles as tiles;

use crate::tiling::{field, is_small};
use std::alloc::Global;
use tg_base::{Memory, Temp};
use tg_instr::{Instr, Opnd, push_instr};
use tg_isa::Reg;

/// The most temporaries of a function.
pub(crate) const MOST_TEMPS: u32 = 16777215;

/// The code of a function as far as it is chosen, with the next temporary and the next mark.
#[derive(Drop)]
pub(crate) struct Draft {
    pub(crate) list: Vec<Instr>,
    pub(crate) temp: u32,
    pub(crate) mark: u32,
}

impl Draft {
    pub(crate) fn new(alloc: Global, temp: u32, mark: u32) -> Draft
        ensures list { result.list.items ≡ [] }
        ensures temp { result.temp ≡ temp }
        ensures mark { result.mark ≡ mark }
    {
        Draft {
            list: Vec::new(alloc),
            temp,
            mark,
        }
    }

    /// Writes an instruction.
    pub(crate) fn put(&mut self, one: Instr) -> Result<(), Memory>
        ensures { OnOk result (Writes (choosing.put one) self.old self.new tt) }
    {
        push_instr(&mut self.list, one)
    }

    /// Draws a temporary.
    pub(crate) fn fresh(&mut self) -> Result<Opnd, Memory>
        ensures { IfOk result (λ to. Writes choosing.fresh self.old self.new to) }
    {
        if self.temp >= MOST_TEMPS {
            return Err(Memory);
        }
        let to = Opnd::Temp(Temp(self.temp));
        self.temp += 1;
        Ok(to)
    }

    /// Draws a mark.
    pub(crate) fn fresh_mark(&mut self) -> Result<u32, Memory>
        ensures { IfOk result (λ mark. Writes choosing.fresh_mark self.old self.new mark) }
    {
        let mark = self.mark;
        if mark == u32::MAX {
            return Err(Memory);
        }
        self.mark += 1;
        Ok(mark)
    }

    /// The operand that is asked for, or a temporary of its own.
    pub(crate) fn choose(&mut self, asked: Option<Opnd>) -> Result<Opnd, Memory>
        ensures { IfOk result (λ to. Writes (choosing.choose asked) self.old self.new to) }
    {
        match asked {
            Some(to) => Ok(to),
            None => self.fresh(),
        }
    }

    /// Writes an instruction that defines an operand, and gives the operand.
    pub(crate) fn define(&mut self, one: Instr, to: Opnd) -> Result<Opnd, Memory>
        ensures { IfOk result (λ x. Writes (choosing.defining one to) self.old self.new x) }
    {
        self.put(one)?;
        Ok(to)
    }

    /// Writes an instruction, and after it one that defines an operand, and gives the operand.
    pub(crate) fn define_behind(
        &mut self,
        first: Instr,
        one: Instr,
        to: Opnd,
    ) -> Result<Opnd, Memory>
        ensures { IfOk result
            (λ x. Writes (choosing.defining_behind first one to) self.old self.new x) }
    {
        self.put(first)?;
        let value = self.define(one, to)?;
        Ok(value)
    }

    /// An operand gets what another holds, where it is asked for.
    pub(crate) fn move_into(&mut self, asked: Option<Opnd>, from: Opnd) -> Result<Opnd, Memory>
        ensures { IfOk result (λ x. Writes (tiles.moved asked from) self.old self.new x) }
    {
        match asked {
            Some(to) => {
                let target = to;
                self.define(Instr::Move(target, from), to)
            }
            None => Ok(from),
        }
    }

    /// An operand gets a constant: one half of it, or both.
    pub(crate) fn constant(&mut self, to: Opnd, n: u32) -> Result<Opnd, Memory>
        ensures { IfOk result (λ x. Writes (tiles.constant to n) self.old self.new x) }
    {
        let target = to;
        let nothing = Opnd::Reg(Reg::ZERO);
        if is_small(n) {
            self.define(Instr::Addiu(target, nothing, field(n)), to)
        } else if n < 65536 {
            self.define(Instr::Ori(target, nothing, field(n)), to)
        } else if n % 65536 == 0 {
            self.define(Instr::Lui(target, field(n / 65536)), to)
        } else {
            self.halves(to, n)
        }
    }

    /// An operand gets both halves of a constant.
    fn halves(&mut self, to: Opnd, n: u32) -> Result<Opnd, Memory>
        ensures { IfOk result (λ x. Writes (tiles.halves to n) self.old self.new x) }
    {
        let upper = to;
        let target = to;
        let source = to;
        self.define_behind(
            Instr::Lui(upper, field(n / 65536)),
            Instr::Ori(target, source, field(n)),
            to,
        )
    }
}
