ghost use Rattle.std.specs.Prelude.{◌≡◌, ◌+◌, IfOk};
ghost use Rattle.tg_canon.specs.glue.Breaking.{leads};
ghost use Rattle.tg_canon.specs.mirror.Canon as canon;

use tg_base::Memory;

/// Where the breaks of a place in the body lead.
#[derive(Clone, Copy)]
pub(crate) enum Breaks<'a> {
    /// Outside of all loops of the body: where they led.
    Body,
    /// Inside one more loop of the body.
    Inside(&'a Breaks<'a>),
    /// Inside so many loops more than the body has there.
    Deeper(u32, &'a Breaks<'a>),
}

pub(crate) fn more_loops(loops: u32, more: u32) -> Result<u32, Memory>
    ensures { IfOk result (λ n. n ≡ loops + more) }
{
    if loops <= u32::MAX - more {
        Ok(loops + more)
    } else {
        Err(Memory)
    }
}

/// A break that left `loops` of the body and one more leaves so many and one more. It is out of
/// memory where the number doesn't fit 32 bits.
pub(crate) fn target(breaks: &Breaks, loops: u32) -> Result<u32, Memory>
    ensures { IfOk result (λ n. n ≡ leads breaks.now loops) }
{
    match breaks {
        Breaks::Body => Ok(loops),
        Breaks::Inside(outer) => {
            if loops == 0 {
                Ok(0)
            } else {
                let outside = target(outer, loops - 1)?;
                Ok(more_loops(outside, 1)?)
            }
        }
        Breaks::Deeper(more, outer) => {
            let outside = target(outer, loops)?;
            Ok(more_loops(outside, *more)?)
        }
    }
}
