ghost use Rattle.std.specs.Prelude.{◌≡◌, IfOk, nat_lt};
ghost use Rattle.tg_delay.specs.Filling.{delayed, near};
ghost use Rattle.tg_emit.specs.mirror.Lines.{words, words_of as words_of_line};

use crate::filling::fill;
use crate::turning::turn_round;
use std::alloc::Global;
use tg_base::Memory;
use tg_emit::{Assembly, Line, are_far};

/// The words of code up to which branches reach once there are delay slots.
const SHORT: usize = 16000;

/// The lines of an assembly for a machine with delayed branches: behind each jump and branch stands
/// its delay slot. Where the code has more than 16,000 and at most 32,000 words each branch is
/// turned round over a jump first, since it wouldn't reach; longer code has its branches turned
/// round already. Takes time in proportion to the lines. The error is want of memory alone.
pub fn delay(alloc: Global, assembly: &Assembly) -> Result<Assembly, Memory>
    ensures { IfOk result (λ after. after ≡ delayed assembly.now) }
{
    let lines = assembly.as_slice();
    if is_near(lines) {
        return Ok(Assembly::from_vec(fill(alloc, lines)?));
    }
    let turned = turn_round(alloc, lines)?;
    Ok(Assembly::from_vec(fill(alloc, turned.as_slice())?))
}

/// Whether branches still reach once there are delay slots.
fn is_near(lines: &[Line]) -> bool
    ensures { result ≡ near lines.now }
{
    !is_above(lines, SHORT) || are_far(lines)
}

/// Whether lines are more words of code than so many.
fn is_above(lines: &[Line], most: usize) -> bool
    ensures { result ≡ nat_lt most (words lines.now) }
{
    let mut left = most;
    for line in lines.iter() {
        let words = words_of(line);
        if left < words {
            return true;
        }
        left -= words;
    }
    false
}

fn words_of(line: &Line) -> usize
    ensures { result ≡ words_of_line line.now }
{
    match line {
        Line::One(_, _) => 1,
        Line::La(_, _) => 2,
        _ => 0,
    }
}
