// One function compares strings, by -1, 0 or 1, for all six comparisons.

ghost use Rattle.std.specs.Prelude.{◌≡◌};
ghost use Rattle.tg_runtime.specs.mirror.Labels.{label_of};

use tg_base::Label;

/// A function of the runtime, in the order of the labels.
#[derive(Clone, Copy)]
pub enum Routine {
    /// A record of so many bytes.
    MakeRecord,
    /// An array of a size, whose elements are all the same word.
    MakeArray,
    /// The order of two strings: below 0, 0 or above 0.
    Compare,
    Print,
    Flush,
    Getchar,
    Ord,
    Chr,
    Size,
    Substring,
    Concat,
    Not,
    Exit,
}

impl Routine {
    /// The label of the function, which is below 32.
    pub fn label(self) -> Label
        ensures { result.0 ≡ label_of self }
    {
        Label(self as u32)
    }
}
