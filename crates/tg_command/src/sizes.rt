ghost use Rattle.std.specs.Prelude.{◌≡◌, option_map};
ghost use Rattle.tg_command.specs.Sizes.{sizes_fit, takes_sizes};

use crate::modes::Mode;

/// Whether a mode takes the values of `--heap`, `--stack` and `--steps`, where they are there.
pub(crate) fn sizes_fit(
    mode: Mode,
    heap: Option<&str>,
    stack: Option<&str>,
    steps: Option<&str>,
) -> bool
    ensures { result ≡ sizes_fit mode (option_map (λ t. t.now) heap.entry)
        (option_map (λ t. t.now) stack.entry) (option_map (λ t. t.now) steps.entry) }
{
    takes_sizes(mode) || heap.is_none() && stack.is_none() && steps.is_none()
}

/// Each mode takes them but `show`.
fn takes_sizes(mode: Mode) -> bool
    ensures { result ≡ takes_sizes mode }
{
    !matches!(mode, Mode::Show)
}
