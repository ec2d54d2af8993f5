ghost use Rattle.std.specs.Prelude.{◌≡◌};
ghost use Rattle.tg_command.specs.Flagged.{
  flags_fit,
  takes_bare,
  takes_explain,
  takes_fold,
  takes_watch,
};

use crate::modes::Mode;

/// The flags that a command line gives.
#[derive(Clone, Copy, Debug)]
pub struct Flags {
    /// `--watch`: watchers see the run, and their reports are told.
    pub watch: bool,
    /// `--fold`: the trees of the program are folded.
    pub fold: bool,
    /// `--bare`: the machine has delayed branches.
    pub bare: bool,
    /// `--explain`: the fault of a source is explained.
    pub explain: bool,
}

/// Whether a mode takes these flags.
pub(crate) fn flags_fit(mode: Mode, flags: Flags) -> bool
    ensures { result ≡ flags_fit mode flags }
{
    (takes_watch(mode) || !flags.watch)
        && (takes_fold(mode) || !flags.fold)
        && (takes_bare(mode) || !flags.bare)
        && (takes_explain(mode) || !flags.explain)
        && !(flags.watch && flags.bare)
}

/// `--watch` is for the modes that run an image on the streams.
fn takes_watch(mode: Mode) -> bool
    ensures { result ≡ takes_watch mode }
{
    match mode {
        Mode::Run | Mode::Exec => true,
        _ => false,
    }
}

/// `--fold` is for the modes that compile.
fn takes_fold(mode: Mode) -> bool
    ensures { result ≡ takes_fold mode }
{
    match mode {
        Mode::Build | Mode::Run | Mode::Alloc | Mode::Show | Mode::Gen | Mode::Bare => true,
        _ => false,
    }
}

/// `--bare` is for the mode that runs assembly text.
fn takes_bare(mode: Mode) -> bool
    ensures { result ≡ takes_bare mode }
{
    matches!(mode, Mode::Exec)
}

/// `--explain` is for the modes that read a source.
fn takes_explain(mode: Mode) -> bool
    ensures { result ≡ takes_explain mode }
{
    match mode {
        Mode::Check | Mode::Build | Mode::Run | Mode::Alloc | Mode::Show => true,
        Mode::Format | Mode::Bare => true,
        _ => false,
    }
}
