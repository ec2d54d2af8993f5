ghost use Rattle.std.specs.Prelude.{◌≡◌, IfNone, IfSome};
ghost use Rattle.tg_command.specs.Modes.{mode_name};

/// What the program does with the file.
#[derive(Clone, Copy, Debug, PartialEq, Eq)]
pub enum Mode {
    /// Refuses or accepts a source.
    Check,
    /// Compiles a source and writes its assembly text.
    Build,
    /// Compiles a source and runs it.
    Run,
    /// Assembles a text of assembly and runs it.
    Exec,
    /// Compiles a source and writes what the register allocator did.
    Alloc,
    /// Compiles a source and writes what each pass made of each function.
    Show,
    /// Generates a source of as many functions as FILE says, compiles it and runs it.
    Gen,
    /// Writes the canonical text of a source.
    Format,
    /// Compiles a source and writes its assembly text for the machine with delayed branches.
    Bare,
}

/// The mode of this name, in its one spelling. Here and in `mode_name` stand the names of the
/// modes.
pub(crate) fn named(name: &str) -> Option<Mode>
    ensures some { IfSome result (λ mode. name.now ≡ mode_name mode) }
    ensures none { IfNone result ((mode : Mode) → name.now ≡ mode_name mode → ⊥) }
{
    match name {
        "check" => Some(Mode::Check),
        "build" => Some(Mode::Build),
        "run" => Some(Mode::Run),
        "exec" => Some(Mode::Exec),
        "alloc" => Some(Mode::Alloc),
        "show" => Some(Mode::Show),
        "gen" => Some(Mode::Gen),
        "format" => Some(Mode::Format),
        "bare" => Some(Mode::Bare),
        _ => None,
    }
}
