ghost use Rattle.std.specs.Prelude.{◌≡◌, ◌+◌, ◌≤◌};

/// How many static links lead from a function of the level `from` to the activation of one of the
/// outer level `to`. The program's body has the level 0.
pub fn link_path(from: u32, to: u32) -> u32
    requires { to ≤ from }
    ensures { result + to ≡ from }
{
    from - to
}
