use tg_machine_state::RunEnd;

/// What a step leaves.
#[derive(Clone, Copy, Debug, PartialEq, Eq)]
pub enum Status {
    Running,
    Ended(RunEnd),
}
