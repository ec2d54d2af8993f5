use tg_machine_state::RunEnd;

/// How steps without a service come to a pause.
#[derive(Clone, Copy)]
pub(crate) enum Pause {
    /// A service is due after so many steps.
    Due(u64),
    /// The run ended.
    Ended(RunEnd),
    /// All steps were made.
    Made,
}
