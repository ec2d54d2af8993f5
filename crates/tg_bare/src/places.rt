/// Where a machine with delayed branches is between two steps.
#[derive(Clone, Copy)]
pub(crate) struct Places {
    /// The place of the next step.
    pub(crate) place: u32,
    /// The place of the step behind that one.
    pub(crate) next: u32,
    /// Whether the next step is in the delay slot of the one before it.
    pub(crate) in_slot: bool,
}
