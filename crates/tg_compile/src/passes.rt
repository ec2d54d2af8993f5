/// Which passes are switched on besides those that each program takes. Whatever they are, what is
/// compiled does what the program means.
#[derive(Clone, Copy)]
pub struct Passes {
    /// Trees are folded before they become flat code (Appel, chapter 17).
    pub fold: bool,
}
