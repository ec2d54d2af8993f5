/// What a label stands for.
#[derive(Clone, Copy)]
pub(crate) enum LabelTarget {
    /// A word of the code, by its number.
    InCode(u32),
    /// An item of the statics, by its number.
    InStatics(u32),
}
