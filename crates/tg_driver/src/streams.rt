/// What a run reads from and writes to.
#[derive(Drop)]
pub(crate) struct Streams<'i, 'o, I, O> {
    pub(crate) input: &'i mut I,
    pub(crate) out: &'o mut O,
}
