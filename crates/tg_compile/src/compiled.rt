use tg_regalloc::Allocation;

/// What a program is compiled to: the code of each function over registers with the locations of
/// its temporaries, the program's body first, then its functions in the order of the source, then
/// the runtime's; and the assembly text of them all.
#[derive(Drop)]
pub struct Compiled {
    pub allocations: Vec<Allocation>,
    pub text: Vec<u8>,
}
