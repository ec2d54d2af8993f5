/// How a run of the machine ends (SPIM manual, system services; MIPS I, exceptions).
///
/// Addresses, words and numbers of services are those that the machine met.
#[derive(Clone, Copy, Debug, PartialEq, Eq)]
pub enum RunEnd {
    /// Service 10 or 17, or a jump to place 0: the program's code.
    Exit(i32),
    /// A `break` with its code.
    Break(u32),
    /// A trapping sum or difference out of 32 signed bits.
    Overflow,
    /// Service 9 asked for more bytes than the heap has left.
    HeapFull,
    /// An address between the data and the stack's floor was loaded or stored.
    StackFull,
    /// The steps that were given are used up; the machine goes on at the next call.
    StepLimit,
    /// An address that no region has.
    BadAddress(u32),
    /// An address of a word that isn't a multiple of 4.
    Unaligned(u32),
    /// A word that isn't in the instruction table.
    BadWord(u32),
    /// A service that isn't in the table of services.
    BadService(u32),
    /// A read that failed.
    ReadFault,
    /// A write that failed.
    WriteFault,
}
