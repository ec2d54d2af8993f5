/// Where the code begins.
pub const CODE_BASE: u32 = 0x0040_0000;
/// Where the statics begin.
pub const STATICS_BASE: u32 = 0x1001_0000;
/// Where the heap begins.
pub const HEAP_BASE: u32 = 0x1100_0000;
/// Where the stack ends.
pub const STACK_TOP: u32 = 0x7fff_fffc;
/// An address from here on, below the stack's floor, means that the stack is full.
pub const STACK_REACH: u32 = 0x4000_0000;
/// The greatest number of words of code.
pub const MOST_WORDS: u32 = 66060288;
/// The greatest number of bytes of statics.
pub const MOST_BYTES: u32 = 16711680;
