/// A failure at a program's edge. Each program has its own text and status for it.
#[derive(Clone, Copy, Debug, PartialEq, Eq)]
pub enum OutsideFault {
    /// The allocator refused the memory.
    Memory,
    /// The output failed.
    CannotWrite,
    /// A word of the process is not UTF-8.
    NotText,
}
