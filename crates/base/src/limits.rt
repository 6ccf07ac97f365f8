//! The limits of what a text may declare and a kernel may have.
//!
//! They are confine's own. The numbers of labels and cores are `Label::COUNT` and `CoreNo::COUNT`.

/// The number of objects that a capability table may declare.
pub const MAX_OBJECTS: usize = 4096;

/// The number of objects that a kernel may have at one time.
pub const MAX_PRESENT: u64 = 65_536;

/// The number of slots that the objects of a table, or of a kernel at one time, may have together.
pub const MAX_SLOTS: u64 = 65_536;

/// The number of threads that a table, or a kernel at one time, may have among its objects.
pub const MAX_THREADS: u64 = 1024;

/// The greatest radix of a CNode, as the power of two that its slots are.
pub const MAX_RADIX: u8 = 12;

/// The first physical address, in bytes, at which no object may lie.
///
/// The addresses below it have [`ADDRESS_BITS`] bits.
pub const ADDRESS_END: u64 = 1 << ADDRESS_BITS;

/// The number of bits of a physical address.
pub const ADDRESS_BITS: u8 = 48;

/// The first number that no object may have.
pub const OBJECT_NUMBERS: u64 = 1 << 48;

/// The number of objects that a call may make.
pub const MAX_MADE: u64 = 16;

/// The longest period of a scheduling context, in microseconds: an hour.
pub const MAX_PERIOD: u64 = 3_600_000_000;

/// The number of events that a script may have, and of entries that a log may have.
pub const MAX_EVENTS: usize = 1_000_000;
