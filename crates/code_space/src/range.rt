// Ranges of addresses, and the limits of the space.

/// The first address of the space.
pub const FIRST_ADDRESS: u32 = 4_096;

/// The bytes of an instruction's slot. Each range starts at a multiple of them, and has a multiple
/// of them as its size.
pub const ALIGNMENT: u32 = 4;

/// The most bytes of a range.
pub const MAX_SIZE: u32 = 16_384;

/// The most ranges that are in use at once.
pub const MAX_RANGES: usize = 512;

/// No range ends above this address. Each hole below the least address at which a range fits is
/// smaller than the range, and is followed by one that is in use. So the ranges and the holes below
/// them take at most `2 * MAX_SIZE` bytes for each of `MAX_RANGES` ranges, and a space is never too
/// full to place one more.
pub const SPACE_END: u32 = 16_781_312;

/// A range of addresses.
#[derive(Clone, Copy, Debug, PartialEq, Eq)]
pub struct CodeRange {
    /// Its first address.
    pub start: u32,
    /// Its size in bytes.
    pub size: u32,
}

/// Where compaction moved a range.
#[derive(Clone, Copy, Debug, PartialEq, Eq)]
pub struct CodeMove {
    /// Where it started.
    pub from: u32,
    /// Where it starts now.
    pub to: u32,
}
