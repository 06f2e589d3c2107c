// Where an address lies.

/// The place of an address: the code object that it lies in, by its start, and the slot there.
#[derive(Clone, Copy, Debug, PartialEq, Eq)]
pub struct Found {
    pub start: u32,
    pub slot: u16,
}
