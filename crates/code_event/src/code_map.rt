// Code objects in the address space.
use crate::layout::Layout;

/// A code object: where it starts, its size in bytes, and its layout.
#[derive(Debug, Drop)]
pub struct Range {
    pub start: u32,
    pub size: u32,
    pub layout: Layout,
}
