// References to nodes.

/// A reference to a node of a tree. It names the node's path for good.
#[derive(Clone, Copy, Debug, PartialEq, Eq)]
pub struct NodeRef {
    pub(crate) key: usize,
}
