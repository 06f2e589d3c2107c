//! The tree of a profile: it grows tick by tick, along the path of each, and is listed at the end in
//! the order of its paths. `code_event` defines what it is: the set of all prefixes of all paths.
#![tactic(auto)]

mod arena;
mod finish;
mod lines;
mod node;
mod node_ref;
mod search;
mod steps;
mod tree;
mod walk;

pub use node_ref::NodeRef;
pub use tree::Tree;
