// Trees that grow tick by tick.
ghost use Rattle.std.specs.Prelude.{◌≡◌, ℕ, ◌<◌, ◌^◌, ◌++◌, [], ◌∷◌, List, length, map, Some, IfOk, OnOk};
ghost use Rattle.std.specs.List.{All, AllZip, slice_get};
ghost use Rattle.code_event.specs.DeoptReasons.{no_reasons};
ghost use Rattle.code_event.specs.Tree.{nodes, id_of, fin_nodes};
ghost use Rattle.code_event.specs.declared.visit.Visit.{Visit};
ghost use Rattle.profile_tree.specs.Linked.{path_at};
ghost use Rattle.profile_tree.specs.Grown.{StandsFor, Names, NamesSome, IsStepDown, GrowsAlong, with_hit};

use crate::arena::Arena;
use crate::finish::{finished_nodes, sample_ids};
use crate::node_ref::NodeRef;
use crate::search::{Place, child_place, last_child};
use crate::walk::{ids, preorder};
use code_event::{FinNode, PathStep};
use prof_base::{Memory, Sequence};
use std::alloc::Global;
use std::marker::Model;

/// A tree of ticks: all prefixes of their paths are its nodes, each of which counts the hits with just
/// its path.
#[derive(Drop)]
pub struct Tree {
    alloc: Global,
    nodes: Arena,
}

impl Model for Tree {
    ghost use Rattle.profile_tree.specs.Linked.{Linked};
    ghost use Rattle.profile_tree.specs.Grown.{Grown, grown};

    ghost Value = { Grown };

    ghost view = { λ t. grown t.nodes };

    ghost invariant = { λ t. Linked t.nodes };
}

impl Tree {
    /// The tree of no ticks: the root alone.
    pub fn new(alloc: Global) -> Result<Tree, Memory>
        ensures { IfOk result (λ tree. StandsFor tree []) }
    {
        Ok(Tree {
            alloc,
            nodes: Arena::new(alloc)?,
        })
    }

    // The key of the root.
    fn root(&self) -> usize
        ensures { slice_get self.now.paths result ≡ Some [] }
    {
        let _ = &self.nodes;
        0
    }

    // The child of a node by a step, which is made where there is none.
    fn child(&mut self, parent: usize, step: &PathStep) -> Result<usize, Memory>
        requires { parent < length self.old.paths }
        ensures { IfOk result (IsStepDown self.old self.new parent step.now) }
    {
        if let Some(child) = last_child(&self.nodes, parent, step) {
            return Ok(child);
        }
        let child = match child_place(&self.nodes, parent, step) {
            Place::At(child) => child,
            Place::New(at) => self.nodes.push_child(self.alloc, parent, at, step)?,
        };
        self.nodes.set_last(parent, child);
        Ok(child)
    }

    // The node of a path, which is made with all nodes above it where there is none.
    fn node(&mut self, path: &[PathStep]) -> Result<usize, Memory>
        ensures { IfOk result (GrowsAlong self.old self.new path.now) }
    {
        let mut key = self.root();
        for step in path {
            key = self.child(key, step)?;
        }
        Ok(key)
    }

    // Counts a hit of a node, which is the only one with its path.
    fn count(&mut self, key: usize, line: u32) -> Result<(), Memory>
        requires { key < length self.old.paths }
        ensures ok { OnOk result (self.new ≡ with_hit self.old key line) }
        ensures alone { OnOk result ((other : ℕ) → other < length self.old.paths → path_at self.old.paths other ≡ path_at self.old.paths key
            → other ≡ key) }
    {
        self.nodes.count(key, line)?;
        Ok(())
    }

    /// Adds a tick with this path, which was at a line of its last function, or at 0 for none. The
    /// reference names the path from then on. After out of memory, nothing is said of the tree.
    pub fn add(&mut self, path: &[PathStep], leaf_line: u32, hit: bool) -> Result<NodeRef, Memory>
        ensures stands { OnOk result ((visits : List Visit) → StandsFor self.old visits
            → StandsFor self.new (visits ++ record { path = path.now; line = leaf_line; hit = hit } ∷ [])) }
        ensures names { IfOk result (λ reference. Names self.new reference path.now) }
        ensures kept { OnOk result ((reference : NodeRef) (named : List PathStep) → Names self.old reference named
            → Names self.new reference named) }
    {
        let key = self.node(path)?;
        if hit {
            self.count(key, leaf_line)?;
        }
        Ok(NodeRef { key })
    }

    /// The nodes in the order of their paths, and the ids of those that the references name.
    pub fn finished(
        &self,
        samples: &[NodeRef],
    ) -> Result<(Sequence<FinNode>, Sequence<u32>), Memory>
        requires { All (NamesSome self.now) samples.now }
        ensures few_hits { IfOk result (λ finished. All (λ node. node.hits < 2 ^ 53) finished.0) }
        ensures nodes { IfOk result (λ finished. (visits : List Visit) → StandsFor self.now visits
            → finished.0 ≡ fin_nodes visits no_reasons) }
        ensures samples { IfOk result (λ finished. (visits : List Visit) (paths : List (List PathStep)) → StandsFor self.now visits
            → AllZip (Names self.now) samples.now paths → finished.1 ≡ map (id_of (nodes visits)) paths) }
    {
        let order = preorder(self.alloc, &self.nodes)?;
        let ids = ids(self.alloc, order.as_slice(), self.nodes.len())?;
        let nodes = finished_nodes(self.alloc, &self.nodes, order.as_slice(), ids.as_slice())?;
        let samples = sample_ids(self.alloc, ids.as_slice(), samples)?;
        Ok((nodes, samples))
    }
}
