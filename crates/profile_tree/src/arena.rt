// The nodes of a tree, by key.
ghost use Rattle.std.specs.Prelude.{◌≡◌, ◌+◌, ◌<◌, ◌≤◌, ◌^◌, [], ◌∷◌, length, IfOk, OnOk, OnErr, None, Some, slice_set};
ghost use Rattle.slab.specs.Slab.{get, slab_len};
ghost use Rattle.profile_tree.specs.Node.{fresh, counted};
ghost use Rattle.profile_tree.specs.Arena.{node_at, with_child, with_last};

use crate::node::Node;
use code_event::PathStep;
use prof_base::Memory;
use slab::Slab;
use std::alloc::Global;
use std::marker::Model;

// The greatest number of nodes: their ids are 1 and so on.
const MAX_NODES: usize = 0xFFFF_FFFF;

/// The nodes of a tree. Their keys are 0, 1, 2 and so on in the order in which they came.
#[derive(Drop)]
pub(crate) struct Arena {
    slab: Slab<Node>,
}

impl Model for Arena {
    ghost use Rattle.std.specs.Prelude.{List};
    ghost use Rattle.profile_tree.specs.Node.{LinkedNode};
    ghost use Rattle.profile_tree.specs.Arena.{nodes_in, IsDense};

    ghost Value = { List LinkedNode };

    ghost view = { λ a. nodes_in a.slab };

    ghost invariant = { λ a. IsDense a.slab };
}

impl Arena {
    /// The root alone.
    pub(crate) fn new(alloc: Global) -> Result<Arena, Memory>
        ensures { IfOk result (λ arena. arena ≡ fresh 0 None ∷ []) }
    {
        let mut slab = Slab::new(alloc);
        slab.insert(Node::new(alloc, 0, None))?;
        Ok(Arena { slab })
    }

    pub(crate) fn len(&self) -> usize
        ensures { result ≡ length self.now }
    {
        self.slab.len()
    }

    pub(crate) fn get(&self, key: usize) -> &Node
        requires { key < length self.now }
        ensures { result.now ≡ node_at self.now key }
    {
        match self.slab.get(key) {
            Some(node) => node,
            None => unreachable!(),
        }
    }

    pub(crate) fn set_last(&mut self, key: usize, child: usize)
        requires { key < length self.old }
        ensures { self.new ≡ with_last self.old key child }
    {
        if let Some(node) = self.slab.get_mut(key) {
            node.set_last(child);
        }
    }

    /// Counts a hit of a node at a line. When out of memory, it leaves all nodes unchanged.
    pub(crate) fn count(&mut self, key: usize, line: u32) -> Result<(), Memory>
        requires { key < length self.old }
        ensures ok { OnOk result (self.new ≡ slice_set self.old key (counted (node_at self.old key) line)) }
        ensures few { OnOk result ((node_at self.old key).hits + 1 < 2 ^ 53) }
        ensures err { OnErr result (self.new ≡ self.old) }
    {
        if let Some(node) = self.slab.get_mut(key) {
            node.count(line)?;
        }
        Ok(())
    }

    /// Makes a child of a node, at a place among its children. When out of memory, it leaves all nodes
    /// unchanged.
    pub(crate) fn push_child(
        &mut self,
        alloc: Global,
        parent: usize,
        at: usize,
        step: &PathStep,
    ) -> Result<usize, Memory>
        requires within { parent < length self.old }
        requires place { at ≤ length (node_at self.old parent).children }
        ensures key { IfOk result (λ key. key ≡ length self.old) }
        ensures ok { OnOk result (self.new ≡ with_child self.old parent at step.now) }
        ensures few { OnOk result (length self.new < 2 ^ 32) }
        ensures err { OnErr result (self.new ≡ self.old) }
    {
        let child = Node::new(alloc, parent, Some(step.copy()?));
        let key = self.slab.len();
        // A slab from which nothing was taken gives out its keys in order.
        if key >= MAX_NODES || self.slab.vacant_key() != key {
            return Err(Memory);
        }
        self.slab.reserve(1)?;
        if let Some(node) = self.slab.get_mut(parent) {
            node.insert_child(at, key)?;
        }
        Ok(self.slab.insert_reserved(child))
    }
}
