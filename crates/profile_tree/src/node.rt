// Nodes of a linked tree.
ghost use Rattle.std.specs.Prelude.{◌≡◌, ◌+◌, ◌<◌, ◌≤◌, ◌^◌, length, IfOk, OnOk, OnErr, Some};
ghost use Rattle.std.specs.List.{insert};
ghost use Rattle.profile_tree.specs.Node.{fresh, counted};

use crate::lines::{one_more, put_line};
use code_event::{LineTicks, PathStep};
use prof_base::Memory;
use std::alloc::Global;
use std::marker::Model;

/// A node, by its last step. It knows its parent and children by their keys.
#[derive(Drop)]
pub(crate) struct Node {
    // None in the root.
    step: Option<PathStep>,
    parent: usize,
    // In the order of their steps.
    children: Vec<usize>,
    // The child of the last visit.
    last: Option<usize>,
    hits: u64,
    // By rising line.
    lines: Vec<LineTicks>,
}

impl Model for Node {
    ghost use Rattle.profile_tree.specs.Node.{LinkedNode};

    ghost Value = { LinkedNode };

    ghost view = { λ n. record {
      step = n.step;
      parent = n.parent;
      children = n.children.items;
      last = n.last;
      hits = n.hits;
      lines = n.lines.items;
    } };
}

impl Node {
    /// A node with nothing below it and no hits. It takes no memory.
    pub(crate) fn new(alloc: Global, parent: usize, step: Option<PathStep>) -> Node
        ensures { result ≡ fresh parent step }
    {
        Node {
            step,
            parent,
            children: Vec::new(alloc),
            last: None,
            hits: 0,
            lines: Vec::new(alloc),
        }
    }

    pub(crate) fn step(&self) -> &Option<PathStep>
        ensures { result.now ≡ self.now.step }
    {
        &self.step
    }

    pub(crate) fn children(&self) -> &[usize]
        ensures { result.now ≡ self.now.children }
    {
        self.children.as_slice()
    }

    pub(crate) fn last(&self) -> Option<usize>
        ensures { result ≡ self.now.last }
    {
        self.last
    }

    pub(crate) fn hits(&self) -> u64
        ensures { result ≡ self.now.hits }
    {
        self.hits
    }

    pub(crate) fn lines(&self) -> &[LineTicks]
        ensures { result.now ≡ self.now.lines }
    {
        self.lines.as_slice()
    }

    pub(crate) fn set_last(&mut self, child: usize)
        ensures { self.new ≡ record self.old { last = Some child } }
    {
        self.last = Some(child);
    }

    /// Puts a child at a place. When out of memory, it leaves the node unchanged.
    pub(crate) fn insert_child(&mut self, at: usize, child: usize) -> Result<(), Memory>
        requires { at ≤ length self.old.children }
        ensures ok { OnOk result (self.new ≡ record self.old { children = insert self.old.children at child }) }
        ensures err { OnErr result (self.new ≡ self.old) }
    {
        self.children.insert(at, child)?;
        Ok(())
    }

    /// Counts a hit at a line, where 0 stands for none. When out of memory, it leaves the node
    /// unchanged.
    pub(crate) fn count(&mut self, line: u32) -> Result<(), Memory>
        ensures ok { OnOk result (self.new ≡ counted self.old line) }
        ensures few { OnOk result (self.old.hits + 1 < 2 ^ 53) }
        ensures err { OnErr result (self.new ≡ self.old) }
    {
        let hits = one_more(self.hits)?;
        if line > 0 {
            put_line(&mut self.lines, line)?;
        }
        self.hits = hits;
        Ok(())
    }
}
