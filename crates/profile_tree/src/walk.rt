// The nodes of a tree in the order of their paths.
ghost use Rattle.std.specs.Prelude.{◌≡◌, ◌≢◌, ℕ, ◌+◌, ◌<◌, ◌≤◌, ◌++◌, ◌^◌, length, reverse, slice_index, IfOk, OnOk};
ghost use Rattle.std.specs.List.{All};
ghost use Rattle.profile_tree.specs.Linked.{Linked};
ghost use Rattle.profile_tree.specs.Walk.{IsPreorder, AreIds};

use crate::arena::Arena;
use prof_base::Memory;
use std::alloc::Global;

// Puts keys on a stack, so that the first is on top.
fn push_all(stack: &mut Vec<usize>, keys: &[usize]) -> Result<(), Memory>
    ensures { OnOk result (stack.new.items ≡ stack.old.items ++ reverse keys.now) }
{
    for at in (0..keys.len()).rev() {
        stack.push(keys[at])?;
    }
    Ok(())
}

/// The keys of all nodes: each node's before its children's, which are in the order of their steps.
pub(crate) fn preorder(alloc: Global, nodes: &Arena) -> Result<Vec<usize>, Memory>
    requires { Linked nodes.now }
    ensures { IfOk result (λ order. IsPreorder nodes.now order.items) }
{
    let mut order = Vec::new(alloc);
    let mut stack = Vec::new(alloc);
    stack.push(0)?;
    while let Some(key) = stack.pop() {
        order.push(key)?;
        push_all(&mut stack, nodes.get(key).children())?;
    }
    Ok(order)
}

/// The place of each key in an order, from 1.
pub(crate) fn ids(alloc: Global, order: &[usize], count: usize) -> Result<Vec<u32>, Memory>
    requires within { All (λ key. key < count) order.now }
    requires few { length order.now < 2 ^ 32 }
    requires distinct { (i j : ℕ) → i < j → j < length order.now → slice_index order.now i ≢ slice_index order.now j }
    ensures len { IfOk result (λ ids. length ids.items ≡ count) }
    ensures ids { IfOk result (λ ids. AreIds order.now ids.items) }
{
    let mut ids = Vec::from_elem(alloc, 0, count)?;
    for at in 0..order.len() {
        ids[order[at]] = at as u32 + 1;
    }
    Ok(ids)
}
