// The search for a step among the children of a node.
ghost use Rattle.std.specs.Prelude.{◌≡◌, ◌<◌, length, IfSome, nat_lt};
ghost use Rattle.std.specs.List.{AllPass};
ghost use Rattle.profile_tree.specs.Arena.{node_at};
ghost use Rattle.profile_tree.specs.Linked.{Linked};
ghost use Rattle.profile_tree.specs.Children.{IsByStep, IsPlace};

use crate::arena::Arena;
use crate::steps::step_order;
use code_event::PathStep;
use std::cmp::Ordering;

/// Where a step is among the children of a node.
pub(crate) enum Place {
    /// It is the step of the child with this key.
    At(usize),
    /// It is no child's, and its place is before the child with this index.
    New(usize),
}

/// The child of the last visit, if it is by this step.
pub(crate) fn last_child(nodes: &Arena, parent: usize, step: &PathStep) -> Option<usize>
    requires linked { Linked nodes.now }
    requires within { parent < length nodes.now }
    ensures { IfSome result (IsByStep nodes.now parent step.now) }
{
    let child = nodes.get(parent).last()?;
    if step_order(step, nodes.get(child).step()).is_eq() {
        Some(child)
    } else {
        None
    }
}

/// The place of a step among the children, which are in the order of their steps.
pub(crate) fn child_place(nodes: &Arena, parent: usize, step: &PathStep) -> Place
    requires linked { Linked nodes.now }
    requires within { parent < length nodes.now }
    ensures { IsPlace nodes.now parent step.now result }
{
    let children = nodes.get(parent).children();
    for at in 0..children.len() {
        let child = children[at];
        match step_order(step, nodes.get(child).step()) {
            Ordering::Less => return Place::New(at),
            Ordering::Equal => return Place::At(child),
            Ordering::Greater => {}
        }
    }
    Place::New(children.len())
}
