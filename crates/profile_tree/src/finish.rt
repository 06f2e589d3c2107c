// Finished nodes.
ghost use Rattle.std.specs.Prelude.{◌≡◌, ◌<◌, length, map, codes, slice_index, IfOk};
ghost use Rattle.std.specs.List.{All};
ghost use Rattle.code_event.specs.Symbolizer.{special};
ghost use Rattle.profile_tree.specs.Node.{step_entry};
ghost use Rattle.profile_tree.specs.Arena.{node_at};
ghost use Rattle.profile_tree.specs.Linked.{Linked};
ghost use Rattle.profile_tree.specs.Walk.{finished_node};

use crate::arena::Arena;
use crate::node::Node;
use crate::node_ref::NodeRef;
use code_event::{Entry, FinNode, PathStep};
use prof_base::{Memory, Sequence, Text};
use std::alloc::Global;

fn root_entry(alloc: Global) -> Result<Entry, Memory>
    ensures { IfOk result (λ entry. entry ≡ special (codes "(root)")) }
{
    let (Ok(name), Ok(url)) = (Text::new(alloc, b"(root)"), Text::new(alloc, b"")) else {
        return Err(Memory);
    };
    Ok(Entry {
        name,
        url,
        script: 0,
        line: 0,
        column: 0,
    })
}

// What a node is named by: its last step, or the root.
fn step_entry(alloc: Global, step: &Option<PathStep>) -> Result<Entry, Memory>
    ensures { IfOk result (λ entry. entry ≡ step_entry step.now) }
{
    match step {
        None => root_entry(alloc),
        Some(step) => step.entry.copy(),
    }
}

// The ids of some keys.
fn ids_of(alloc: Global, ids: &[u32], keys: &[usize]) -> Result<Sequence<u32>, Memory>
    requires { All (λ key. key < length ids.now) keys.now }
    ensures { IfOk result (λ some. some ≡ map (slice_index ids.now) keys.now) }
{
    let mut some = Sequence::new(alloc);
    for key in keys {
        some.push(ids[*key])?;
    }
    Ok(some)
}

fn finished_node(alloc: Global, ids: &[u32], node: &Node) -> Result<FinNode, Memory>
    requires { All (λ key. key < length ids.now) node.now.children }
    ensures { IfOk result (λ finished. finished ≡ finished_node ids.now node.now) }
{
    Ok(FinNode {
        entry: step_entry(alloc, node.step())?,
        reason: None,
        hits: node.hits(),
        children: ids_of(alloc, ids, node.children())?,
        lines: Sequence::from_vec(node.lines().to_vec(alloc)?),
    })
}

/// The finished nodes in an order, with these ids.
pub(crate) fn finished_nodes(
    alloc: Global,
    nodes: &Arena,
    order: &[usize],
    ids: &[u32],
) -> Result<Sequence<FinNode>, Memory>
    requires linked { Linked nodes.now }
    requires within { All (λ key. key < length nodes.now) order.now }
    requires ids { length ids.now ≡ length nodes.now }
    ensures { IfOk result (λ finished. finished ≡ map (λ key. finished_node ids.now (node_at nodes.now key)) order.now) }
{
    let mut finished = Sequence::new(alloc);
    for key in order {
        finished.push(finished_node(alloc, ids, nodes.get(*key))?)?;
    }
    Ok(finished)
}

/// The ids of the nodes that references name.
pub(crate) fn sample_ids(
    alloc: Global,
    ids: &[u32],
    samples: &[NodeRef],
) -> Result<Sequence<u32>, Memory>
    requires { All (λ reference. reference.key < length ids.now) samples.now }
    ensures { IfOk result (λ some. some ≡ map (λ reference. slice_index ids.now reference.key) samples.now) }
{
    let mut some = Sequence::new(alloc);
    for reference in samples {
        some.push(ids[reference.key])?;
    }
    Ok(some)
}
