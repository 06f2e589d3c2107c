// The tree of a profile.
ghost use Rattle.std.specs.Prelude.{◌≡◌, map, position, IfOk, OnOk};
ghost use Rattle.std.specs.Ordering.{nat_cmp};
ghost use Rattle.prof_base.specs.Ordered.{insert_sorted, stops};
ghost use Rattle.code_event.specs.Tree.{path_cmp, prefixes, with_paths, nodes, id_of, hits, hits_at, hits_node, hit_lines, line_ticks, is_below, children, node_entry, fin_node};
ghost use Rattle.code_event.specs.CodeMap.{same_entry};
ghost use Rattle.code_event.specs.DeoptReasons.{reasons_in};

use crate::path_order::{is_before, same_path};
use crate::symbolizer::special;
use code_event::{DeoptReason, Entry, FinNode, LineTicks, PathStep, Visit};
use prof_base::{Memory, Sequence, Text};
use std::alloc::Global;

fn copy_path(alloc: Global, path: &[PathStep]) -> Result<Sequence<PathStep>, Memory>
    ensures { IfOk result (λ copy. copy ≡ path.now) }
{
    let mut copy = Sequence::new(alloc);
    for step in path {
        copy.push(step.copy()?)?;
    }
    Ok(copy)
}

// Finds the first place in a set at which there is the path itself or a later one.
fn path_place(set: &[Sequence<PathStep>], path: &[PathStep]) -> Option<usize>
    ensures { result ≡ position (stops path_cmp path.now) set.now }
{
    set.iter().position(|other| {
        is_before(path, other.as_slice()) || same_path(path, other.as_slice())
    })
}

// Puts a path into a set of paths, each once and in order.
fn put_path(
    alloc: Global,
    set: &mut Vec<Sequence<PathStep>>,
    path: &[PathStep],
) -> Result<(), Memory>
    ensures { OnOk result (set.new.items ≡ insert_sorted path_cmp path.now set.old.items) }
{
    match path_place(set.as_slice(), path) {
        None => set.push(copy_path(alloc, path)?)?,
        Some(at) => {
            if !same_path(path, set[at].as_slice()) {
                set.insert(at, copy_path(alloc, path)?)?;
            }
        }
    }
    Ok(())
}

// Puts all prefixes of a path into a set, the longest first.
fn put_prefixes(
    alloc: Global,
    set: &mut Vec<Sequence<PathStep>>,
    path: &[PathStep],
) -> Result<(), Memory>
    ensures { OnOk result (set.new.items ≡ with_paths (prefixes path.now) set.old.items) }
{
    put_path(alloc, set, path)?;
    for len in (0..path.len()).rev() {
        put_path(alloc, set, &path[..len])?;
    }
    Ok(())
}

/// Returns the nodes of a tree: all prefixes of all paths, each once and in order.
pub(crate) fn nodes(alloc: Global, visits: &[Visit]) -> Result<Vec<Sequence<PathStep>>, Memory>
    ensures { IfOk result (λ set. set.items ≡ nodes visits.now) }
{
    let mut set = Vec::new(alloc);
    set.push(Sequence::new(alloc))?;
    for at in (0..visits.len()).rev() {
        put_prefixes(alloc, &mut set, visits[at].path.as_slice())?;
    }
    Ok(set)
}

/// Returns a node's id: one more than the number of nodes before it. It answers out of memory where
/// there are more nodes than ids.
pub(crate) fn id_of(nodes: &[Sequence<PathStep>], node: &[PathStep]) -> Result<u32, Memory>
    ensures { IfOk result (λ id. id ≡ id_of nodes.now node.now) }
{
    let before = nodes
        .iter()
        .filter(|other| is_before(other.as_slice(), node))
        .count();
    match u32::try_from(before) {
        Ok(before) => before.checked_add(1).ok_or(Memory),
        Err(_) => Err(Memory),
    }
}

// Returns whether a tick is a hit of a node.
fn hits_node(node: &[PathStep], visit: &Visit) -> bool
    ensures { result ≡ hits_node node.now visit.now }
{
    visit.hit && same_path(visit.path.as_slice(), node)
}

// Returns how many hits a node has.
fn hits(visits: &[Visit], node: &[PathStep]) -> u64
    ensures { result ≡ hits visits.now node.now }
{
    visits.iter().filter(|visit| hits_node(node, visit)).count() as u64
}

// Returns how many of a node's hits were at this line.
fn hits_at(visits: &[Visit], node: &[PathStep], line: u32) -> u64
    ensures { result ≡ hits_at visits.now node.now line }
{
    visits
        .iter()
        .filter(|visit| hits_node(node, visit) && visit.line == line)
        .count() as u64
}

// Returns whether a node is directly below another.
fn is_below(parent: &[PathStep], node: &[PathStep]) -> bool
    ensures { result ≡ is_below parent.now node.now }
{
    if node.len() <= parent.len() {
        return false;
    }
    node.len() - parent.len() == 1 && same_path(&node[..parent.len()], parent)
}

// Returns the ids of the nodes directly below one, in order.
fn children(
    alloc: Global,
    nodes: &[Sequence<PathStep>],
    parent: &[PathStep],
) -> Result<Sequence<u32>, Memory>
    ensures { IfOk result (λ ids. ids ≡ children nodes.now parent.now) }
{
    let mut ids = Sequence::new(alloc);
    for node in nodes {
        if is_below(parent, node.as_slice()) {
            ids.push(id_of(nodes, node.as_slice())?)?;
        }
    }
    Ok(ids)
}

// Finds the first place in a set of numbers at which there is the number itself or a greater one.
fn number_place(numbers: &[u32], number: u32) -> Option<usize>
    ensures { result ≡ position (stops nat_cmp number) numbers.now }
{
    numbers.iter().position(|other| number.cmp(other).is_le())
}

// Puts a number into a set of numbers, each once and in rising order.
fn put_number(numbers: &mut Vec<u32>, number: u32) -> Result<(), Memory>
    ensures { OnOk result (numbers.new.items ≡ insert_sorted nat_cmp number numbers.old.items) }
{
    match number_place(numbers.as_slice(), number) {
        None => numbers.push(number)?,
        Some(at) => {
            if numbers[at] != number {
                numbers.insert(at, number)?;
            }
        }
    }
    Ok(())
}

// Returns the lines above 0 of a node's hits, each once and in rising order.
fn hit_lines(alloc: Global, visits: &[Visit], node: &[PathStep]) -> Result<Vec<u32>, Memory>
    ensures { IfOk result (λ lines. lines.items ≡ hit_lines visits.now node.now) }
{
    let mut lines = Vec::new(alloc);
    for at in (0..visits.len()).rev() {
        let visit = &visits[at];
        if hits_node(node, visit) && visit.line > 0 {
            put_number(&mut lines, visit.line)?;
        }
    }
    Ok(lines)
}

// Returns the hits of a node by its lines.
fn line_ticks(
    alloc: Global,
    visits: &[Visit],
    node: &[PathStep],
) -> Result<Sequence<LineTicks>, Memory>
    ensures { IfOk result (λ ticks. ticks ≡ line_ticks visits.now node.now) }
{
    let lines = hit_lines(alloc, visits, node)?;
    let mut ticks = Sequence::new(alloc);
    for line in lines.as_slice() {
        ticks.push(LineTicks {
            line: *line,
            ticks: hits_at(visits, node, *line),
        })?;
    }
    Ok(ticks)
}

// Returns what a node is named by: its last step, or the root.
fn node_entry(alloc: Global, node: &[PathStep]) -> Result<Entry, Memory>
    ensures { IfOk result (λ entry. entry ≡ node_entry node.now) }
{
    match node {
        [] => special(alloc, "(root)"),
        [.., last] => last.entry.copy(),
    }
}

fn same_entry(one: &Entry, other: &Entry) -> bool
    ensures { result ≡ same_entry one.now other.now }
{
    one.name.same(&other.name)
        && one.url.same(&other.url)
        && one.script == other.script
        && one.line == other.line
        && one.column == other.column
}

// Returns the reason of an entry: the first that the list has for it.
fn reason_of(reasons: &[DeoptReason], entry: &Entry) -> Result<Option<Text>, Memory>
    ensures { IfOk result (λ reason. reason ≡ reasons_in reasons.now entry.now) }
{
    for reason in reasons {
        if same_entry(entry, &reason.entry) {
            return Ok(Some(reason.reason.copy()?));
        }
    }
    Ok(None)
}

fn fin_node(
    alloc: Global,
    nodes: &[Sequence<PathStep>],
    visits: &[Visit],
    reasons: &[DeoptReason],
    node: &[PathStep],
) -> Result<FinNode, Memory>
    ensures { IfOk result (λ finished. finished ≡ fin_node nodes.now visits.now (reasons_in reasons.now) node.now) }
{
    let entry = node_entry(alloc, node)?;
    let reason = reason_of(reasons, &entry)?;
    Ok(FinNode {
        entry,
        reason,
        hits: hits(visits, node),
        children: children(alloc, nodes, node)?,
        lines: line_ticks(alloc, visits, node)?,
    })
}

/// Returns the finished nodes, in order, with the reasons in a list: the first of an entry counts.
pub(crate) fn fin_nodes(
    alloc: Global,
    nodes: &[Sequence<PathStep>],
    visits: &[Visit],
    reasons: &[DeoptReason],
) -> Result<Sequence<FinNode>, Memory>
    ensures { IfOk result (λ finished. finished ≡ map (fin_node nodes.now visits.now (reasons_in reasons.now)) nodes.now) }
{
    let mut finished = Sequence::new(alloc);
    for node in nodes {
        finished.push(fin_node(alloc, nodes, visits, reasons, node.as_slice())?)?;
    }
    Ok(finished)
}
