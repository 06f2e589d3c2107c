// What no clause says: that a tree grows and is listed where memory is there, at the greatest depth.
use crate::values::entry;
use code_event::PathStep;
use prof_base::Sequence;
use profile_tree::Tree;
use std::alloc::Global;
use std::test::Fail;

// A path of that many steps of one function that calls itself.
fn deep(alloc: Global, depth: u32) -> Result<Sequence<PathStep>, Fail> {
    let mut path = Sequence::new(alloc);
    for call_line in 0..depth {
        path.push(PathStep {
            entry: entry(alloc, "f", 1)?,
            call_line,
        })?;
    }
    Ok(path)
}

#[test]
fn a_tree_takes_the_longest_path(rt: HostRuntime) -> Result<(), Fail> {
    let alloc = rt.alloc();
    let longest = deep(alloc, 1275)?;
    let mut tree = Tree::new(alloc)?;
    tree.add(deep(alloc, 2)?.as_slice(), 0, false)?;
    let last = tree.add(longest.as_slice(), 1, true)?;
    let (nodes, samples) = tree.finished([last].as_slice())?;
    assert_eq!(rt; nodes.len(), 1276);
    assert_eq!(rt; samples.as_slice(), [1276].as_slice());
    Ok(())
}
