// Paths that grow by one frame at a time, from the oldest.
ghost use Rattle.std.specs.Prelude.{◌≡◌, OnOk};
ghost use Rattle.symbolizer.specs.Paths.{no_paths, with_frame};

use code_event::{Entry, PathPair, PathStep};
use prof_base::{Memory, Sequence};
use std::alloc::Global;

/// Makes the paths of no frames.
pub(crate) fn no_paths(alloc: Global) -> PathPair
    ensures { result ≡ no_paths }
{
    PathPair {
        leaf: Sequence::new(alloc),
        caller: Sequence::new(alloc),
        leaf_line: 0,
    }
}

/// Appends a frame, which was called from the frame before.
pub(crate) fn push_frame(paths: &mut PathPair, entry: &Entry, line: u32) -> Result<(), Memory>
    ensures { OnOk result (paths.new ≡ with_frame paths.old (record { entry = entry.now; line = line })) }
{
    paths.leaf.push(PathStep {
        entry: entry.copy()?,
        call_line: 0,
    })?;
    paths.caller.push(PathStep {
        entry: entry.copy()?,
        call_line: paths.leaf_line,
    })?;
    paths.leaf_line = line;
    Ok(())
}
