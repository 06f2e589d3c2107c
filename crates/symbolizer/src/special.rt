// Frames that are no functions.
ghost use Rattle.std.specs.Prelude.{◌≡◌, IfOk};
ghost use Rattle.prof_base.specs.Text.{IsText};
ghost use Rattle.code_event.specs.Symbolizer.{special, special_frame};
ghost use Rattle.symbolizer.specs.Paths.{paths_of};

use crate::frame::{no_paths, push_frame};
use code_event::{Entry, PathPair};
use prof_base::{Memory, Text, TextRefused};
use std::alloc::Global;

/// Makes a text that is short and printable, so that only memory can be refused.
fn text_of(alloc: Global, text: &str) -> Result<Text, Memory>
    requires { IsText text.now }
    ensures { IfOk result (λ copy. copy ≡ text.now) }
{
    match Text::new(alloc, text.as_bytes()) {
        Ok(text) => Ok(text),
        Err(TextRefused::Memory) => Err(Memory),
        Err(TextRefused::TooLong | TextRefused::NotPrintable { .. }) => unreachable!(),
    }
}

/// Makes an entry that is no function, as V8 names it.
fn special(alloc: Global, name: &str) -> Result<Entry, Memory>
    requires { IsText name.now }
    ensures { IfOk result (λ entry. entry ≡ special name.now) }
{
    Ok(Entry {
        name: text_of(alloc, name)?,
        url: text_of(alloc, "")?,
        script: 0,
        line: 0,
        column: 0,
    })
}

/// Makes the paths of a tick that names no function.
pub(crate) fn special_paths(alloc: Global, name: &str) -> Result<PathPair, Memory>
    requires { IsText name.now }
    ensures { IfOk result (λ paths. paths ≡ paths_of (special_frame name.now)) }
{
    let entry = special(alloc, name)?;
    let mut paths = no_paths(alloc);
    push_frame(&mut paths, &entry, 0)?;
    Ok(paths)
}
