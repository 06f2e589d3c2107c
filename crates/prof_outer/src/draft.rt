// Files that are written under a name of their own before they take the place of another.
ghost use Rattle.std.specs.Prelude.{◌≡◌, ◌↔◌, IfOk, string_bytes};
ghost use Rattle.std.specs.IoError.{error_kind};
ghost use Rattle.prof_base.specs.Text.{IsText};
ghost use Rattle.prof_outer.specs.FileName.{draft_name};

use crate::depot::PutFault;
use crate::real::write_and_flush;
use prof_base::Memory;
use std::alloc::Global;
use std::fs::{File, OpenFile};
use std::io::ErrorKind;
use std::rt::Files;
use std::{fs, io};

/// How many drafts a folder may have at once. A program that is cut off may leave one.
const DRAFTS: u32 = 100;

// A new file and its name.
#[derive(Drop)]
struct Draft<F: Drop> {
    name: String,
    file: F,
}

// Returns the fault that an error of the system means for a file that is put.
fn put_fault_of(error: &io::Error) -> PutFault
    ensures { (result ≡ PutFault.Memory) ↔ (error_kind error.now ≡ ErrorKind.OutOfMemory) }
{
    match error.kind() {
        ErrorKind::OutOfMemory => PutFault::Memory,
        _ => PutFault::Failed,
    }
}

// Returns the name of a draft, which no file that is put has.
fn draft_name(alloc: Global, number: u32) -> Result<String, Memory>
    ensures name { IfOk result (λ name. string_bytes name ≡ draft_name number) }
    ensures no_text { IfOk result (λ name. ¬ IsText (string_bytes name)) }
{
    Ok(format!(in alloc; "cpuprof-draft-{number}\x7f")?)
}

// Makes the first draft whose name is free.
fn new_draft<R: Files>(rt: &R, alloc: Global) -> Result<Draft<R::File>, PutFault> {
    for number in 0..DRAFTS {
        let name = draft_name(alloc, number)?;
        match File::create_new(rt, name.as_str()) {
            Ok(file) => return Ok(Draft { name, file }),
            Err(error) if error.kind() == ErrorKind::AlreadyExists => {}
            Err(error) => return Err(put_fault_of(&error)),
        }
    }
    Err(PutFault::Failed)
}

// Writes the bytes to the draft, and then gives it the name.
fn finish<R: Files>(
    rt: &R,
    draft: &mut Draft<R::File>,
    name: &str,
    bytes: &[u8],
) -> io::Result<()> {
    write_and_flush(&mut draft.file, bytes)?;
    draft.file.sync_all()?;
    fs::rename(rt, draft.name.as_str(), name)
}

// Puts the bytes under the name by a draft, and leaves no draft.
pub(crate) fn put_by_draft<R: Files>(
    rt: &R,
    alloc: Global,
    name: &str,
    bytes: &[u8],
) -> Result<(), PutFault> {
    let mut draft = new_draft(rt, alloc)?;
    match finish(rt, &mut draft, name, bytes) {
        Ok(()) => Ok(()),
        Err(error) => {
            let _ = fs::remove_file(rt, draft.name.as_str());
            Err(put_fault_of(&error))
        }
    }
}
