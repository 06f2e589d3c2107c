// The texts that the words name, read from the depot.
ghost use Rattle.std.specs.Prelude.{◌≡◌, ◌≤◌, ℕ, List, IfOk, OnOk, IfErr, IfSome, Some, map, string_bytes};
ghost use Rattle.prof_outer.specs.Files.{file_at};
ghost use Rattle.prof_top.specs.Asked.{guest_program, item_list, asked_as, MayRead};
ghost use Rattle.prof_top.specs.Causes.{IsUnreadAs, IsStoppedAs, IsReadable};
ghost use Rattle.prof_top.specs.Command.{Means};
ghost use Rattle.prof_top.specs.Ending.{ending_of};
ghost use Rattle.prof_top.specs.Said.{IsNamed};
ghost use Rattle.prof_top.specs.Task.{IsProgramRead, IsListRead, IsLoaded, IsReady};

use crate::ending::Ending;
use crate::words::{CommandLine, RunOptions, WordsRefused, command_line};
use guest_program::Program;
use guest_text::{ProgramCause, ProgramRefused, read_program};
use item_text::{ItemList, read_items};
use prof_base::Text;
use prof_outer::{Depot, GetFault};
use record_text::{LineCause, ReadRefused};
use std::alloc::Global;

/// Why no text was read under a name. The line of a refused text is that of its first fault, counted
/// from 1.
#[derive(Clone, Copy, Debug, PartialEq, Eq)]
pub enum Unread {
    /// There is no file with the name.
    Missing,
    /// The file could not be read.
    CannotRead,
    /// Its text is no program.
    ProgramRefused { line: u32, cause: ProgramCause },
    /// Its text is no item list.
    ItemsRefused { line: u32, cause: LineCause },
    /// Out of memory.
    Memory,
}

/// What a command line asks to be done, with the texts that it names.
#[derive(Drop)]
pub enum Task {
    /// The program is run.
    Run {
        program: Program,
        options: RunOptions,
    },
    /// The files of the item list are delivered.
    Fold {
        list: ItemList,
    },
}

// Gets the bytes of the file with a name.
fn text_under<D: Depot>(alloc: Global, depot: &mut D, name: &Text) -> Result<Vec<u8>, Unread>
    ensures ok { IfOk result (λ text. IfSome (D.held depot.old) (λ files. file_at files name.now ≡ Some text.items)) }
    ensures program { IfErr result (λ u. IsUnreadAs (D.held depot.old) (asked_as guest_program name.now) (D.misses depot.old) (D.misses depot.new) (D.read_faults depot.old) (D.read_faults depot.new) u) }
    ensures items { IfErr result (λ u. IsUnreadAs (D.held depot.old) (asked_as item_list name.now) (D.misses depot.old) (D.misses depot.new) (D.read_faults depot.old) (D.read_faults depot.new) u) }
    ensures held { D.held depot.new ≡ D.held depot.old }
    ensures misses { D.misses depot.old ≤ D.misses depot.new }
    ensures read_faults { D.read_faults depot.old ≤ D.read_faults depot.new }
    ensures write_faults { D.write_faults depot.new ≡ D.write_faults depot.old }
{
    match depot.get(alloc, name) {
        Ok(text) => Ok(text),
        Err(GetFault::Missing) => Err(Unread::Missing),
        Err(GetFault::Failed) => Err(Unread::CannotRead),
        Err(GetFault::Memory) => Err(Unread::Memory),
    }
}

// Reads the program under a name.
fn program_under<D: Depot>(alloc: Global, depot: &mut D, name: &Text) -> Result<Program, Unread>
    ensures ok { OnOk result (MayRead (D.held depot.old) (asked_as guest_program name.now)) }
    ensures read { IfOk result (λ program. IsProgramRead (D.held depot.old) name.now program) }
    ensures err { IfErr result (λ u. IsUnreadAs (D.held depot.old) (asked_as guest_program name.now) (D.misses depot.old) (D.misses depot.new) (D.read_faults depot.old) (D.read_faults depot.new) u) }
    ensures held { D.held depot.new ≡ D.held depot.old }
    ensures misses { D.misses depot.old ≤ D.misses depot.new }
    ensures read_faults { D.read_faults depot.old ≤ D.read_faults depot.new }
    ensures write_faults { D.write_faults depot.new ≡ D.write_faults depot.old }
{
    let text = text_under(alloc, depot, name)?;
    match read_program(alloc, &text) {
        Ok(program) => Ok(program),
        Err(ProgramRefused::At { line, cause }) => Err(Unread::ProgramRefused { line, cause }),
        Err(ProgramRefused::Memory) => Err(Unread::Memory),
    }
}

// Reads the item list under a name.
fn list_under<D: Depot>(alloc: Global, depot: &mut D, name: &Text) -> Result<ItemList, Unread>
    ensures ok { OnOk result (MayRead (D.held depot.old) (asked_as item_list name.now)) }
    ensures read { IfOk result (λ list. IsListRead (D.held depot.old) name.now list) }
    ensures err { IfErr result (λ u. IsUnreadAs (D.held depot.old) (asked_as item_list name.now) (D.misses depot.old) (D.misses depot.new) (D.read_faults depot.old) (D.read_faults depot.new) u) }
    ensures held { D.held depot.new ≡ D.held depot.old }
    ensures misses { D.misses depot.old ≤ D.misses depot.new }
    ensures read_faults { D.read_faults depot.old ≤ D.read_faults depot.new }
    ensures write_faults { D.write_faults depot.new ≡ D.write_faults depot.old }
{
    let text = text_under(alloc, depot, name)?;
    match read_items(alloc, &text) {
        Ok(list) => Ok(list),
        Err(ReadRefused::At { line, cause }) => Err(Unread::ItemsRefused { line, cause }),
        Err(ReadRefused::Memory) => Err(Unread::Memory),
    }
}

// Returns how the call ends where no text was read under the name.
fn ending_of(unread: Unread, name: Text) -> Ending
    ensures { result ≡ ending_of unread name }
{
    match unread {
        Unread::Missing => Ending::Missing { name },
        Unread::CannotRead => Ending::CannotRead { name },
        Unread::ProgramRefused { line, cause } => Ending::ProgramRefused { name, line, cause },
        Unread::ItemsRefused { line, cause } => Ending::ItemsRefused { line, cause },
        Unread::Memory => Ending::Memory,
    }
}

// Reads what a command line names, or returns how the call ends.
fn load_line<D: Depot>(alloc: Global, line: CommandLine, depot: &mut D) -> Result<Task, Ending>
    ensures ok { OnOk result ((words : List (List ℕ)) → Means words line → IsReadable words (D.held depot.old)) }
    ensures read { IfOk result (λ task. (words : List (List ℕ)) → Means words line → IsLoaded words (D.held depot.old) task) }
    ensures ready { IfOk result (λ task. (words : List (List ℕ)) → Means words line → IsReady task) }
    ensures named { IfErr result (λ ending. (words : List (List ℕ)) → Means words line → IsNamed words (D.held depot.old) ending) }
    ensures err { IfErr result (λ ending. (words : List (List ℕ)) → Means words line → IsStoppedAs words (D.held depot.old) (D.misses depot.old) (D.misses depot.new) (D.read_faults depot.old) (D.read_faults depot.new) ending) }
    ensures held { D.held depot.new ≡ D.held depot.old }
    ensures misses { D.misses depot.old ≤ D.misses depot.new }
    ensures read_faults { D.read_faults depot.old ≤ D.read_faults depot.new }
    ensures write_faults { D.write_faults depot.new ≡ D.write_faults depot.old }
{
    match line {
        CommandLine::Run {
            program: name,
            every,
            limits,
        } => match program_under(alloc, depot, &name) {
            Ok(program) => Ok(Task::Run {
                program,
                options: RunOptions::new(every, limits),
            }),
            Err(unread) => Err(ending_of(unread, name)),
        },
        CommandLine::Fold { items: name } => match list_under(alloc, depot, &name) {
            Ok(list) => Ok(Task::Fold { list }),
            Err(unread) => Err(ending_of(unread, name)),
        },
    }
}

/// Reads what the words ask for, or returns how the call ends without it.
pub(crate) fn load<D: Depot>(alloc: Global, words: &[String], depot: &mut D) -> Result<Task, Ending>
    ensures ok { OnOk result (IsReadable (map string_bytes words.now) (D.held depot.old)) }
    ensures read { IfOk result (λ task. IsLoaded (map string_bytes words.now) (D.held depot.old) task) }
    ensures ready { IfOk result IsReady }
    ensures named { IfErr result (λ ending. IsNamed (map string_bytes words.now) (D.held depot.old) ending) }
    ensures err { IfErr result (λ ending. IsStoppedAs (map string_bytes words.now) (D.held depot.old) (D.misses depot.old) (D.misses depot.new) (D.read_faults depot.old) (D.read_faults depot.new) ending) }
    ensures held { D.held depot.new ≡ D.held depot.old }
    ensures misses { D.misses depot.old ≤ D.misses depot.new }
    ensures read_faults { D.read_faults depot.old ≤ D.read_faults depot.new }
    ensures write_faults { D.write_faults depot.new ≡ D.write_faults depot.old }
{
    match command_line(alloc, words) {
        Ok(line) => load_line(alloc, line, depot),
        Err(WordsRefused::Usage) => Err(Ending::Usage),
        Err(WordsRefused::Memory) => Err(Ending::Memory),
    }
}
