//! What the program `cpuprof` does with the words of its command line: it makes the real objects and
//! calls the profiler.
#![tactic(auto)]

ghost use Rattle.std.specs.Prelude.{◌≡◌, ◌⊎◌, map, string_bytes};
ghost use Rattle.prof_top.specs.Command.{IsCommand};
ghost use Rattle.prof_top.specs.Status.{IsStatus};

use out_stream::{FileStream, OutputStream};
use prof_outer::{Folder, WriterSink};
use prof_top::cpuprof_once;
use std::io::Write;

/// The exit status when out of memory.
pub const OUT_OF_MEMORY: u8 = 6;

/// The number of the program's stream: its files are `cpuprof-1-1.cpuprofile` and so on.
const STREAM: u8 = 1;

/// Does what the words say, over the files of the current folder. It writes finished files there,
/// prints to `out`, writes the line of error to `err`, and returns the exit status.
pub fn run_words<O: Write + Drop, E: Write + Drop>(
    rt: HostRuntime,
    words: &[String],
    out: O,
    err: E,
) -> u8
    ensures status { IsStatus result }
    ensures usage { result ≡ 1 → ¬ IsCommand (map string_bytes words.now) }
    ensures command { (result ≡ 1) ⊎ ((result ≡ 6) ⊎ IsCommand (map string_bytes words.now)) }
{
    let alloc = rt.alloc();
    let Ok(files) = Box::new(alloc, FileStream::new(rt, STREAM)) else {
        return OUT_OF_MEMORY;
    };
    let stream: Box<dyn OutputStream + Send> = files;
    let mut depot = Folder::new(rt);
    let mut out = WriterSink::new(out);
    let mut err = WriterSink::new(err);
    cpuprof_once(alloc, words, &mut depot, stream, &mut out, &mut err).status
}
