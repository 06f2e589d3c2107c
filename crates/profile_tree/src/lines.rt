// Counts of hits, and hits by line.
ghost use Rattle.std.specs.Prelude.{◌≡◌, ◌+◌, ◌^◌, ◌<◌, ◌≤◌, IfOk, OnOk, OnErr, position, nat_le};
ghost use Rattle.profile_tree.specs.Node.{put_line};

use code_event::LineTicks;
use prof_base::Memory;

// The greatest number of hits: files have them as numbers of JavaScript.
const MAX_HITS: u64 = (1 << 53) - 1;

/// One more hit, or out of memory past the greatest number.
pub(crate) fn one_more(hits: u64) -> Result<u64, Memory>
    ensures counts { IfOk result (λ more. more ≡ hits + 1) }
    ensures few { IfOk result (λ more. more < 2 ^ 53) }
{
    if hits >= MAX_HITS {
        return Err(Memory);
    }
    Ok(hits + 1)
}

// The first place at which there is the line itself or a greater one.
fn line_place(lines: &[LineTicks], line: u32) -> Option<usize>
    ensures { result ≡ position (λ ticks. nat_le line ticks.line) lines.now }
{
    lines.iter().position(|ticks| line <= ticks.line)
}

/// Counts a hit at a line. When out of memory, it leaves the counts unchanged.
pub(crate) fn put_line(lines: &mut Vec<LineTicks>, line: u32) -> Result<(), Memory>
    ensures ok { OnOk result (lines.new.items ≡ put_line line lines.old.items) }
    ensures err { OnErr result (lines.new.items ≡ lines.old.items) }
{
    let first = LineTicks { line, ticks: 1 };
    match line_place(lines.as_slice(), line) {
        None => lines.push(first)?,
        Some(at) => {
            if lines[at].line == line {
                lines[at].ticks = one_more(lines[at].ticks)?;
            } else {
                lines.insert(at, first)?;
            }
        }
    }
    Ok(())
}
