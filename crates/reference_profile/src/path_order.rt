// The order of paths.
ghost use Rattle.std.specs.Prelude.{◌≡◌};
ghost use Rattle.code_event.specs.Tree.{text_cmp, path_step_cmp, path_cmp, is_before, same_path};

use code_event::PathStep;
use prof_base::Text;
use std::cmp::Ordering;

fn text_cmp(one: &Text, other: &Text) -> Ordering
    ensures { result ≡ text_cmp one.now other.now }
{
    one.bytes().cmp(&other.bytes())
}

fn path_step_cmp(one: &PathStep, other: &PathStep) -> Ordering
    ensures { result ≡ path_step_cmp one.now other.now }
{
    text_cmp(&one.entry.name, &other.entry.name)
        .then(text_cmp(&one.entry.url, &other.entry.url))
        .then(one.entry.script.cmp(&other.entry.script))
        .then(one.entry.line.cmp(&other.entry.line))
        .then(one.entry.column.cmp(&other.entry.column))
        .then(one.call_line.cmp(&other.call_line))
}

// Compares paths by the first step that differs; a proper prefix comes first.
fn path_cmp(one: &[PathStep], other: &[PathStep]) -> Ordering
    ensures { result ≡ path_cmp one.now other.now }
{
    for at in 0..one.len().min(other.len()) {
        let order = path_step_cmp(&one[at], &other[at]);
        if order.is_ne() {
            return order;
        }
    }
    one.len().cmp(&other.len())
}

pub(crate) fn is_before(one: &[PathStep], other: &[PathStep]) -> bool
    ensures { result ≡ is_before one.now other.now }
{
    path_cmp(one, other).is_lt()
}

pub(crate) fn same_path(one: &[PathStep], other: &[PathStep]) -> bool
    ensures { result ≡ same_path one.now other.now }
{
    path_cmp(one, other).is_eq()
}
