// The order of steps.
ghost use Rattle.std.specs.Prelude.{◌≡◌};
ghost use Rattle.code_event.specs.Tree.{text_cmp, path_step_cmp};
ghost use Rattle.profile_tree.specs.Node.{step_order};

use code_event::PathStep;
use prof_base::Text;
use std::cmp::Ordering;

fn text_cmp(one: &Text, other: &Text) -> Ordering
    ensures { result ≡ text_cmp one.now other.now }
{
    one.bytes().cmp(&other.bytes())
}

fn path_step_cmp(one: &PathStep, other: &PathStep) -> Ordering
    ensures { result ≡ path_step_cmp one.now other.now }
{
    text_cmp(&one.entry.name, &other.entry.name)
        .then(text_cmp(&one.entry.url, &other.entry.url))
        .then(one.entry.script.cmp(&other.entry.script))
        .then(one.entry.line.cmp(&other.entry.line))
        .then(one.entry.column.cmp(&other.entry.column))
        .then(one.call_line.cmp(&other.call_line))
}

/// How a step compares with a node's, which the root has not.
pub(crate) fn step_order(step: &PathStep, other: &Option<PathStep>) -> Ordering
    ensures { result ≡ step_order step.now other.now }
{
    match other {
        None => Ordering::Greater,
        Some(other) => path_step_cmp(step, other),
    }
}
