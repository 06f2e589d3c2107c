// The functions of a program's text, before its lines are read.
ghost use Rattle.std.specs.Prelude.{◌≡◌, ℕ, ◌++◌, ◌∷◌, [], List, map, option_map, get_or, IfOk, OnOk};
ghost use Rattle.std.specs.BTreeMap.{get_by};
ghost use Rattle.std.specs.Ordering.{nat_cmp};
ghost use Rattle.std.specs.Cmp.Lexicographic.{slice_cmp};
ghost use Rattle.prof_lines.specs.Lines.{counted};
ghost use Rattle.prof_lines.specs.Words.{word_at};
ghost use Rattle.guest_text.specs.Outline.{Functions, func_label, functions_of, word_or_none};
ghost use Rattle.guest_text.specs.OutlineDraft.{with_instr, functions_with, first_number};

use crate::rule::Rule;
use prof_base::Memory;
use prof_lines::{LineFault, Lines, fixed, word};
use std::alloc::Global;
use std::collections::BTreeMap;
use std::marker::Model;

fn word_or_none(bytes: &[u8]) -> &[u8]
    ensures { result.now ≡ word_or_none (word_at bytes.now) }
{
    let found: Result<(&[u8], &[u8]), LineFault<Rule>> = word(bytes);
    match found {
        Ok((word, _)) => word,
        Err(_) => &[],
    }
}

// The second word of a function's line.
fn func_label(line: &[u8]) -> Option<&[u8]>
    ensures { option_map (λ label. label.now) result ≡ func_label line.now }
{
    let found: Result<&[u8], LineFault<Rule>> = fixed(b"func", line);
    match found {
        Ok(rest) => Some(word_or_none(rest)),
        Err(_) => None,
    }
}

// Adds one instruction to the last function.
fn add_instr(sizes: &mut Vec<u64>) -> Result<(), Memory>
    ensures { OnOk result (sizes.new.items ≡ with_instr sizes.old.items) }
{
    if let Some(size) = sizes.pop() {
        let Some(more) = size.checked_add(1) else {
            return Err(Memory);
        };
        sizes.push(more)?;
    }
    Ok(())
}

// Adds what one line is: a function without instructions, or one more instruction of the last function.
fn add_line<'a>(
    labels: &mut Vec<&'a [u8]>,
    sizes: &mut Vec<u64>,
    line: &'a [u8],
) -> Result<(), Memory>
    ensures { OnOk result ((number : ℕ) (lines : List (ℕ × List ℕ))
        → functions_with (map (λ label. label.now) labels.new.items) sizes.new.items lines
        ≡ functions_with (map (λ label. label.now) labels.old.items) sizes.old.items ((number, line.now) ∷ lines)) }
{
    match func_label(line) {
        Some(label) => {
            labels.push(label)?;
            sizes.push(0)?;
            Ok(())
        }
        None => add_instr(sizes),
    }
}

// The labels and sizes of the functions.
fn listed(alloc: Global, text: &[u8]) -> Result<(Vec<&[u8]>, Vec<u64>), Memory>
    ensures { IfOk result (λ x. record { labels = map (λ label. label.now) x.0.items; sizes = x.1.items } ≡ functions_of (counted text.now)) }
{
    let mut labels = Vec::new(alloc);
    let mut sizes = Vec::new(alloc);
    let mut lines = Lines::new(text);
    while let Some((_, line)) = lines.next() {
        add_line(&mut labels, &mut sizes, line)?;
    }
    Ok((labels, sizes))
}

/// The functions of a text: each line whose first word is `func`, with the lines that follow it up to
/// the next.
#[derive(Drop)]
pub(crate) struct Outline<'a> {
    labels: Vec<&'a [u8]>,
    // The number of the first function with each label.
    numbers: BTreeMap<&'a [u8], usize>,
    sizes: Vec<u64>,
}

impl<'a> Model for Outline<'a> {
    ghost use Rattle.std.specs.Prelude.{◌≡◌, ℕ, List, map};
    ghost use Rattle.std.specs.BTreeMap.{get_by};
    ghost use Rattle.std.specs.Ordering.{nat_cmp};
    ghost use Rattle.std.specs.Cmp.Lexicographic.{slice_cmp};
    ghost use Rattle.guest_text.specs.Outline.{Functions};
    ghost use Rattle.guest_text.specs.OutlineDraft.{first_number};

    ghost Value = { Functions };

    ghost view = { λ o. record { labels = map (λ label. label.now) o.labels.items; sizes = o.sizes.items } };

    ghost invariant = { λ o. (label : List ℕ) → get_by (λ key. slice_cmp nat_cmp label key.now) o.numbers ≡ first_number (map (λ other. other.now) o.labels.items) label };
}

// The number of the first of these labels that each is.
fn numbered<'a>(alloc: Global, labels: &[&'a [u8]]) -> Result<BTreeMap<&'a [u8], usize>, Memory>
    ensures { IfOk result (λ numbers. (label : List ℕ) → get_by (λ key. slice_cmp nat_cmp label key.now) numbers ≡ first_number (map (λ other. other.now) labels.now) label) }
{
    let mut numbers = BTreeMap::new(alloc);
    for (number, label) in labels.iter().enumerate() {
        if !numbers.contains_key(*label) {
            numbers.insert(*label, number)?;
        }
    }
    Ok(numbers)
}

impl<'a> Outline<'a> {
    pub(crate) fn new(alloc: Global, text: &'a [u8]) -> Result<Outline<'a>, Memory>
        ensures { IfOk result (λ outline. outline ≡ functions_of (counted text.now)) }
    {
        let (labels, sizes) = listed(alloc, text)?;
        let numbers = numbered(alloc, labels.as_slice())?;
        Ok(Outline {
            labels,
            numbers,
            sizes,
        })
    }

    /// The number of the first function with this label.
    pub(crate) fn number(&self, label: &[u8]) -> Option<usize>
        ensures { result ≡ first_number self.now.labels label.now }
    {
        self.numbers.get(label).copied()
    }

    /// How many instructions the function with this number has.
    pub(crate) fn size(&self, number: usize) -> u64
        ensures { result ≡ get_or self.now.sizes number 0 }
    {
        self.sizes.get(number).copied().unwrap_or(0)
    }
}
