// A program as its text is read.
ghost use Rattle.std.specs.Prelude.{◌≡◌, ℕ, ◌<◌, ◌≤◌, List, [], ◌∷◌, ◌++◌, length, IfOk};
ghost use Rattle.prof_lines.specs.Answers.{Gives};
ghost use Rattle.guest_text.specs.declared.program_line.ProgramLine.TheVariants as line;
ghost use Rattle.guest_text.specs.Outline.{size_after};
ghost use Rattle.prof_lines.specs.Values.{kept};
ghost use Rattle.guest_text.specs.ProgramLine.{IsHead};
ghost use Rattle.guest_text.specs.ProgramRules.{heads, is_twice, func_breaks_limit, program_fault, program_next};
ghost use Rattle.guest_text.specs.ProgramText.{head_of, program_lines};
ghost use Rattle.guest_text.specs.Draft.{entry_key, func_of, draft_funcs};

use crate::line_form::line;
use crate::outline::Outline;
use crate::program_line::{Head, ProgramLine};
use crate::rule::Rule;
use crate::word_set::WordSet;
use crate::writing::entry_key;
use guest_program::{Func, Instr, Program};
use prof_base::{Memory, Sequence};
use prof_lines::{Cause, LineFault};
use std::alloc::Global;
use std::marker::Model;

/// The lines read so far. They are kept as the functions that they make.
#[derive(Drop)]
pub(crate) struct Draft {
    labels: WordSet,
    // The entries, each as one word.
    entries: WordSet,
    done: Vec<Func>,
    // The last function, whose instructions are being read.
    last: Option<Func>,
}

impl Model for Draft {
    ghost use Rattle.std.specs.Prelude.{List};
    ghost use Rattle.guest_text.specs.declared.program_line.ProgramLine.{ProgramLine};
    ghost use Rattle.guest_text.specs.Draft.{draft_lines, IsDraft};

    ghost Value = { List ProgramLine };

    ghost view = { λ d. draft_lines d.done.items d.last };

    ghost invariant = { λ d. IsDraft d.labels d.entries d.done.items d.last };
}

// A function with this line and no instructions yet.
fn begun(alloc: Global, head: Head) -> Func
    ensures { result ≡ func_of head [] }
{
    Func {
        label: head.label,
        name: head.name,
        url: head.url,
        script: head.script,
        line: head.line,
        column: head.column,
        inline: head.inline,
        body: Sequence::new(alloc),
    }
}

// The function with one more instruction.
fn with_instr(func: Func, instr: Instr) -> Result<Func, Memory>
    ensures { IfOk result (λ more. more ≡ func_of (head_of func) (func.body ++ instr ∷ [])) }
{
    let mut func = func;
    func.body.push(instr)?;
    Ok(func)
}

// The functions that are whole, and the one that is being read.
fn closed(done: Vec<Func>, last: Option<Func>) -> Result<Vec<Func>, Memory>
    ensures { IfOk result (λ funcs. funcs.items ≡ draft_funcs done.items last) }
{
    let mut done = done;
    if let Some(func) = last {
        done.push(func)?;
    }
    Ok(done)
}

impl Draft {
    pub(crate) fn new(alloc: Global) -> Draft
        ensures { result ≡ [] }
    {
        Draft {
            labels: WordSet::new(alloc),
            entries: WordSet::new(alloc),
            done: Vec::new(alloc),
            last: None,
        }
    }

    /// Returns the functions that the lines make.
    pub(crate) fn into_funcs(self) -> Result<Vec<Func>, Memory>
        ensures lines { IfOk result (λ funcs. program_lines funcs.items ≡ self) }
        ensures few { IfOk result (λ funcs. length funcs.items ≤ Program.MAX_FUNCS) }
    {
        closed(self.done, self.last)
    }

    // How many functions there are.
    fn number(&self) -> usize
        ensures { result ≡ length (heads self.now) }
    {
        match &self.last {
            None => self.done.len(),
            Some(_) => self.done.len() + 1,
        }
    }

    // How many instructions the last function has in all.
    fn size(&self, outline: &Outline) -> Option<u64>
        ensures { result ≡ size_after outline.now.sizes (length (heads self.now)) }
    {
        match &self.last {
            None => None,
            Some(_) => Some(outline.size(self.done.len())),
        }
    }

    // Whether a function has this label, or this entry as one word.
    fn is_twice(&self, head: &Head, label: &[u8], entry: &[u8]) -> bool
        requires head { IsHead head.now }
        requires label { label.now ≡ head.now.label }
        requires entry { entry.now ≡ entry_key head.now }
        ensures { result ≡ is_twice head.now (heads self.now) }
    {
        self.labels.contains(label) || self.entries.contains(entry)
    }

    fn func_breaks_limit(&self, outline: &Outline) -> bool
        ensures { result ≡ func_breaks_limit outline.now.sizes (length (heads self.now)) }
    {
        let number = self.number();
        number >= Program::MAX_FUNCS || outline.size(number) == 0
    }

    // The lines with one more, where no rule speaks against it.
    fn with_head(
        self,
        alloc: Global,
        head: Head,
        label: Vec<u8>,
        entry: Vec<u8>,
    ) -> Result<Draft, Memory>
        requires head { IsHead head }
        requires label { label.items ≡ head.label }
        requires entry { entry.items ≡ entry_key head }
        requires few { length (heads self) < Program.MAX_FUNCS }
        ensures { IfOk result (λ draft. draft ≡ self ++ line.Func head ∷ []) }
    {
        let Draft {
            labels,
            entries,
            done,
            last,
        } = self;
        let labels = labels.with(label)?;
        let entries = entries.with(entry)?;
        let done = closed(done, last)?;
        Ok(Draft {
            labels,
            entries,
            done,
            last: Some(begun(alloc, head)),
        })
    }

    fn with_func(
        self,
        alloc: Global,
        outline: &Outline,
        head: Head,
    ) -> Result<Draft, LineFault<Rule>>
        requires { IsHead head }
        ensures { Gives (λ draft. draft) result (kept (program_fault outline.now.sizes self (line.Func head)) (self ++ line.Func head ∷ [])) }
    {
        let label = Vec::from_slice(alloc, head.label.bytes())?;
        let entry = entry_key(alloc, &head)?;
        if self.is_twice(&head, &label, &entry) {
            return Err(LineFault::At(Cause::Own(Rule::Twice)));
        }
        if self.func_breaks_limit(outline) {
            return Err(LineFault::At(Cause::Own(Rule::Limit)));
        }
        Ok(self.with_head(alloc, head, label, entry)?)
    }

    fn with_instr(self, instr: Instr) -> Result<Draft, LineFault<Rule>>
        ensures { (sizes : List ℕ) → Gives (λ draft. draft) result (kept (program_fault sizes self (line.Instr instr)) (self ++ line.Instr instr ∷ [])) }
    {
        let Draft {
            labels,
            entries,
            done,
            last,
        } = self;
        let Some(func) = last else {
            return Err(LineFault::At(Cause::Word));
        };
        if func.body.len() >= Func::MAX_BODY as usize {
            return Err(LineFault::At(Cause::Own(Rule::Limit)));
        }
        let func = with_instr(func, instr)?;
        Ok(Draft {
            labels,
            entries,
            done,
            last: Some(func),
        })
    }

    /// The lines with the next one of a text with these functions.
    pub(crate) fn next(
        self,
        alloc: Global,
        outline: &Outline,
        bytes: &[u8],
    ) -> Result<Draft, LineFault<Rule>>
        ensures { Gives (λ draft. draft) result (program_next outline.now self bytes.now) }
    {
        match line(alloc, outline, self.size(outline), bytes)? {
            ProgramLine::Func(head) => self.with_func(alloc, outline, head),
            ProgramLine::Instr(instr) => self.with_instr(instr),
        }
    }
}
