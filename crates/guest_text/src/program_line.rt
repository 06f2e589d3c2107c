// The lines of a program's text, as values.
use guest_program::Instr;
use prof_base::Text;

/// What the line of a function says: the function without its instructions.
#[derive(Drop)]
pub struct Head {
    pub label: Text,
    pub name: Text,
    pub url: Text,
    pub script: u32,
    pub line: u32,
    pub column: u32,
    pub inline: bool,
}

/// A line of the text.
#[derive(Drop)]
pub enum ProgramLine {
    Func(Head),
    Instr(Instr),
}
