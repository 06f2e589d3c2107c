// Laws of programs and their texts, each the contract of a function that does nothing.
ghost use Rattle.guest_text.specs.TextLaws.{CanonicalTextsSpell, TextsSpellOneProgram, CanonicalTextsStay, ProgramsHaveTheirTexts};

/// The canonical text of a program is read as this program again, and programs with the same canonical
/// text are equal.
pub fn what_was_written_is_read_again()
    ensures spell { CanonicalTextsSpell }
    ensures one { TextsSpellOneProgram }
    ensures texts { ProgramsHaveTheirTexts }
{}

/// A canonical text is written again as it was.
pub fn canonical_texts_are_written_again()
    ensures { CanonicalTextsStay }
{}
