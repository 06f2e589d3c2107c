//! Laws of item lists and their texts. Each function does nothing: its contract is the law.
ghost use Rattle.item_text.specs.ItemLaws.{CanonicalTextsSpell, CanonicalTextsStay, KeptListsAreLegal, ListsHaveTheirTexts, TextsSpellOneList};

/// What was written is read as the same list: the lines of the canonical text spell the list, and no
/// text spells two.
pub fn what_was_written_is_read_again()
    ensures spell { CanonicalTextsSpell }
    ensures one { TextsSpellOneList }
    ensures texts { ListsHaveTheirTexts }
{}

/// A canonical text that is read is written again as it was.
pub fn canonical_texts_are_written_again()
    ensures { CanonicalTextsStay }
{}

/// A list whose lines keep the rules is legal: its times do not fall, nothing follows a finish, no
/// session is started twice, at most 100 run at once, and a session is stopped only while it runs.
pub fn lists_that_keep_the_rules_are_legal()
    ensures { KeptListsAreLegal }
{}
