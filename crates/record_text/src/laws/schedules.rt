//! Laws of schedules and their texts. Each function does nothing: its contract is the law.
ghost use Rattle.record_text.specs.ScheduleLaws.{OrderIsTested, SessionIsTested, LimitIsTested, RulesAreTested, LegalSchedulesKeepRules, CanonicalTextsSpell, TextsSpellOneSchedule, SchedulesHaveTheirTexts, CanonicalTextsStay};

/// The rules by which a text is refused are those of schedules, each by itself and all together: what
/// is read is legal, and each legal schedule whose numbers are in their ranges is read from its text.
pub fn the_rules_of_the_text_are_those_of_schedules()
    ensures order { OrderIsTested }
    ensures session { SessionIsTested }
    ensures limit { LimitIsTested }
    ensures all { RulesAreTested }
    ensures lines { LegalSchedulesKeepRules }
{}

/// What was written is read as the same schedule: the lines of the canonical text spell the schedule,
/// and no text spells two.
pub fn schedules_that_were_written_are_read_again()
    ensures spell { CanonicalTextsSpell }
    ensures one { TextsSpellOneSchedule }
    ensures texts { SchedulesHaveTheirTexts }
{}

/// A canonical text that is read is written again as it was.
pub fn schedules_are_written_as_they_were_read()
    ensures { CanonicalTextsStay }
{}
