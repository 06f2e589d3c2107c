//! Laws of scripts and their texts. Each function does nothing: its contract is the law.
ghost use Rattle.std.specs.Prelude.{List};
ghost use Rattle.record_text.specs.declared.script.ScriptLine.{ScriptLine};
ghost use Rattle.record_text.specs.Scripts.{IsScript};
ghost use Rattle.record_text.specs.ScriptLaws.{AreScriptLines, CanonicalTextsAreRead, CanonicalTextsSpell, OrderIsThatOfSchedules, ScriptsAreLegal, ScriptsHaveTheirTexts, SessionIsThatOfSchedules, TextsSpellOneScript};

/// The rules of scripts are the rules Order and Session of schedules, over the entries that the lines
/// stand for: commands of port 0.
pub fn scripts_keep_the_rules_where_they_are_legal()
    ensures order { OrderIsThatOfSchedules }
    ensures session { SessionIsThatOfSchedules }
    ensures legal { ScriptsAreLegal }
    ensures in_range { (script : List ScriptLine) → IsScript script → AreScriptLines script }
{}

/// The canonical text of a script is read as that script, no text spells two, and no two scripts have
/// the same canonical text.
pub fn scripts_have_their_texts()
    ensures spell { CanonicalTextsSpell }
    ensures read { CanonicalTextsAreRead }
    ensures one { TextsSpellOneScript }
    ensures texts { ScriptsHaveTheirTexts }
{}
