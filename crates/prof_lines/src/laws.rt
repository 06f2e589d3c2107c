// Facts of the definitions, each the contract of a function that does nothing.
ghost use Rattle.std.specs.Prelude.{◌≡◌, ◌↔◌, ◌⊎◌, ℕ, ◌<◌, ◌^◌, ◌++◌, ◌∷◌, [], List, length, map, Bool, true, Result, Ok, Err, Option, decimal, if◌then◌else◌, bytes_eq};
ghost use Rattle.std.specs.List.{AllByRecursion};
ghost use Rattle.prof_base.specs.Text.{IsText};
ghost use Rattle.prof_lines.specs.declared.fault.Cause.{Cause};
ghost use Rattle.prof_lines.specs.declared.fault.LineFault.{LineFault};
ghost use Rattle.prof_lines.specs.declared.fault.TextFault.{TextFault};
ghost use Rattle.prof_lines.specs.declared.fault.Cause.TheVariants.{Word, Number};
ghost use Rattle.prof_lines.specs.Answers.{Reader, Front, Fails, Reads, IsPlaced, followed};
ghost use Rattle.prof_lines.specs.Words.{word_at, fixed_at, number_of, number_at, label_at, end_at, optional_at, numbers_at, of_word, IsLabel, InRange};
ghost use Rattle.prof_lines.specs.Quoted.{quoted_at};
ghost use Rattle.prof_lines.specs.Lines.{lines_of, is_passed, counted};
ghost use Rattle.prof_lines.specs.Folds.{placed, read_lines, read_text, IsFirstFault, IsTextFault};
ghost use Rattle.prof_lines.specs.Spelled.{IsWord, BeginsWith, HasWords, spaces, optional_word, AreNumbers, quoted};
ghost use Rattle.prof_lines.specs.Forms.{Wording, Passes, IsNaming, IsPlace, IsForm};
ghost use Rattle.prof_lines.specs.Canonical.{joined, text_of, is_one_line, IsOneLine, begins_line, IsLine};
ghost use Rattle.prof_lines.specs.Values.{LineReader, Rules, TextEnd, HaveForms, HaveLines, PassesAfter, next_value, EachIsSpelled, Keeps, EndsIn};
ghost use Rattle.prof_lines.specs.Causes.{Refuses, FoundBy, NoWordComes, HasOtherNext, WordFault, FixedFault, NamingFault, NumberFault, OfWordFault, EndFault, OptionalFault, NumbersFault, AtOrAfter, FixedOrAfter, ChosenFault};
ghost use Rattle.prof_lines.specs.Refused.{FoundAfter, LineFaultAfter, IsRefusedLine, IsRefusedText};

/// The lines of a text: an empty text has none, bytes that lack a line end are one line, and a line end
/// makes what comes before it a line.
pub fn byte_10_ends_lines()
    ensures none { lines_of [] ≡ [] }
    ensures last { (line : List ℕ) → 0 < length line → is_one_line line ≡ true → lines_of line ≡ line ∷ [] }
    ensures ended { (line rest : List ℕ) → is_one_line line ≡ true → lines_of (line ++ 10 ∷ rest) ≡ line ∷ lines_of rest }
{}

/// The lines that are passed over are those without words, and those whose first byte after spaces is
/// `#`.
pub fn comments_and_lines_without_words_are_passed_over()
    ensures { (line : List ℕ) → (is_passed line ≡ true) ↔ (HasWords [] line ⊎ ((before : ℕ) × (rest : List ℕ) × (line ≡ spaces before ++ 35 ∷ rest))) }
{}

/// Each place of a line is read where a word comes next that spells one of its values, as that value
/// and with the bytes after the word, and nowhere else.
pub fn places_are_read_as_spelled<C>()
    ensures word { IsPlace {C = C} word_at IsWord (λ word. word) }
    ensures fixed { (wanted bytes rest : List ℕ) → IsWord wanted → (fixed_at {C = C} wanted bytes ≡ Ok rest) ↔ BeginsWith wanted rest bytes }
    ensures number { (least most : ℕ) → most < 2 ^ 64 → IsPlace {C = C} (number_at least most) (InRange least most) decimal }
    ensures label { IsPlace {C = C} label_at IsLabel (λ label. label) }
    ensures quoted { IsPlace {C = C} quoted_at IsText quoted }
    ensures end { (bytes : List ℕ) → (end_at {C = C} bytes ≡ Ok tt) ↔ HasWords [] bytes }
{}

/// What plain words are read as has a place in a line.
pub fn names_have_places<A, C>()
    ensures number { (least most : ℕ) → most < 2 ^ 64 → IsNaming {C = C} (number_of least most) (InRange least most) decimal }
    ensures place { (read : Reader A C) (fits : A → Bool) (word : A → List ℕ) → IsNaming read (Passes fits) word → IsPlace (of_word read) (Passes fits) word }
{}

/// A word that may be missing, and numbers up to the end of the line, are read where the line has these
/// words, and nowhere else.
pub fn line_ends_are_read_as_spelled<C>()
    ensures optional { (wanted : List ℕ) → IsWord wanted → IsForm {C = C} (optional_at wanted) (λ there. Unit {0}) (optional_word wanted) }
    ensures numbers { (least most room : ℕ) → most < 2 ^ 64 → IsForm {C = C} (numbers_at least most room) (AreNumbers least most room) (λ numbers. map decimal numbers) }
{}

/// When a place or a line's end is at fault, and with which cause. The cause is `Number` exactly where a
/// number belongs and a plain word comes next that is the decimal text of no number in the range.
pub fn faults_have_their_causes<C>()
    ensures number_of { (least most : ℕ) → most < 2 ^ 64 → Refuses {C = C} (number_of least most) (NamingFault Number (InRange least most) decimal) }
    ensures word { Refuses {C = C} word_at (WordFault IsWord (λ word. word)) }
    ensures fixed { (wanted : List ℕ) → IsWord wanted → Refuses {C = C} (fixed_at wanted) (FixedFault wanted) }
    ensures number { (least most : ℕ) → most < 2 ^ 64 → Refuses {C = C} (number_at least most) (NumberFault least most) }
    ensures label { Refuses {C = C} label_at (WordFault IsLabel (λ label. label)) }
    ensures quoted { Refuses {C = C} quoted_at (WordFault IsText quoted) }
    ensures end { Refuses {C = C} end_at EndFault }
    ensures optional { (wanted : List ℕ) → IsWord wanted → Refuses {C = C} (optional_at wanted) (OptionalFault wanted) }
    ensures numbers { (least most room : ℕ) → most < 2 ^ 64 → Refuses {C = C} (numbers_at least most room) (NumbersFault least most room) }
{}

/// No plain word comes next exactly where only spaces are left, or where the bytes up to the next space or
/// the line's end are some and not all plain.
pub fn a_plain_word_is_missing_or_not_plain()
    ensures { (bytes : List ℕ) → NoWordComes bytes ↔ (HasWords [] bytes ⊎ HasOtherNext bytes) }
{}

/// Places in a row are at fault at the first of them that is at fault, with the words before it spelled.
pub fn the_first_fault_decides<A, B, C>()
    ensures of_word { (read : Reader A C) → Refuses (of_word read) (OfWordFault (FoundBy read)) }
    ensures place { (read : Reader (Front A) C) (fits : A → Bool) (word : A → List ℕ) (next : Front A → Result B (Cause C)) → IsPlace read (Passes fits) word
        → Refuses (followed read next) (AtOrAfter (Passes fits) word (FoundBy read) (λ value. FoundBy (λ rest. next (value, rest)))) }
    ensures fixed { (wanted : List ℕ) (next : Reader B C) → IsWord wanted → Refuses (followed (fixed_at wanted) next) (FixedOrAfter wanted (FoundBy next)) }
    ensures end { (value : B) → Refuses {C = C} (followed end_at (λ u. Ok value)) EndFault }
    ensures chosen { (name word : List ℕ) (named other : Reader B C)
        → Refuses (λ bytes. if bytes_eq word name then named bytes else other bytes) (ChosenFault name (FoundBy named) (FoundBy other) word) }
{}

/// A text that is read line by line is refused at its first line at fault, or else at its end.
pub fn reading_stops_at_the_first_fault<S, V, F>()
    ensures lines { (read : S → List ℕ → Result S F) (start : S) (lines : List (ℕ × List ℕ)) (place : ℕ × F)
        → (read_lines read start lines ≡ Err place) ↔ IsFirstFault read start lines place }
    ensures text { (read : S → List ℕ → Result S F) (end : S → Result V F) (start : S) (text : List ℕ) (place : ℕ × F)
        → (read_text read end start text ≡ Err place) ↔ IsTextFault read end start text place }
{}

/// Where each line has a form, a text is read exactly where its lines spell values that break no rule, and
/// as what these values end in.
pub fn texts_are_read_as_spelled<V, W, C>()
    ensures { (read : LineReader V C) (fits : List V → V → Bool) (words : Wording V) (fault : Rules V C) (end : TextEnd V W C) → HaveForms read (PassesAfter fits) words
        → (text : List ℕ) (whole : W) → (read_text (next_value read fault) end [] text ≡ Ok whole) ↔ EndsIn (PassesAfter fits) words fault end text whole }
{}

/// Where each line has a form, the refused line of a text is the first whose words are at fault or spell a
/// value that breaks a rule after the values that the lines before it spell; or else the end is refused.
pub fn texts_are_refused_at_the_first_fault<V, W, C>()
    ensures line { (read : LineReader V C) (fits : List V → V → Bool) (words : Wording V) (fault : Rules V C) → HaveForms read (PassesAfter fits) words → (before : List V)
        → Refuses (next_value read fault before) (LineFaultAfter (PassesAfter fits) words fault (FoundAfter read) before) }
    ensures lines { (read : LineReader V C) (fits : List V → V → Bool) (words : Wording V) (fault : Rules V C) → HaveForms read (PassesAfter fits) words
        → (lines : List (ℕ × List ℕ)) (place : ℕ × Cause C)
        → (read_lines (next_value read fault) [] lines ≡ Err place) ↔ IsRefusedLine (PassesAfter fits) words fault (FoundAfter read) lines place }
    ensures text { (read : LineReader V C) (fits : List V → V → Bool) (words : Wording V) (fault : Rules V C) (end : TextEnd V W C) → HaveForms read (PassesAfter fits) words
        → (text : List ℕ) (place : ℕ × Cause C)
        → (read_text (next_value read fault) end [] text ≡ Err place) ↔ IsRefusedText (PassesAfter fits) words fault (FoundAfter read) end text place }
{}

/// The canonical text of values has one line for each, which spells it and is not passed over.
pub fn canonical_texts_spell_their_values<V, C>()
    ensures line { (words : List (List ℕ)) → HasWords words (joined words) }
    ensures text { (words : Wording V) (values : List V) → AllByRecursion (λ value. IsLine (words value)) values → EachIsSpelled words values (counted (text_of words values)) }
    // The canonical text of values that break no rule is read as these values.
    ensures read { (read : LineReader V C) (fits : List V → V → Bool) (words : Wording V) (fault : Rules V C) → HaveForms read (PassesAfter fits) words → HaveLines (PassesAfter fits) words
        → (values : List V) → Keeps (PassesAfter fits) fault [] values → read_lines (next_value read fault) [] (counted (text_of words values)) ≡ Ok values }
{}

/// Words without line ends are one canonical line, which is not passed over, where the first of them begins
/// with no space and no `#`.
pub fn words_without_line_ends_are_a_line()
    ensures line { (first : List ℕ) (words : List (List ℕ)) → begins_line first ≡ true → IsOneLine first → AllByRecursion IsOneLine words → IsLine (first ∷ words) }
    ensures word { (word : List ℕ) → IsWord word → IsOneLine word }
    ensures quoted { (text : List ℕ) → IsText text → IsOneLine (quoted text) }
    ensures number { (n : ℕ) → n < 2 ^ 64 → begins_line (decimal n) ≡ true }
{}

/// The fault of a line becomes the fault of its text, with the number of the line.
pub fn faults_get_the_number_of_their_line<X, Y, C>()
    ensures { (view : X → Y) (read : Result Y (Cause C)) (number : ℕ) (fault : LineFault C) (answer : TextFault C) → Fails fault read → IsPlaced number fault answer
        → Reads view (Err answer) (placed number read) }
{}
