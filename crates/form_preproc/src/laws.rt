//! Laws of the definitions, each the contract of a function that does nothing.

ghost use Rattle.std.specs.Prelude.{◌≡◌, ◌≤◌, ◌↔◌, ◌==◌, ◌&&◌, ◌||◌, true, false, ℕ, ℤ, List, [], ◌∷◌, ◌++◌, length, map, option_map, Some, None, Ok, Err};
ghost use Rattle.std.specs.Fmt.{signed_decimal};
ghost use Rattle.std.specs.List.{list_any, list_all, slice_split};
ghost use Rattle.form_base.specs.declared.cause.Cause.TheVariants.{BadInstruction, CalcRange, Unclosed, UnknownVar};
ghost use Rattle.form_calc.specs.Calculation.{value_of};
ghost use Rattle.form_preproc.specs.Block.{Line, key_in, misnested, to_closer, to_end};
ghost use Rattle.form_preproc.specs.Braces.{calculated, is_calculable};
ghost use Rattle.form_preproc.specs.Bytes.{is_digit, is_name, trimmed};
ghost use Rattle.form_outside.specs.Texts.{Texts};
ghost use Rattle.form_calc.specs.Stack.{oldest};
ghost use Rattle.form_preproc.specs.Brackets.{IsBracketed, IsOnePart};
ghost use Rattle.form_preproc.specs.Expansion.{Expansion, IsExpanded, State, Place, Does, goes, calling, turning};
ghost use Rattle.form_preproc.specs.Forms.{IsAsked, IsDefinition, IsHead, IsIncluded, IsLooped};
ghost use Rattle.form_preproc.specs.Nests.{AreNested, IsMisfit, IsUnended};
ghost use Rattle.form_preproc.specs.Instruction.{asked_name, definition, head_of, included_name, looped};
ghost use Rattle.form_preproc.specs.Parts.{parted, is_opening, is_closing};
ghost use Rattle.form_preproc.specs.declared.instruction.Head.{Head};
ghost use Rattle.form_preproc.specs.declared.parts.Parting.{Parting};
ghost use Rattle.form_preproc.specs.declared.parts.Parting.TheVariants.{Arguments, Commas, CommasOrBars};
ghost use Rattle.form_preproc.specs.declared.turns.Looped.{Looped};
ghost use Rattle.form_preproc.specs.declared.turns.Turns.{Turns};
ghost use Rattle.form_preproc.specs.Putting.{and_then, put_in, unless_long};
ghost use Rattle.form_preproc.specs.Variables.{Values, newest, heights_of, height_of};

/// Each file comes to something, and to one thing only: whatever its texts are, its expansion ends.
pub fn one_expansion()
    ensures unique { (texts : Texts) (file : List ℕ) (x y : Expansion) → IsExpanded texts file x → IsExpanded texts file y → x ≡ y }
    ensures some { (texts : Texts) (file : List ℕ) → (x : Expansion) × IsExpanded texts file x }
{}

/// Which values are put into a line, by where its quotes stand: 96 opens a name and 39 closes it.
///
/// Without an opening quote the line stays as it is. A name in quotes is its newest value, and the quotes around that
/// name still count; what a value holds is not searched. The first name that is closed and has no value refuses the
/// line, and so does a quote that is never closed.
pub fn values_put_in()
    ensures plain { (values : Values) (text : List ℕ) → list_any (λ c. c == 96) text ≡ false → put_in values text ≡ unless_long text }
    ensures nested { (values : Values) (before name value rest : List ℕ)
        → list_any (λ c. c == 96) name ≡ false → list_any (λ c. c == 39) name ≡ false → newest values name ≡ Some value
        → list_any (λ c. c == 96) value ≡ false → list_any (λ c. c == 39) value ≡ false
        → put_in values (before ++ (96 ∷ (name ++ (39 ∷ rest)))) ≡ put_in values (before ++ (value ++ rest)) }
    ensures once { (values : Values) (before name value rest : List ℕ) → list_any (λ c. c == 96) before ≡ false
        → list_any (λ c. c == 96) name ≡ false → list_any (λ c. c == 39) name ≡ false → newest values name ≡ Some value
        → list_any (λ c. c == 96) rest ≡ false
        → put_in values (before ++ (96 ∷ (name ++ (39 ∷ rest)))) ≡ unless_long (before ++ (value ++ rest)) }
    ensures unknown { (values : Values) (before opening name rest : List ℕ) → list_any (λ c. c == 96) before ≡ false → list_any (λ c. c == 39) opening ≡ false
        → list_any (λ c. c == 96) name ≡ false → list_any (λ c. c == 39) name ≡ false → newest values name ≡ None
        → put_in values (before ++ (opening ++ (96 ∷ (name ++ (39 ∷ rest))))) ≡ Err (UnknownVar name) }
    ensures unclosed { (values : Values) (before opening : List ℕ) → list_any (λ c. c == 96) before ≡ false → list_any (λ c. c == 39) opening ≡ false
        → put_in values (before ++ (96 ∷ opening)) ≡ Err Unclosed }
{}

/// Which braces of a line are calculated, from the left: 123 opens braces and 125 closes them.
///
/// A line in which no braces end stays as it is. The first braces that end, where only what may be calculated stands
/// in them, and a digit, become their value; others stay. What follows them is looked at alone.
pub fn braces_calculated()
    ensures plain { (text : List ℕ) → list_any (λ c. c == 125) text ≡ false → calculated text ≡ Ok text }
    ensures value { (before inside rest : List ℕ) (n : ℤ) → list_any (λ c. c == 125) before ≡ false
        → list_all is_calculable inside ≡ true → list_any is_digit inside ≡ true → value_of inside ≡ Some (Some n)
        → calculated (before ++ (123 ∷ (inside ++ (125 ∷ rest)))) ≡ and_then (calculated rest) (λ t. Ok (before ++ (signed_decimal n ++ t))) }
    ensures range { (before inside rest : List ℕ) → list_any (λ c. c == 125) before ≡ false
        → list_all is_calculable inside ≡ true → list_any is_digit inside ≡ true → value_of inside ≡ Some None
        → calculated (before ++ (123 ∷ (inside ++ (125 ∷ rest)))) ≡ Err CalcRange }
    ensures form { (before inside rest : List ℕ) → list_any (λ c. c == 125) before ≡ false
        → list_all is_calculable inside ≡ true → list_any is_digit inside ≡ true → value_of inside ≡ None
        → calculated (before ++ (123 ∷ (inside ++ (125 ∷ rest)))) ≡ Err BadInstruction }
    ensures other { (before inside rest : List ℕ) → list_any (λ c. c == 125) before ≡ false
        → list_any (λ c. c == 123) inside ≡ false → list_any (λ c. c == 125) inside ≡ false
        → (list_all is_calculable inside && list_any is_digit inside) ≡ false
        → calculated (before ++ (123 ∷ (inside ++ (125 ∷ rest)))) ≡ and_then (calculated rest) (λ t. Ok ((before ++ (123 ∷ (inside ++ 125 ∷ []))) ++ t)) }
    ensures unopened { (before rest : List ℕ) → list_any (λ c. c == 123) before ≡ false → list_any (λ c. c == 125) before ≡ false
        → calculated (before ++ (125 ∷ rest)) ≡ and_then (calculated rest) (λ t. Ok ((before ++ 125 ∷ []) ++ t)) }
{}

/// The parts of a list: what stands between commas, or between commas and bars, without the blanks at both ends.
pub fn lists_parted()
    ensures commas { (text : List ℕ) → parted Commas text ≡ Some (map trimmed (slice_split (λ c. c == 44) text)) }
    ensures bars { (text : List ℕ) → parted CommasOrBars text ≡ Some (map trimmed (slice_split (λ c. (c == 44) || (c == 124)) text)) }
{}

/// The arguments of a call: what stands between commas outside of brackets, without the blanks at both ends. A bracket that closes
/// none that is open, and one that isn't closed, are none.
pub fn arguments_parted()
    ensures last { (text : List ℕ) → IsOnePart text → parted Arguments text ≡ Some (trimmed text ∷ []) }
    ensures first { (text rest : List ℕ) → IsOnePart text → parted Arguments (text ++ 44 ∷ rest) ≡ option_map (λ parts. trimmed text ∷ parts) (parted Arguments rest) }
    ensures stray { (text rest : List ℕ) (c : ℕ) → IsOnePart text → is_closing Arguments c ≡ true → parted Arguments (text ++ c ∷ rest) ≡ None }
    ensures unclosed { (text held : List ℕ) (c : ℕ) → IsOnePart text → is_opening Arguments c ≡ true → IsBracketed held → parted Arguments (text ++ c ∷ held) ≡ None }
{}

/// What is written behind the keyword of an instruction is read exactly where it is written so: a name and a text in quotes, a name
/// with parts in parentheses or none, a name with its quotes or without, the name of a text behind a sign or
/// none, and a loop's name, `=`, and texts in braces or numbers.
pub fn instructions_as_written()
    ensures definitions { (text name value : List ℕ) → (definition text ≡ Some (name, value)) ↔ IsDefinition text name value }
    ensures heads { (parting : Parting) (text : List ℕ) (h : Head) → (head_of parting text ≡ Some h) ↔ IsHead parting text h }
    ensures included { (text name : List ℕ) → (included_name text ≡ Some name) ↔ IsIncluded name text }
    ensures loops { (text : List ℕ) (l : Looped) → (looped text ≡ Ok l) ↔ IsLooped text l }
    ensures asked { (text name : List ℕ) → (asked_name text ≡ Some name) ↔ (is_name name ≡ true) × IsAsked name text }
{}

/// Behind a call no variable has more values than before it, and behind a loop neither has the loop's; those that are left are
/// those that stood there before.
pub fn heights_behind_calls_and_loops()
    ensures calls { (texts : Texts) (depth : ℕ) (s after : State) (place : Place) (head : Head) → Does texts depth (calling texts depth s place head) (goes after) →
        (name : List ℕ) → heights_of after.values name ≤ heights_of s.values name }
    ensures turns { (texts : Texts) (depth : ℕ) (s after : State) (place : Place) (name : List ℕ) (turns : Turns) (body : List Line) →
        Does texts depth (turning s place name turns body) (goes after) → height_of after.values name ≤ height_of s.values name }
    ensures stood { (new old : List (List ℕ)) → oldest (length old) (new ++ old) ≡ old }
{}

/// The lines of a text are well nested exactly where they are a tree of blocks. Else what is told is the first line that fits into
/// none, or the innermost one that begins a block without an end.
pub fn trees_of_blocks()
    ensures trees { (lines : List Line) → (misnested key_in (λ line. line.spot.line) [] lines ≡ None) ↔ AreNested key_in 0 lines }
    ensures misfits { (lines : List Line) (n : ℕ) → misnested key_in (λ line. line.spot.line) [] lines ≡ Some (BadInstruction, n) → IsMisfit key_in (λ line. line.spot.line) lines n }
    ensures unended { (lines : List Line) (n : ℕ) → misnested key_in (λ line. line.spot.line) [] lines ≡ Some (Unclosed, n) → IsUnended key_in (λ line. line.spot.line) lines n }
{}

/// Where a block ends, or its next part begins: lines that nest among themselves, as those of one of its parts, are
/// passed over whole, with all blocks in them.
pub fn nested_lines_passed()
    ensures part { (body rest : List Line) → misnested key_in (λ line. line.spot.line) [] body ≡ None → to_closer key_in 0 (body ++ rest) ≡ to_closer key_in 0 rest }
    ensures block { (body rest : List Line) → misnested key_in (λ line. line.spot.line) [] body ≡ None → to_end key_in 0 (body ++ rest) ≡ to_end key_in 0 rest }
{}
