//! Laws of the definitions, each the contract of a function that does nothing.

ghost use Rattle.std.specs.Prelude.{◌≡◌, ◌∷◌, ◌++◌, ℕ, true, List, All, codes};
ghost use Rattle.form_frac.specs.Fraction.{negate, is_below_zero};
ghost use Rattle.form_names.specs.Names.{Entry};
ghost use Rattle.form_term.specs.Term.{Argument, AreArguments, Call, IsArgumentOf, IsCall, IsTerm, Summand, call_of, pieces_of_arguments};
ghost use Rattle.form_print.specs.Arguments.{arguments_text};
ghost use Rattle.form_print.specs.Printing.{call_text, function_text, nested_text, sum_text};

/// What is printed from the pieces of a function's arguments is the text of the arguments as they nest: each an index, a
/// vector or a sum, whose terms print as everywhere, parted by commas. Every function in such a term has lawful
/// arguments too, so it prints by this law again, at the next level.
pub fn nested_arguments()
    ensures arguments { (names : List Entry) (args : List Argument) → All (IsArgumentOf IsTerm) args →
        arguments_text names (pieces_of_arguments args) ≡ nested_text names args }
    ensures functions { (names : List Entry) (f : ℕ) (args : List Argument) → All (IsArgumentOf IsTerm) args →
        call_text names (call_of f args) ≡ function_text names f args }
    ensures every { (c : Call) → IsCall c → AreArguments c.pieces }
{}

/// A sum that begins with a coefficient below 0 prints as a minus, and then as that with its first coefficient above 0.
pub fn first_signs()
    ensures { (names : List Entry) (s : Summand) (ss : List Summand) → is_below_zero s.coefficient ≡ true →
        sum_text names (s ∷ ss) ≡ codes "-" ++ sum_text names (record { coefficient = negate s.coefficient; term = s.term } ∷ ss) }
{}
