//! Laws of the definitions, each the contract of a function that does nothing.

ghost use Rattle.std.specs.Prelude.{◌≡◌, ℕ, ◌==◌, ◌||◌, List};
ghost use Rattle.std.specs.List.{list_any};
ghost use Rattle.form_term.specs.Term.{Argument, Term, call_of, pieces_of_term};
ghost use Rattle.form_cond.specs.Occurring.{in_argument, in_call, in_piece, occurs};

/// A name stands in a function where it is that itself, or stands in one of its arguments: an index or a vector that is it,
/// or an expression in one of whose terms it occurs. It occurs in a term where it stands in one of the term's pieces.
pub fn occurs_in_arguments()
    ensures function { (n f : ℕ) (arguments : List Argument) →
        in_call n (call_of f arguments) ≡ ((f == n) || list_any (in_argument n) arguments) }
    ensures term { (n : ℕ) (t : Term) → list_any (in_piece n) (pieces_of_term t) ≡ occurs n t }
{}
