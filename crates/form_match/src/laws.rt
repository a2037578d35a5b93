//! Laws of the definitions, each the contract of a function that does nothing.

ghost use Rattle.std.specs.Prelude.{◌≡◌, ℕ, Bool, List, All, Option, Some, None};
ghost use Rattle.form_term.specs.Named.{Places, IsNamed};
ghost use Rattle.form_term.specs.Term.{IsTerm, Term};
ghost use Rattle.form_term.specs.declared.piece.Piece.{Piece};
ghost use Rattle.form_tree.specs.Pattern.{Factors};
ghost use Rattle.form_tree.specs.Placed.{IsPatternPlaced};
ghost use Rattle.form_bindings.specs.Named.{AreSoundBindings};
ghost use Rattle.form_match.specs.First.{IsFirst, IsNoMatch};
ghost use Rattle.form_match.specs.Fits.{Fits};
ghost use Rattle.form_match.specs.Left.{left_of};
ghost use Rattle.form_match.specs.Matching.{first_of, outer, vectors};
ghost use Rattle.form_match.specs.declared.matching.Match.{Match};
ghost use Rattle.form_match.specs.declared.uses.Use.{Use};

/// The first match is that of a consistent vector of choices, and no vector before that is consistent. Where there is
/// none, no vector is.
pub fn first_matches()
    ensures some { (table : List (Option (List Piece))) (fs : Factors) (t : Term) (cuts : List ℕ) (is_exact : Bool) (m : Match) →
        first_of table fs t cuts is_exact ≡ Some m → IsFirst (vectors table fs (outer t cuts is_exact)) m }
    ensures none { (table : List (Option (List Piece))) (fs : Factors) (t : Term) (cuts : List ℕ) (is_exact : Bool) →
        first_of table fs t cuts is_exact ≡ None → All IsNoMatch (vectors table fs (outer t cuts is_exact)) }
{}

/// What the first match takes of a term can be taken out of it.
pub fn first_fits()
    ensures { (table : List (Option (List Piece))) (fs : Factors) (t : Term) (cuts : List ℕ) (is_exact : Bool) (m : Match) →
        IsTerm t → first_of table fs t cuts is_exact ≡ Some m → Fits m.takes t }
{}

/// What is left of a term is a term.
pub fn left_is_term()
    ensures { (us : List Use) (t : Term) → IsTerm t → Fits us t → IsTerm (left_of t us) }
{}

/// What is left of a term has its names at their places, and so has what a match binds.
pub fn names_of_matches()
    ensures left { (names : Places) (us : List Use) (t : Term) → IsNamed names t → IsNamed names (left_of t us) }
    ensures bound { (names : Places) (table : List (Option (List Piece))) (fs : Factors) (t : Term) (cuts : List ℕ) (is_exact : Bool) (m : Match) →
        IsNamed names t → IsTerm t → IsPatternPlaced names fs → first_of table fs t cuts is_exact ≡ Some m →
        AreSoundBindings names m.bindings }
{}
