//! Laws of the definitions, each the contract of a function that does nothing.

ghost use Rattle.std.specs.Prelude.{◌≡◌, ◌<◌, ◌+◌, ℕ, Bool, true, false, List, Option, Some};
ghost use Rattle.std.specs.List.{list_all};
ghost use Rattle.form_base.specs.declared.taking.Taking.{Taking};
ghost use Rattle.form_term.specs.Named.{Places, IsNamed};
ghost use Rattle.form_term.specs.Term.{IsTerm, Term};
ghost use Rattle.form_term.specs.declared.piece.Piece.{Piece};
ghost use Rattle.form_tree.specs.Pattern.{Factors, pieces_of_factors};
ghost use Rattle.form_tree.specs.Placed.{IsPatternPlaced};
ghost use Rattle.form_match.specs.Fits.{Fits};
ghost use Rattle.form_match.specs.Left.{left_of};
ghost use Rattle.form_match.specs.Matching.{first_of};
ghost use Rattle.form_match.specs.Ready.{is_plain_piece};
ghost use Rattle.form_match.specs.declared.matching.Match.{Match};
ghost use Rattle.form_rewrite.specs.Ended.{IsEnded};
ghost use Rattle.form_rewrite.specs.Sound.{IsSoundTaken};
ghost use Rattle.form_rewrite.specs.Taking.{and_more, fits_times, is_idle, take_out, weight};
ghost use Rattle.form_rewrite.specs.declared.taken.Taken.{Taken};

/// Matches one after the other end by themselves. Each that removes something leaves less, so one more than the weight
/// of what is left is enough of them: more come to the same, and then no match is left that would remove something.
pub fn enough_matches()
    ensures less { (m : Match) (t : Term) → IsTerm t → Fits m.takes t → is_idle m ≡ false →
        weight (left_of t m.takes) < weight t }
    ensures same { (table : List (Option (List Piece))) (fs : Factors) (x : Taken) (n : ℕ) →
        IsTerm x.left → weight x.left < n → and_more n table fs x ≡ and_more (weight x.left + 1) table fs x }
    ensures ended { (table : List (Option (List Piece))) (fs : Factors) (x : Taken) →
        IsTerm x.left → IsEnded table fs (and_more (weight x.left + 1) table fs x) }
{
    form_match::laws::first_fits();
    form_match::laws::left_is_term();
}

/// Where a plain pattern matches, what it takes fits at least once.
pub fn plain_patterns_fit()
    ensures { (table : List (Option (List Piece))) (fs : Factors) (t : Term) (cuts : List ℕ) (is_exact : Bool) (m : Match) →
        list_all is_plain_piece (pieces_of_factors fs) ≡ true → first_of table fs t cuts is_exact ≡ Some m → Fits m.takes t →
        0 < fits_times t m.takes }
{}

/// What is taken out of a term leaves a term, and it and what is bound have their names at their places.
pub fn names_of_what_is_taken()
    ensures { (names : Places) (table : List (Option (List Piece))) (fs : Factors) (option : Option Taking) (t : Term) (cuts : List ℕ) (x : Taken) →
        IsNamed names t → IsTerm t → IsPatternPlaced names fs → take_out table fs option t cuts ≡ Some x → IsSoundTaken names x }
{}
