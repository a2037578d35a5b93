//! Laws of the definitions, each the contract of a function that does nothing.
ghost use Rattle.std.specs.Prelude.{◌≡◌, ◌<◌, ◌≤◌, ℕ, List, length, map, Some};
ghost use Rattle.form_term.specs.declared.monomial.Monomial.{Monomial};
ghost use Rattle.form_collect.specs.Collecting.{collected};
ghost use Rattle.form_collect.specs.Keys.{AreSorted};
ghost use Rattle.form_gathered.specs.declared.joined.JoinedTerm.{JoinedTerm};
ghost use Rattle.form_gathered.specs.Joined.{IsJoined, HaveSums, AreApart, alone, counted, counting_one, present, in_row};

/// What a list collects to is told by joined terms that have its sums: nothing overflows, in whatever order. Those that
/// stand for several lists have the sums of these lists in a row, and none of the lists is longer than they count.
pub fn joined_lists()
    ensures collected { (js : List JoinedTerm) (list ms : List Monomial) → AreApart js → HaveSums js list →
        AreSorted (present js) ms → collected list ≡ Some ms }
    ensures sums { (n : ℕ) (js : List JoinedTerm) (lists : ℕ → List Monomial) → IsJoined n js lists →
        HaveSums js (in_row n lists) }
    ensures long { (n k : ℕ) (js : List JoinedTerm) (lists : ℕ → List Monomial) → IsJoined n js lists → k < n →
        length (lists k) ≤ counted js }
{}

/// Joined terms that have the sums of a list stand for its terms as a list each, of which they count one.
pub fn sums_of_inputs()
    ensures { (js : List JoinedTerm) (list : List Monomial) → HaveSums js list →
        IsJoined (length list) (map counting_one js) (alone list) }
{}
