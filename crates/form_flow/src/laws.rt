//! Laws of the definitions, each the contract of a function that does nothing.
ghost use Rattle.std.specs.Prelude.{◌≡◌, ◌≤◌, ◌<◌, ◌++◌, ℕ, suc, Bool, List, true, false, map, All, Contains, IfSome};
ghost use Rattle.std.specs.List.{AllByRecursion, list_any};
ghost use Rattle.form_check.specs.declared.checked.Picked.{Picked};
ghost use Rattle.form_check.specs.Program.{CheckedStatement};
ghost use Rattle.form_check.specs.Sound.{IsActionSound, IsRightSideSound};
ghost use Rattle.form_expand.specs.Sound.{AreRecordable, AreSummands};
ghost use Rattle.form_flow.specs.Alone.{each_alone};
ghost use Rattle.form_flow.specs.Arguments.{in_arguments};
ghost use Rattle.form_flow.specs.Idle.{IsIdle};
ghost use Rattle.form_flow.specs.Indices.{become, dummies, dummies_put, free_dummy, is_declared, is_dummy};
ghost use Rattle.form_flow.specs.Making.{compiled};
ghost use Rattle.form_flow.specs.Outcome.{Outcome, done, listing_of, through, turns};
ghost use Rattle.form_flow.specs.Ready.{Part};
ghost use Rattle.form_flow.specs.Rewriting.{rewritten};
ghost use Rattle.form_flow.specs.Sound.{ArePlaced, IsPartPlaced};
ghost use Rattle.form_flow.specs.Statement.{Compiled, Limits, Statement};
ghost use Rattle.form_flow.specs.Statements.{outputs, run, summed_over};
ghost use Rattle.form_names.specs.Names.{Entry};
ghost use Rattle.form_normal.specs.Recordable.{IsRecordable};
ghost use Rattle.form_term.specs.declared.index.Index.{Index};
ghost use Rattle.form_term.specs.declared.monomial.Monomial.{Monomial};
ghost use Rattle.form_term.specs.Named.{Places, IsSummand};
ghost use Rattle.form_tree.specs.Building.{sum_of};
ghost use Rattle.form_tree.specs.declared.tree.Piece.{Piece};
ghost use Rattle.form_tree.specs.Placed.{places_of, IsSumPlaced};

/// The number of a new dummy is that of none there, and each smaller one is that of one.
pub fn dummies_are_new()
    ensures free { (there : List Index) → list_any (is_dummy (free_dummy there)) there ≡ false }
    ensures least { (there : List Index) (n : ℕ) → 1 ≤ n → n < free_dummy there → list_any (is_dummy n) there ≡ true }
{}

/// Indices that become dummies stay apart, and of those that are summed over none is left.
pub fn dummies_stay_apart()
    ensures apart { (is : List ℕ) (there : List Index) (i j : Index) → Contains there i → Contains there j →
        become (dummies is there) i ≡ become (dummies is there) j → i ≡ j }
    ensures none_left { (is : List ℕ) (there : List Index) →
        All (λ i. list_any (is_declared i) (map (become (dummies is there)) there) ≡ false) is }
{}

/// A block goes over each argument by itself: what it makes of one depends on no other, and a term acted where something
/// acts in one of them.
pub fn arguments_go_alone()
    ensures { (max : ℕ) (ps : List Picked) (go : Monomial → Outcome) (m : Monomial) →
        in_arguments max ps go m ≡ each_alone max ps go m }
{}

/// Of statements in a row the rest is carried out on each output of the front, one after the other.
pub fn statements_in_a_row()
    ensures { (at : Limits) (front rest : List Statement) (m : Monomial) →
        run at (front ++ rest) m ≡ through (run at rest) (run at front m) }
{}

/// A term leaves a `repeat` out of a turn in which nothing acted on its way.
pub fn repeats_end_idle()
    ensures { (n : ℕ) (once : Monomial → Outcome) (m : Monomial) → All (λ x. IsIdle once x.item) (turns n once m).outputs }
{}

/// Where a `repeat` isn't refused, a further turn that may begin changes nothing.
pub fn further_turns_change_nothing()
    ensures { (n : ℕ) (once : Monomial → Outcome) (m : Monomial) (acted : Bool) →
        (turns n once m).end ≡ done acted → turns (suc n) once m ≡ turns n once m }
{}

/// What an `id` with its `also`s and what `sum` make of a term of an expression can be recorded.
pub fn leaves_are_recordable()
    ensures rewritten { (names : Places) (max : ℕ) (parts : List Part) (m : Monomial) →
        AllByRecursion (IsPartPlaced names) parts → IsSummand names m →
        IfSome (rewritten max parts m) (AreRecordable names) }
    ensures dummies { (names : Places) (indices : List ℕ) (m : Monomial) → IsSummand names m →
        AreRecordable names (dummies_put indices m) }
    ensures numbers { (names : Places) (i : ℕ) (values : List ℕ) (m : Monomial) → IsSummand names m →
        AreRecordable names (summed_over i values m) }
{}

/// What statements whose names stand at their places make of a term of an expression are such terms, and can be recorded where
/// the term can be.
pub fn outputs_are_recordable()
    ensures summands { (names : Places) (at : Limits) (statements : List Statement) (m : Monomial) → ArePlaced names statements →
        IsSummand names m → AreSummands names (listing_of (run at statements m)) }
    ensures recordable { (names : Places) (at : Limits) (statements : List Statement) (m : Monomial) → ArePlaced names statements →
        IsRecordable names m → AreRecordable names (listing_of (run at statements m)) }
    ensures within { (names : Places) (c : Compiled) (m : Monomial) → ArePlaced names c.statements → IsRecordable names m →
        AreRecordable names (outputs c m) }
{}

/// The names of statements and of right sides that were checked stand at their places, by their kinds.
pub fn names_of_checked_statements()
    ensures statements { (names : List Entry) (terms turns : ℕ) (statements : List CheckedStatement) →
        All (IsActionSound names) statements → ArePlaced (places_of names) (compiled terms turns statements).statements }
    ensures right_sides { (names : List Entry) (stands : ℕ → Bool) (pieces : List Piece) →
        IsRightSideSound names stands pieces → IsSumPlaced (places_of names) (sum_of pieces) }
{}
