//! Laws of the definitions, each the contract of a function that does nothing.

ghost use Rattle.std.specs.Prelude.{◌≡◌, ◌≤◌, ℕ, suc, pos, List, [], ◌∷◌, ◌++◌, length, Option, false, true};
ghost use Rattle.std.specs.List.{AllByRecursion};
ghost use Rattle.form_ast.specs.declared.statement.Side.{Side};
ghost use Rattle.form_base.specs.declared.block.Branch.{Branch};
ghost use Rattle.form_frac.specs.Fraction.{Fraction, IsLowest, whole};
ghost use Rattle.form_term.specs.Term.{Term};
ghost use Rattle.form_term.specs.declared.monomial.Monomial.{Monomial};
ghost use Rattle.form_tree.specs.Condition.{Alternatives};
ghost use Rattle.form_tree.specs.Tree.{Sum};
ghost use Rattle.form_cond.specs.Condition.{Ready, holds};
ghost use Rattle.form_gathered.specs.Joined.{IsJoined, Stand, alone, counted, item_of};
ghost use Rattle.form_gathered.specs.declared.joined.JoinedTerm.{JoinedTerm};
ghost use Rattle.form_joined.specs.Goes.{Goes};
ghost use Rattle.form_flow.specs.declared.compiled.ReadyLeaf.TheVariants.{Rewrite, Multiply, Discard};
ghost use Rattle.form_flow.specs.Outcome.{Outcome, through, turns};
ghost use Rattle.form_flow.specs.Ready.{Choice, Part};
ghost use Rattle.form_flow.specs.Rewriting.{list_of_rest, rest_of};
ghost use Rattle.form_flow.specs.Statement.{Compiled, Limits, Statement};
ghost use Rattle.form_flow.specs.Statements.{first_branch, is_so, leaf, multiplied, outputs, run};
ghost use Rattle.form_flow.specs.Ways.{run_each};
ghost use Rattle.form_levels.specs.Asks.{asks_coefficient};
ghost use Rattle.form_levels.specs.Linear.{Agree, AgreeListing, AreLinear, scaled, scaled_list, scaled_outcome};
ghost use Rattle.form_levels.specs.Outputs.{HasOutputs};
ghost use Rattle.form_levels.specs.Runs.{Runs, Comes};

/// A condition that doesn't ask for the coefficient of a term holds of it whatever that is.
pub fn coefficients_that_are_not_asked_for()
    ensures { (rs : List Ready) (a : Alternatives) (c d : Fraction) (t : Term) → asks_coefficient a ≡ false →
        holds rs a c t ≡ holds rs a d t }
{}

/// What linear statements make of c times a term is c times what they make of the term; unless one of both overflows, and then
/// they agree up to there. In particular it is c times what they make of that term with the coefficient 1.
pub fn outputs_are_linear()
    ensures run { (at : Limits) (ss : List Statement) (c : Fraction) (m : Monomial) → AreLinear ss →
        Agree (scaled_outcome c (run at ss m)) (run at ss (scaled c m)) }
    ensures one { (at : Limits) (ss : List Statement) (c : Fraction) (t : Term) → AreLinear ss → IsLowest c →
        Agree (scaled_outcome c (run at ss (record { coefficient = whole (pos 1); term = t }))) (run at ss (record { coefficient = c; term = t })) }
    ensures outputs { (k : Compiled) (c : Fraction) (m : Monomial) → AreLinear k.statements →
        AgreeListing (scaled_list c (outputs k m)) (outputs k (scaled c m)) }
{}

/// Joined terms may be carried out in parts, and in the place of what comes of them others may stand that stand for the same.
pub fn parts_of_levels()
    ensures none { (go : Monomial → Outcome) → Runs go [] [] [] }
    ensures beside { (go : Monomial → Outcome) (js ks i a x y : List JoinedTerm) → Runs go js i a → Runs go ks x y →
        Runs go (js ++ ks) (i ++ x) (a ++ y) }
    ensures others { (go : Monomial → Outcome) (js i a x y : List JoinedTerm) → Stand i x → Stand a y → Runs go js i a →
        Runs go js x y }
    ensures parted { (b : Branch Choice (List (Monomial → Outcome))) (bs : List (Branch Choice (List (Monomial → Outcome))))
        (last : Option (List (Monomial → Outcome))) (these others i a x y : List JoinedTerm) →
        asks_coefficient b.condition.condition ≡ false → AllByRecursion (λ j. is_so b.condition (item_of j) ≡ true) these →
        AllByRecursion (λ j. is_so b.condition (item_of j) ≡ false) others → Runs (run_each b.block) these i a →
        Runs (first_branch bs last) others x y → Runs (first_branch (b ∷ bs) last) (these ++ others) (i ++ x) (a ++ y) }
{}

/// Statements that are no blocks: terms of which none matches stay, and in the place of the others stand those that
/// stand for what is made of them.
pub fn leaves_of_levels()
    ensures untouched { (at : Limits) (ps : List Part) (js : List JoinedTerm) →
        AllByRecursion (λ j. (rest_of at.terms ps j.term).has_matched ≡ false) js → Runs (leaf at (Rewrite ps)) js js [] }
    ensures rewritten { (at : Limits) (ps : List Part) (j : JoinedTerm) (ks : List JoinedTerm) →
        (rest_of at.terms ps j.term).has_matched ≡ true → Goes (λ m. list_of_rest at.terms m (rest_of at.terms ps j.term)) (j ∷ []) ks →
        Runs (leaf at (Rewrite ps)) (j ∷ []) [] ks }
    ensures multiplied { (at : Limits) (side : Side) (s : Sum) (js ks : List JoinedTerm) → Goes (multiplied at.terms side s) js ks →
        Runs (leaf at (Multiply side s)) js [] ks }
    ensures discarded { (at : Limits) (js : List JoinedTerm) → Runs (leaf at Discard) js [] [] }
{}

/// They are carried out statement by statement, and turn by turn.
pub fn levels_in_a_row()
    ensures statements { (act : Monomial → Outcome) (acts : List (Monomial → Outcome)) (js i a i2 a2 x y : List JoinedTerm) →
        Runs act js i a → Runs (run_each acts) i i2 a2 → Runs (run_each acts) a x y →
        Runs (run_each (act ∷ acts)) js i2 (a2 ++ (x ++ y)) }
    ensures turns { (n : ℕ) (once : Monomial → Outcome) (js i a x y : List JoinedTerm) → Runs once js i a →
        Runs (turns n once) a x y → Runs (turns (suc n) once) js i (x ++ y) }
{}

/// Where it isn't asked on whose way something acted, all that came is carried on together.
pub fn levels_without_marks()
    ensures of { (go : Monomial → Outcome) (js i a ks : List JoinedTerm) → Runs go js i a → Stand (i ++ a) ks → Comes go js ks }
    ensures through { (f g : Monomial → Outcome) (js ks ls : List JoinedTerm) → Comes f js ks → Comes g ks ls →
        Comes (λ m. through g (f m)) js ls }
{}

/// What comes of inputs, of which each was a list by itself, has the sums of all their outputs, and none of them is refused, where
/// it counts no more than may come of one.
pub fn levels_of_inputs()
    ensures { (c : Compiled) (inputs : List Monomial) (js ks : List JoinedTerm) → IsJoined (length inputs) js (alone inputs) →
        Comes (run c.limits c.statements) js ks → counted ks ≤ c.limits.terms → HasOutputs c inputs ks }
{}
