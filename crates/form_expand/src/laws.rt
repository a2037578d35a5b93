//! Laws of the definitions, each the contract of a function that does nothing.
ghost use Rattle.std.specs.Prelude.{◌≡◌, ◌≤◌, ◌+◌, ◌∷◌, ℕ, suc, List, Some, replicate};
ghost use Rattle.std.specs.List.{AllByRecursion};
ghost use Rattle.form_base.specs.declared.cause.Cause.{Cause};
ghost use Rattle.form_base.specs.declared.cause.Cause.TheVariants.{ExpandLimit};
ghost use Rattle.form_term.specs.declared.monomial.Monomial.{Monomial};
ghost use Rattle.form_term.specs.Named.{Places};
ghost use Rattle.form_tree.specs.Placed.{IsSumPlaced};
ghost use Rattle.form_collect.specs.Collecting.{collected};
ghost use Rattle.form_normal.specs.Recordable.{IsRecordable};
ghost use Rattle.form_tree.specs.Tree.{Sum, pieces_of_sum};
ghost use Rattle.form_expand.specs.Expanding.{list_of_sum};
ghost use Rattle.form_expand.specs.Left.{row};
ghost use Rattle.form_expand.specs.Listing.{Listing, nothing, single, refusal, before, limited, followed, powers};
ghost use Rattle.form_expand.specs.declared.stored.Stored.{Stored};
ghost use Rattle.form_expand.specs.Meanings.{Meanings, of_stored};
ghost use Rattle.form_expand.specs.Often.{often, then_by};
ghost use Rattle.form_expand.specs.Reading.{list_of_pieces};
ghost use Rattle.form_expand.specs.Singles.{of_product};
ghost use Rattle.form_expand.specs.Sound.{AreRecordable, AreSoundMeanings, AreSummands, IsRecordableStored};

/// A list and then another: what is done last may be done first, a list without terms changes nothing, a term stays in front,
/// and behind a refusal nothing comes.
pub fn following_lists()
    ensures associative { (a b c : Listing) → followed (followed a b) c ≡ followed a (followed b c) }
    ensures first { (l : Listing) → followed nothing l ≡ l }
    ensures last { (l : Listing) → followed l nothing ≡ l }
    ensures begun { (m : Monomial) (a b : Listing) → followed (before m a) b ≡ before m (followed a b) }
    ensures refused { (cause : Cause) (l : Listing) → followed (refusal cause) l ≡ refusal cause }
{}

/// A list that is limited: a term that was taken counts, one past the limit is refused, and an end stays.
pub fn limited_lists()
    ensures begun { (n : ℕ) (m : Monomial) (l : Listing) → limited (suc n) (before m l) ≡ before m (limited n l) }
    ensures beyond { (m : Monomial) (l : Listing) → limited 0 (before m l) ≡ refusal ExpandLimit }
    ensures none { (n : ℕ) → limited n nothing ≡ nothing }
    ensures refused { (n : ℕ) (cause : Cause) → limited n (refusal cause) ≡ refusal cause }
    ensures again { (n : ℕ) (l : Listing) → limited n (limited n l) ≡ limited n l }
{}

/// A power of a list of one term, and a row of a term and such a list so many times, are products with that term again and again;
/// some of these and then others are all of them.
pub fn repeated_terms()
    ensures powers { (max : ℕ) (m : Monomial) (k : ℕ) → 1 ≤ max → powers max (single m) (suc k) ≡ of_product (often m m k) }
    ensures rows { (max : ℕ) (m t : Monomial) (k : ℕ) → 1 ≤ max → row max (single m ∷ replicate k (single t)) ≡ of_product (often m t k) }
    ensures further { (m t : Monomial) (j k : ℕ) → often m t (j + k) ≡ then_by (often m t j) (λ x. often x t k) }
{}

/// The list of the pieces of a tree is the tree's, which is within the limit.
pub fn lists_of_trees()
    ensures pieces { (max : ℕ) (all : Meanings) (s : Sum) → list_of_pieces max all (pieces_of_sum s) ≡ list_of_sum max all s }
    ensures within { (max : ℕ) (all : Meanings) (s : Sum) → limited max (list_of_sum max all s) ≡ list_of_sum max all s }
{}

/// The list of a right side whose names stand at their places has terms of expressions. They can be recorded where nothing is
/// bound and the expressions that stand can be, and then so can what is collected of them.
pub fn lists_are_recordable()
    ensures summands { (names : Places) (max : ℕ) (all : Meanings) (s : Sum) → AreSoundMeanings names all →
        IsSumPlaced names s → AreSummands names (list_of_sum max all s) }
    ensures recordable { (names : Places) (max : ℕ) (stored : List Stored) (s : Sum) →
        AllByRecursion (IsRecordableStored names) stored → IsSumPlaced names s →
        AreRecordable names (list_of_sum max (of_stored stored) s) }
    ensures collected { (names : Places) (list terms : List Monomial) → AllByRecursion (IsRecordable names) list →
        collected list ≡ Some terms → AllByRecursion (IsRecordable names) terms }
{}
