//! Laws of the definitions, each the contract of a function that does nothing.

ghost use Rattle.std.specs.Prelude.{◌≡◌, ◌<◌, ◌≤◌, ◌*◌, ◌^◌, ℕ, suc, List, [], ◌∷◌, ◌++◌, length, map, flat_map, replicate, true, Some, None};
ghost use Rattle.std.specs.List.{AllByRecursion};
ghost use Rattle.form_term.specs.declared.monomial.Monomial.{Monomial};
ghost use Rattle.form_gathered.specs.Joined.{IsJoined, Stand, counted};
ghost use Rattle.form_gathered.specs.declared.joined.JoinedTerm.{JoinedTerm};
ghost use Rattle.form_expand.specs.Left.{row_behind};
ghost use Rattle.form_expand.specs.Listing.{Listing, single, limited, followed, pairs, powers, signed};
ghost use Rattle.form_expand.specs.Walks.{all_of};
ghost use Rattle.form_joined.specs.Goes.{Goes};
ghost use Rattle.form_joined.specs.Powers.{HasRoom, IsPower};
ghost use Rattle.form_joined.specs.Products.{HasList, paired, turned};

use form_frac::laws::weights;

/// What is paired of joined terms stands for the products of the lists that they stand for, and none of these is refused; so do sums, signs
/// and powers, and what becomes of terms in a row of lists.
pub fn joined_products()
    ensures pairs { (n : ℕ) (js ks ls : List JoinedTerm) (lists : ℕ → List Monomial) (right : List Monomial) →
        IsJoined n js lists → IsJoined 1 ks (λ k. right) → paired js ks ≡ Some ls →
        ((k : ℕ) → k < n → pairs (all_of (lists k)) (all_of right) ≡ all_of ((pairs (all_of (lists k)) (all_of right)).terms))
        × IsJoined n ls (λ k. (pairs (all_of (lists k)) (all_of right)).terms) }
    ensures left { (n : ℕ) (js ks ls : List JoinedTerm) (lists : ℕ → List Monomial) (left : List Monomial) →
        IsJoined 1 ks (λ k. left) → IsJoined n js lists → paired ks js ≡ Some ls →
        ((k : ℕ) → k < n → AllByRecursion (λ m. (pairs (all_of left) (single m)).end ≡ None) (lists k))
        × IsJoined n ls (λ k. flat_map (λ m. (pairs (all_of left) (single m)).terms) (lists k)) }
    ensures within { (max : ℕ) (js : List JoinedTerm) (list : List Monomial) → IsJoined 1 js (λ k. list) → counted js ≤ max →
        limited max (all_of list) ≡ all_of list }
    ensures sums { (js ks : List JoinedTerm) (a b : Listing) → HasList a js → HasList b ks → HasList (followed a b) (js ++ ks) }
    ensures signs { (js : List JoinedTerm) (l : Listing) → HasList l js → HasList (signed true l) (map turned js) }
    ensures products { (max : ℕ) (js ks ls : List JoinedTerm) (a b : Listing) → HasList a js → HasList b ks → paired js ks ≡ Some ls →
        counted ls ≤ max → HasList (limited max (pairs a b)) ls }
    ensures powers { (max k : ℕ) (js fronts ls : List JoinedTerm) (l : Listing) →
        HasList l js → HasList (powers max l (suc k)) fronts → paired fronts js ≡ Some ls → counted ls ≤ max →
        HasList (powers max l (suc (suc k))) ls }
    ensures begun { (j : JoinedTerm) → Goes (λ m. single (record { coefficient = m.coefficient; term = j.term })) (j ∷ []) (j ∷ []) }
    ensures together { (go : Monomial → Listing) (js ks ls : List JoinedTerm) → Goes go js ks → Stand ks ls → Goes go js ls }
    ensures rows { (max most : ℕ) (go : Monomial → Listing) (l : Listing) (js fronts ks ls : List JoinedTerm) →
        HasList l ks → Goes go js fronts → paired fronts ks ≡ Some ls →
        ((m : Monomial) → length ((go m).terms) ≤ most) → most * length l.terms ≤ max →
        Goes (λ m. limited max (pairs (go m) l)) js ls }
    ensures lengths { (max most : ℕ) (go : Monomial → Listing) (l : Listing) → ((m : Monomial) → length ((go m).terms) ≤ most) →
        (m : Monomial) → length ((limited max (pairs (go m) l)).terms) ≤ most * length l.terms }
{
    weights();
}

/// A joined term with a list so many times behind it is that term times the power of the list, joined.
pub fn powers_behind_joined_terms()
    ensures { (max n : ℕ) (j : JoinedTerm) (list : List Monomial) (ps made : List JoinedTerm) → IsPower list n ps → HasRoom (suc n) list j →
        length list ^ suc n ≤ max → paired (j ∷ []) ps ≡ Some made →
        Goes (λ m. row_behind max (single (record { coefficient = m.coefficient; term = j.term })) (replicate (suc n) (all_of list))) (j ∷ []) made }
{
    weights();
}
