//! Laws of the definitions, each the contract of a function that does nothing.
ghost use Rattle.std.specs.Prelude.{◌≡◌, ◌≤◌, ◌*◌, ℕ, ℤ, pos, ◌+ℤ◌, ◌*ℤ◌, nat_abs, List, [], ◌∷◌, ◌++◌, map, Some, Ok};
ghost use Rattle.std.specs.Int.{◌∣◌};
ghost use Rattle.std.specs.Ordering.{int_cmp};
ghost use Rattle.std.specs.declared.cmp.Ordering.TheVariants.{Equal};
ghost use Rattle.std.specs.List.{AllByRecursion};
ghost use Rattle.std.specs.List.Sorted.{IsPermutation};
ghost use Rattle.form_frac.specs.Fraction.{Fraction, IsLowest, HasValue, gcd, lcm, reduced, make, add, multiply, reciprocal, negate, compare, is_below_zero, whole};
ghost use Rattle.form_frac.specs.Weight.{Weight, IsWeight, IsSum, of, join, times, sum_over, product, products, added_up};

/// To bring a fraction to lowest terms keeps its value, and leaves no common divisor.
pub fn lowest_terms()
    ensures value { (n : ℤ) (d : ℕ) → 1 ≤ d → HasValue (reduced n d) n (pos d) }
    ensures coprime { (n : ℤ) (d : ℕ) → 1 ≤ d → gcd (nat_abs (reduced n d).numerator) (reduced n d).denominator ≡ 1 }
{}

/// The multiple over which a sum goes divides every other.
pub fn least_common_multiple()
    ensures left { (a b : ℕ) → a ∣ lcm a b }
    ensures right { (a b : ℕ) → b ∣ lcm a b }
    ensures least { (a b m : ℕ) → a ∣ m → b ∣ m → lcm a b ∣ m }
{}

/// A sum is n/d + k/e = (n*e + k*d) / (d*e) by value, a product n/d * k/e = (n*k) / (d*e).
pub fn values()
    ensures made { (n d : ℤ) (f : Fraction) → make n d ≡ Ok f → HasValue f n d }
    ensures sum { (f g s : Fraction) → IsLowest f → IsLowest g → add f g ≡ Some s →
        HasValue s (f.numerator *ℤ pos g.denominator +ℤ g.numerator *ℤ pos f.denominator) (pos (f.denominator * g.denominator)) }
    ensures product { (f g p : Fraction) → multiply f g ≡ Some p →
        HasValue p (f.numerator *ℤ g.numerator) (pos (f.denominator * g.denominator)) }
{}

/// A fraction and its negative add up to 0. A fraction times its reciprocal is 1, and both have one sign. One fraction is below
/// another one where their difference is below 0, and only equal ones are neither below nor above one another.
pub fn signs()
    ensures negative { (f : Fraction) → IsLowest f → add f (negate f) ≡ Some (whole (pos 0)) }
    ensures reciprocal { (f r : Fraction) → IsLowest f → reciprocal f ≡ Some r → multiply f r ≡ Some (whole (pos 1)) }
    ensures kept { (f r : Fraction) → IsLowest f → reciprocal f ≡ Some r → is_below_zero r ≡ is_below_zero f }
    ensures order { (f g d : Fraction) → IsLowest f → IsLowest g → add f (negate g) ≡ Some d → compare f g ≡ int_cmp d.numerator (pos 0) }
    ensures equal { (f g : Fraction) → IsLowest f → IsLowest g → compare f g ≡ Equal → f ≡ g }
{}

/// What is added from left to right is the sum of all, over any number that their denominators divide.
pub fn sums()
    ensures { (k : ℕ) (f s : Fraction) (fs : List Fraction) → 1 ≤ k → AllByRecursion IsLowest (f ∷ fs) → AllByRecursion (λ g. g.denominator ∣ k) (f ∷ fs) →
        added_up f fs ≡ Some s → s ≡ sum_over k (f ∷ fs) }
{}

/// Within their weight fractions add up to their sum in whatever order and however they are put together, and so do
/// their products.
pub fn weights()
    ensures one { (f : Fraction) → IsLowest f → IsSum (of f) f (f ∷ []) × IsWeight (of f) }
    ensures fold { (w : Weight) (x f : Fraction) (fs : List Fraction) → IsWeight w → IsSum w x (f ∷ fs) → added_up f fs ≡ Some x }
    ensures over { (w : Weight) (x : Fraction) (fs : List Fraction) (k : ℕ) → IsSum w x fs → w.denominator ∣ k → 1 ≤ k → sum_over k fs ≡ x }
    ensures moved { (w : Weight) (x : Fraction) (fs gs : List Fraction) → IsPermutation fs gs → IsSum w x fs → IsSum w x gs }
    ensures joined { (a b c : Weight) (x y : Fraction) (fs gs : List Fraction) → IsWeight a → IsWeight b → join a b ≡ Some c →
        IsSum a x fs → IsSum b y gs → IsWeight c × (add x y ≡ Some (sum_over c.denominator (fs ++ gs))) × IsSum c (sum_over c.denominator (fs ++ gs)) (fs ++ gs) }
    ensures paired { (a b c : Weight) (x y : Fraction) (fs gs : List Fraction) → IsWeight a → IsWeight b → times a b ≡ Some c →
        IsSum a x fs → IsSum b y gs → IsWeight c × (multiply x y ≡ Some (product x y)) × IsSum c (product x y) (products fs gs) }
    ensures each { (a b c : Weight) (x y : Fraction) (fs gs : List Fraction) → IsWeight a → IsWeight b → times a b ≡ Some c →
        IsSum a x fs → IsSum b y gs → AllByRecursion (λ f. AllByRecursion (λ g. multiply f g ≡ Some (product f g)) gs) fs }
    ensures negated { (w : Weight) (x : Fraction) (fs : List Fraction) → IsSum w x fs → IsSum w (negate x) (map negate fs) }
{}

/// Products of fractions, whatever their parts.
pub fn products()
    ensures associative { (f g h : Fraction) → product f (product g h) ≡ product (product f g) h }
    ensures commutative { (f g : Fraction) → product f g ≡ product g f }
    ensures negated { (f g : Fraction) → product f (negate g) ≡ negate (product f g) }
    ensures one { (f : Fraction) → IsLowest f → product (whole (pos 1)) f ≡ f }
    ensures made { (f g p : Fraction) → multiply f g ≡ Some p → p ≡ product f g }
{}
