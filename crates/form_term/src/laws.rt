//! Laws of the definitions, each the contract of a function that does nothing.

ghost use Rattle.std.specs.Prelude.{◌≡◌, ◌≢◌, ◌<◌, ◌↔◌, ℕ, true, false, List, All};
ghost use Rattle.std.specs.List.{AllByRecursion};
ghost use Rattle.std.specs.Cmp.Lexicographic.{slice_cmp};
ghost use Rattle.std.specs.Cmp.{IsTotalOrder};
ghost use Rattle.std.specs.Ordering.{int_cmp, nat_cmp, ordering_then};
ghost use Rattle.std.specs.declared.cmp.Ordering.TheVariants.{Equal, Less};
ghost use Rattle.form_term.specs.declared.piece.Piece.{Piece};
ghost use Rattle.form_term.specs.ArgumentOrder.{IsPairBefore, argument_order, dot_exponent_of};
ghost use Rattle.form_term.specs.Arguments.{arguments_of};
ghost use Rattle.form_term.specs.Named.{Places, ArePiecesNamed, IsArgumentNamed, IsNamed};
ghost use Rattle.form_term.specs.Pieces.{piece_order};
ghost use Rattle.form_term.specs.Term.{Term, Argument, Call, IsTerm, IsCall, IsArgumentOf, AreArguments, call_order, exponent_of, order, pieces_of_arguments, pieces_of_term, index_order, component_order, delta_order};
ghost use Rattle.form_term.specs.declared.index.Index.TheVariants as indices;
ghost use Rattle.form_term.specs.declared.index.Component.{Component};
ghost use Rattle.form_term.specs.declared.index.Delta.{Delta};

/// The order of terms is total, and only equal terms compare equal. `i_` decides first, then the first symbol in order
/// of declaration whose exponents differ, and where none do, the first pair of vectors whose exponents do.
pub fn order_of_terms()
    ensures total { IsTotalOrder order }
    ensures equal { (t u : Term) → IsTerm t → IsTerm u → order t u ≡ Equal → t ≡ u }
    ensures imaginary { (t u : Term) → t.others.is_imaginary ≡ false → u.others.is_imaginary ≡ true →
        order t u ≡ Less }
    ensures first { (t u : Term) (first : ℕ) → t.others.is_imaginary ≡ u.others.is_imaginary →
        ((symbol : ℕ) → symbol < first → exponent_of t symbol ≡ exponent_of u symbol) →
        exponent_of t first ≢ exponent_of u first →
        order t u ≡ int_cmp (exponent_of t first) (exponent_of u first) }
    ensures dots { (t u : Term) (left right : ℕ) → IsTerm t → IsTerm u →
        t.others.is_imaginary ≡ u.others.is_imaginary →
        ((symbol : ℕ) → exponent_of t symbol ≡ exponent_of u symbol) →
        ((p q : ℕ) → IsPairBefore p q left right → dot_exponent_of t p q ≡ dot_exponent_of u p q) →
        dot_exponent_of t left right ≢ dot_exponent_of u left right →
        order t u ≡ int_cmp (dot_exponent_of t left right) (dot_exponent_of u left right) }
{}

/// The powers of symbols in a term are known by their exponents.
pub fn exponents_of_terms()
    ensures { (t u : Term) → IsTerm t → IsTerm u →
        ((symbol : ℕ) → exponent_of t symbol ≡ exponent_of u symbol) → t.others ≡ u.others → t ≡ u }
{}

/// Reading a function's arguments undoes writing them as pieces.
pub fn reading_of_arguments()
    ensures { (args : List Argument) → All (IsArgumentOf IsTerm) args →
        arguments_of (pieces_of_arguments args) ≡ args }
{}

/// Each function's pieces are those of its arguments, which are lawful.
pub fn pieces_of_calls()
    ensures { (c : Call) → IsCall c →
        (c.pieces ≡ pieces_of_arguments (arguments_of c.pieces))
        × All (IsArgumentOf IsTerm) (arguments_of c.pieces) }
{}

/// So are pieces that stand for any number of arguments; functions are made of exactly such ones.
pub fn lawful_pieces()
    ensures read { (ps : List Piece) → AreArguments ps →
        (ps ≡ pieces_of_arguments (arguments_of ps)) × All (IsArgumentOf IsTerm) (arguments_of ps) }
    ensures calls { (c : Call) → IsCall c ↔ AreArguments c.pieces }
{}

/// Indices go by their kind and then by their number, and components and deltas by their parts from the left.
pub fn order_of_indices()
    ensures fixed { (m n : ℕ) → index_order (indices.Fixed m) (indices.Fixed n) ≡ nat_cmp m n }
    ensures declared { (m n : ℕ) → index_order (indices.Declared m) (indices.Declared n) ≡ nat_cmp m n }
    ensures dummies { (m n : ℕ) → index_order (indices.Dummy m) (indices.Dummy n) ≡ nat_cmp m n }
    ensures fixed_first { (m n : ℕ) → index_order (indices.Fixed m) (indices.Declared n) ≡ Less }
    ensures fixed_before_dummies { (m n : ℕ) → index_order (indices.Fixed m) (indices.Dummy n) ≡ Less }
    ensures dummies_last { (m n : ℕ) → index_order (indices.Declared m) (indices.Dummy n) ≡ Less }
    ensures components { (c d : Component) →
        component_order c d ≡ ordering_then (nat_cmp c.vector d.vector) (index_order c.index d.index) }
    ensures deltas { (c d : Delta) →
        delta_order c d ≡ ordering_then (index_order c.first d.first) (index_order c.second d.second) }
{}

/// Pieces compare as the arguments that they are those of. So functions go by their names, and then by their arguments.
pub fn order_of_arguments()
    ensures pieces { (xs ys : List Argument) → All (IsArgumentOf IsTerm) xs → All (IsArgumentOf IsTerm) ys →
        slice_cmp piece_order (pieces_of_arguments xs) (pieces_of_arguments ys) ≡ slice_cmp argument_order xs ys }
    ensures calls { (c d : Call) → IsCall c → IsCall d →
        call_order c d ≡ ordering_then (nat_cmp c.function d.function)
        (slice_cmp argument_order (arguments_of c.pieces) (arguments_of d.pieces)) }
{}

/// The names in a function's arguments stand at their places where those of each argument do, and the names of a term where
/// those of the pieces do that it is kept as in an argument.
pub fn names_of_calls()
    ensures arguments { (names : Places) (c : Call) → IsCall c →
        ArePiecesNamed names c.pieces ↔ AllByRecursion (IsArgumentNamed names) (arguments_of c.pieces) }
    ensures terms { (names : Places) (t : Term) → IsNamed names t ↔ ArePiecesNamed names (pieces_of_term t) }
{}
