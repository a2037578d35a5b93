use sqlite_items::Items;

/// Statements in a row, some of which are blocks, in a clause their list: one tree for all that reads, checks and carries
/// them out. `L` is a statement that is no block, `C` a condition and `F` a choice of functions.
pub type Block<L, C, F> = Items<Action<L, C, F>>;

/// A statement that is carried out on terms.
#[derive(Drop)]
pub enum Action<L, C, F> {
    /// It is no block.
    Plain(L),
    /// What stands in the block is repeated.
    Repeat(Block<L, C, F>),
    /// The first branch whose condition holds is taken, else the last one, where it is written.
    Choose(Items<Branch<C, Block<L, C, F>>>, Option<Block<L, C, F>>),
    /// The block takes the arguments of these functions.
    Within(F, Block<L, C, F>),
}

/// A branch that is taken where its condition holds.
#[derive(Drop)]
pub struct Branch<C, B> {
    pub condition: C,
    pub block: B,
}
