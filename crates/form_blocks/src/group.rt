use form_ast::Rewrite;
use form_base::Spot;
use sqlite_items::Items;

/// An `id` and the `also`s behind it so far.
#[derive(Drop)]
pub struct Group {
    /// Where the `id` begins.
    pub spot: Spot,
    pub id: Rewrite,
    pub others: Items<Rewrite>,
}
