use crate::Comparison;
use sqlite_items::Items;

/// What a condition is made of: a value, two values that are compared, or a condition in parentheses.
#[derive(Drop)]
pub enum Test<V> {
    /// A value alone, which is to be other than 0.
    Nonzero(V),
    Compared(V, Comparison, V),
    Parenthesis(Condition<V>),
}

/// Tests joined by `&&`, which binds closer, and by `||`: one of the lists has to hold whole. None of them is empty.
pub type Condition<V> = Items<Items<Test<V>>>;
