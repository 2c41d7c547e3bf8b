//! What a seat knows.
use std::collections::LinkedList;

/// What a seat of a lock knows. Contracts speak of it, and no program makes a value of it.
///
/// A seat has a range of numbers, from its own number `low` up to `low + others`.
pub struct View<L, N> {
    /// The label of the lock; `None` where the seat was joined into another.
    pub label: Option<L>,
    /// How many progress words the lock has.
    pub count: u64,
    /// The seat's own number, the lowest of its range.
    pub low: u64,
    /// How many more numbers the range has.
    pub others: u64,
    /// The history that it has seen.
    pub seen: LinkedList<N>,
    /// The notes that it gave, in their order.
    pub own: LinkedList<N>,
    /// Between the two steps of a join, what the joined seat had seen; else nothing.
    pub told: LinkedList<N>,
    /// The numbers of the seats that were joined into it, each with the notes that it gave.
    pub joined: LinkedList<(u64, LinkedList<N>)>,
    /// The progress words that it glanced at, the last one first, each with the tick found.
    pub known: LinkedList<(u64, u64)>,
    /// Whether it holds the value.
    pub holds: bool,
    /// While it holds the value: the history that it took.
    pub taken: LinkedList<N>,
    /// While it holds the value: the progress words.
    pub words: LinkedList<u64>,
}
