//! The rule of the lock's table.
use crate::kept::Kept;
use crate::view::View;
use atomic_table::{Seat, TableRule};
use std::snapshot::Snapshot;

/// What is fixed when the table is made: the value as it was then, whose label is the lock's, and
/// how many progress words there are.
#[derive(Drop)]
pub(crate) struct TableKey<T> {
    pub(crate) first: Snapshot<T>,
    pub(crate) count: u64,
}

/// The rule that each step of the lock keeps.
pub(crate) struct LockRule;

impl<T: Kept> TableRule<Option<T>, View<T::Label, T::Note>, TableKey<T>> for LockRule {
    ghost use Rattle.fab_lock.specs.Rule.{KeepsRule};
    ghost use Rattle.fab_lock.specs.Views.{first_view};

    ghost holds = { λ key. KeepsRule T.label T.history T.entry (T.label key.first.value) key.count };

    ghost first = { λ key. first_view (T.label key.first.value) key.count };
}

/// A seat at the table itself.
pub(crate) type TableSeat<T> = Seat<Option<T>, View<<T as Kept>::Label, <T as Kept>::Note>>;
