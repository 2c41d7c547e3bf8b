//! The atomic steps of the lock, and what each tells its caller. These types are for proofs alone.
ghost use Rattle.fab_lock.specs.Steps.{Grabs, Releases, Posts, Glances, Reads, Settles};
ghost use Rattle.fab_lock.specs.Views.{lower_half, upper_half, told_view, spent_view};

use crate::kept::Kept;
use crate::view::View;
use atomic_table::{Join, Play, Split};

/// A try to take the value: a compare-exchange of word 0.
pub(crate) struct Grab;

impl<T: Kept> Play<Option<T>, View<T::Label, T::Note>> for Grab {
    ghost then = { Grabs T.label T.history T.entry };
}

/// The value comes back: a store to word 0.
pub(crate) struct Release;

impl<T: Kept> Play<Option<T>, View<T::Label, T::Note>> for Release {
    ghost then = { λ step before found after. Releases T.history before after };
}

/// A store to a progress word.
pub(crate) struct Post;

impl<T: Kept> Play<Option<T>, View<T::Label, T::Note>> for Post {
    ghost then = { λ step before found after. Posts step.word step.first before after };
}

/// A load of a progress word.
pub(crate) struct Glance;

impl<T: Kept> Play<Option<T>, View<T::Label, T::Note>> for Glance {
    ghost then = { λ step before found after. Glances T.entry step.word before found after };
}

/// A load of a progress word by the seat that holds the value.
pub(crate) struct Read;

impl<T: Kept> Play<Option<T>, View<T::Label, T::Note>> for Read {
    ghost then = { λ step before found after. Reads step.word before found after };
}

/// A load after a join, which settles the histories of both seats.
pub(crate) struct Settle;

impl<T: Kept> Play<Option<T>, View<T::Label, T::Note>> for Settle {
    ghost then = { λ step before found after. Settles before after };
}

/// A seat's range is cut in two.
pub(crate) struct Halve;

impl<L, N> Split<View<L, N>> for Halve {
    ghost left = { lower_half };

    ghost right = { upper_half };
}

/// A seat takes in what another knows.
pub(crate) struct TakeIn;

impl<L, N> Join<View<L, N>> for TakeIn {
    ghost both = { told_view };

    ghost spent = { spent_view };
}
