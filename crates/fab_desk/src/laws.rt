//! That threads may share a desk. Each function does nothing: what it asks of types is the law.

use crate::desk::{Desk, DeskSeat};
use fab_bay::bay::Bay;
use fab_bay::transit::Transit;

fn may_be_shared<X: Sync>(_: &X) {}

fn may_be_given<X: Send>(_: &X) {}

/// A thread may be given a bay.
pub fn threads_may_have_a_bay(bay: &Bay) {
    may_be_given(bay);
}

/// A thread may be given a tenant on its way.
pub fn threads_may_have_a_transit(transit: &Transit) {
    may_be_given(transit);
}

/// Threads may share a desk.
pub fn threads_may_share_a_desk(desk: &Desk) {
    may_be_shared(desk);
}

/// A thread may be given a desk.
pub fn threads_may_have_a_desk(desk: &Desk) {
    may_be_given(desk);
}

/// A thread may be given a seat.
pub fn threads_may_have_a_seat(seat: &DeskSeat) {
    may_be_given(seat);
}
