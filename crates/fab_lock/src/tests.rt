//! What no clause says: that a lock is made where there is memory, and that threads take turns.
ghost use Rattle.std.specs.Prelude.{◌≡◌, false};
ghost use Rattle.fab_lock.specs.Facts.{IsSeatOf};

use crate::{Entry, Kept, Lock, LockSeat};
use std::sync::Wait;
use std::test::Fail;
use std::thread::join;

/// How often each thread takes the value.
const TURNS: u32 = 200;

/// Notes under a name.
#[derive(Drop)]
struct Diary {
    name: u32,
    notes: Vec<Entry>,
}

impl Kept for Diary {
    type Label = u32;

    type Note = Entry;

    ghost label = { λ diary. diary.name };

    ghost history = { λ diary. diary.notes.items };

    ghost entry = { λ note. note };
}

/// Takes the value and gives it back.
fn look<R: Wait>(rt: &R, lock: &Lock<Diary>, seat: &mut LockSeat<Diary>)
    requires seat { IsSeatOf lock.now seat.old }
    requires free { seat.old.view.holds ≡ false }
    ensures seat { IsSeatOf lock.now seat.new }
    ensures free { seat.new.view.holds ≡ false }
{
    let diary = lock.grab(rt, seat);
    lock.give(seat, diary);
}

/// Does so many times.
fn look_often<R: Wait>(rt: &R, lock: &Lock<Diary>, mut seat: LockSeat<Diary>) -> LockSeat<Diary>
    requires seat { IsSeatOf lock.now seat }
    requires free { seat.view.holds ≡ false }
    ensures seat { IsSeatOf lock.now result }
    ensures free { result.view.holds ≡ false }
{
    for _ in 0..TURNS {
        look(rt, lock, &mut seat);
    }
    seat
}

#[test]
fn two_threads_take_turns(rt: HostRuntime) -> Result<(), Fail> {
    let diary = Diary {
        name: 7,
        notes: Vec::new(rt.alloc()),
    };
    let Ok((lock, mut seat)) = Lock::new(rt.alloc(), diary, 1) else {
        panic!(rt; "memory")
    };
    let other = lock.split(&mut seat);
    assert_eq!(rt; (seat.number(), seat.room()), (0, 0x7fff_ffff));
    assert_eq!(rt; (other.number(), other.room()), (0x8000_0000, 0x7fff_ffff));
    let (mut seat, other) = join(
        &rt,
        || look_often(&rt, &lock, seat),
        || look_often(&rt, &lock, other),
    );
    lock.join_seat(&mut seat, other);
    assert_eq!(rt; lock.glance(&mut seat, 0), 0);
    let diary = lock.grab(&rt, &mut seat);
    assert_eq!(rt; diary.name, 7);
    Ok(())
}
