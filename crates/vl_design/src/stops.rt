//! Which fault comes first.

ghost use Rattle.std.specs.Prelude.{◌≡◌};
ghost use Rattle.vl_base.specs.Places as places;
ghost use Rattle.vl_design.specs.Stops as s;

use crate::stop::Stop;
use vl_base::place::Place;

/// The place of a fault.
fn place_of(a: Stop) -> Place
    ensures { result ≡ s.place_of a }
{
    match a {
        Stop::Construct(at, _) | Stop::Limit(at, _) => at,
        Stop::Memory => Place { line: 0, column: 0 },
    }
}

/// The number of a fault.
fn number_of(a: Stop) -> u8
    ensures { result ≡ s.number_of a }
{
    match a {
        Stop::Construct(_, n) | Stop::Limit(_, n) => n,
        Stop::Memory => 0,
    }
}

/// A place stands before another.
fn place_before(p: Place, q: Place) -> bool
    ensures { result ≡ places.place_before p q }
{
    p.line < q.line || (p.line == q.line && p.column < q.column)
}

/// Two places are one.
fn same_place(p: Place, q: Place) -> bool
    ensures { result ≡ places.same_place p q }
{
    p.line == q.line && p.column == q.column
}

/// A fault comes before another: the least place, then the least number.
fn is_before(a: Stop, b: Stop) -> bool
    ensures { result ≡ s.is_before a b }
{
    let p = place_of(a);
    let q = place_of(b);
    place_before(p, q) || (same_place(p, q) && number_of(a) < number_of(b))
}

/// The first of one more fault and those so far.
pub fn earlier(best: Option<Stop>, a: Stop) -> Option<Stop>
    ensures { result ≡ s.earlier best a }
{
    match best {
        None => Some(a),
        Some(so_far) => {
            if is_before(a, so_far) {
                Some(a)
            } else {
                Some(so_far)
            }
        }
    }
}

/// The first of those so far and a refused construct where a test holds.
pub fn construct_if(best: Option<Stop>, test: bool, at: Place, number: u8) -> Option<Stop>
    ensures { result ≡ s.earliest best (s.construct_if test at number) }
{
    if test {
        earlier(best, Stop::Construct(at, number))
    } else {
        best
    }
}

/// The first of those so far and a passed limit where a test holds.
pub fn limit_if(best: Option<Stop>, test: bool, at: Place, number: u8) -> Option<Stop>
    ensures { result ≡ s.earliest best (s.limit_if test at number) }
{
    if test {
        earlier(best, Stop::Limit(at, number))
    } else {
        best
    }
}
