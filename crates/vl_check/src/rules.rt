//! What may stand in a process or a function: refused constructs 15, 17, 18, 20, 22 and 23, and of 21 assignments to loop
//! variables.

ghost use Rattle.std.specs.Prelude.{◌≡◌, ◌++◌};
ghost use Rattle.std.specs.Str.{bytes_eq};
ghost use Rattle.vl_design.specs.Seen as seen;
ghost use Rattle.vl_design.specs.Stops.{earliest};
ghost use Rattle.vl_sites.specs.Seen.{site_of, what_of};
ghost use Rattle.vl_check.specs.Bodies.{kind_is};
ghost use Rattle.vl_check.specs.Rules as r;
ghost use Rattle.vl_check.specs.Seen.{setting_of};

use crate::kinds::{is_clock, is_derived, is_loop_in};
use crate::place::{Role, Setting};
use vl_design::stop::Stop;
use vl_design::stops::construct_if;
use vl_sites::site::{Site, What};

/// It names a clock.
fn names_clock(s: &Setting<'_>, what: What<'_>) -> bool
    ensures { result ≡ r.names (kind_is r.is_clock s.now.shared.now) (what_of what.entry) }
{
    match what {
        What::Reads(k) | What::Sets(k, _, _) | What::Heads(k) => is_clock(s.shared, k),
        What::Calls(_) | What::Delays | What::Tasks(_) => false,
    }
}

/// Neither nonblocking assignments nor system tasks may stand there.
fn is_pure(role: Role) -> bool
    ensures { result ≡ r.is_pure role }
{
    match role {
        Role::Combinational | Role::Function => true,
        Role::Initial | Role::Clocked => false,
    }
}

/// It is a nonblocking assignment.
fn is_delay(what: What<'_>) -> bool
    ensures { result ≡ r.is_delay (what_of what.entry) }
{
    matches!(what, What::Delays)
}

/// It is a system call.
fn is_task(what: What<'_>) -> bool
    ensures { result ≡ r.is_task (what_of what.entry) }
{
    matches!(what, What::Tasks(_))
}

/// It loads a memory.
fn loads(what: What<'_>) -> bool
    ensures { result ≡ r.loads (what_of what.entry) }
{
    match what {
        What::Tasks(call) => call.name.as_slice() == b"$readmemh".as_slice(),
        _ => false,
    }
}

/// In a function it names what isn't the function's own.
fn is_foreign(s: &Setting<'_>, what: What<'_>) -> bool
    ensures { result ≡ r.is_foreign s.now.role s.now.shared.now (what_of what.entry) }
{
    match (s.role, what) {
        (Role::Function, What::Reads(k) | What::Sets(k, _, _) | What::Heads(k)) => {
            (k as usize) < s.shared.len()
        }
        _ => false,
    }
}

/// It assigns a loop variable elsewhere than in the header of its loop.
fn sets_loop(s: &Setting<'_>, what: What<'_>) -> bool
    ensures { result ≡ r.sets (kind_is r.is_loop (s.now.shared.now ++ s.now.own.now)) (what_of what.entry) }
{
    match what {
        What::Sets(k, _, _) => is_loop_in(s.shared, s.own, k),
        _ => false,
    }
}

/// It writes a memory where that may not be.
fn writes_memory(role: Role, what: What<'_>) -> bool
    ensures { result ≡ r.writes_memory role (what_of what.entry) }
{
    match role {
        Role::Clocked => matches!(what, What::Sets(_, true, false)),
        Role::Combinational => matches!(what, What::Sets(_, true, _)),
        Role::Initial | Role::Function => false,
    }
}

/// At time zero it reads what follows other signals; elsewhere it loads a memory.
fn is_untimely(s: &Setting<'_>, what: What<'_>) -> bool
    ensures { result ≡ r.is_untimely s.now.role s.now.shared.now (what_of what.entry) }
{
    match s.role {
        Role::Initial => match what {
            What::Reads(k) => is_derived(s.shared, k),
            _ => false,
        },
        _ => loads(what),
    }
}

/// The first of a fault so far and those at a site.
pub(crate) fn site_fault(best: Option<Stop>, s: &Setting<'_>, site: &Site<'_>) -> Option<Stop>
    ensures { result ≡ earliest best (r.site_faults (setting_of s.now) (site_of site.now)) }
{
    let at = site.place;
    let what = site.what;
    let pure = is_pure(s.role);
    let best = construct_if(best, names_clock(s, what), at, 15);
    let best = construct_if(best, pure && is_delay(what), at, 17);
    let best = construct_if(best, pure && is_task(what), at, 18);
    let best = construct_if(best, is_foreign(s, what), at, 20);
    let best = construct_if(best, sets_loop(s, what), at, 21);
    let best = construct_if(best, writes_memory(s.role, what), at, 22);
    construct_if(best, is_untimely(s, what), at, 23)
}
