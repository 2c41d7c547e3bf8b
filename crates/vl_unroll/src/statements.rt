//! Statements with their loops unrolled.

ghost use Rattle.std.specs.Prelude.{◌≡◌, map, IfOk, All, slice_set, replicate, true};
ghost use Rattle.vl_design.specs.Seen.{stm_of, target_of, exp_of, args_of};
ghost use Rattle.vl_design.specs.Placed as p;
ghost use Rattle.vl_loops.specs.Placed.{exp_put, target_put, args_put, stm_unrolled};
ghost use Rattle.vl_loops.specs.Unroll.{is_loop};
ghost use Rattle.vl_loops.specs.Rooms.{rows_of, scope_of, values_of, state_of};
ghost use Rattle.vl_loops.specs.Loops.{HasHeads, IsLoop};
ghost use Rattle.vl_unroll.specs.Heads.{AreReady};
ghost use Rattle.vl_unroll.specs.Listed.{item_of, item_unrolled_of, stm_unrolled_of};

use crate::copies::copied;
use crate::put::{put, put_args, puts};
use crate::targets::put_target;
use std::alloc::{AllocError, Global};
use vl_design::Place;
use vl_design::design::{CaseItem, Expr, Stmt, StmtNode, SysCall, Target};
use vl_loops::header::turns_of;
use vl_loops::room::Room;

/// A blocking assignment.
fn assigned(
    alloc: Global,
    room: &Room<'_>,
    numbers: &[u128],
    place: Place,
    target: &Target,
    source: &Expr,
) -> Result<Stmt, AllocError>
    requires { AreReady (rows_of room.now) numbers.now }
    ensures { IfOk result (λ x. stm_of x ≡ p.Set place (target_put (rows_of room.now) (values_of numbers.now) (target_of target.now)) (exp_put (rows_of room.now) (values_of numbers.now) (exp_of source.now))) }
{
    let target = put_target(alloc, room, numbers, target)?;
    let source = put(alloc, room, numbers, source)?;
    Ok(Stmt {
        place,
        node: StmtNode::Set(target, source),
    })
}

/// A nonblocking assignment.
fn assigned_later(
    alloc: Global,
    room: &Room<'_>,
    numbers: &[u128],
    place: Place,
    target: &Target,
    source: &Expr,
) -> Result<Stmt, AllocError>
    requires { AreReady (rows_of room.now) numbers.now }
    ensures { IfOk result (λ x. stm_of x ≡ p.Later place (target_put (rows_of room.now) (values_of numbers.now) (target_of target.now)) (exp_put (rows_of room.now) (values_of numbers.now) (exp_of source.now))) }
{
    let target = put_target(alloc, room, numbers, target)?;
    let source = put(alloc, room, numbers, source)?;
    Ok(Stmt {
        place,
        node: StmtNode::Later(target, source),
    })
}

/// A system task.
fn task(
    alloc: Global,
    room: &Room<'_>,
    numbers: &[u128],
    place: Place,
    call: &SysCall,
) -> Result<Stmt, AllocError>
    requires { AreReady (rows_of room.now) numbers.now }
    ensures { IfOk result (λ x. stm_of x ≡ p.Task place call.now.name (args_put (rows_of room.now) (values_of numbers.now) (args_of call.now.args.items))) }
{
    let args = put_args(alloc, room, numbers, call.args.as_slice())?;
    let name = copied(alloc, &call.name)?;
    Ok(Stmt {
        place,
        node: StmtNode::Sys(SysCall { name, args }),
    })
}

/// Statements one by one.
#[cycle(unroll)]
fn statements(
    alloc: Global,
    room: &Room<'_>,
    numbers: &mut [u128],
    list: &[Stmt],
) -> Result<Vec<Stmt>, AllocError>
    requires ready { AreReady (rows_of room.now) numbers.old }
    requires heads { All (λ s. HasHeads (rows_of room.now) (stm_of s)) list.now }
    ensures text { IfOk result (λ v. map stm_of v.items ≡ map (stm_unrolled_of (scope_of room.now) (state_of numbers.old)) list.now) }
    ensures kept { IfOk result (λ v. numbers.new ≡ numbers.old) }
{
    let mut all = Vec::new(alloc);
    for s in list {
        all.push(statement(alloc, room, numbers, s)?)?;
    }
    Ok(all)
}

/// A statement so many times.
#[cycle(unroll)]
fn copies(
    alloc: Global,
    room: &Room<'_>,
    numbers: &mut [u128],
    count: u32,
    body: &Stmt,
) -> Result<Vec<Stmt>, AllocError>
    requires ready { AreReady (rows_of room.now) numbers.old }
    requires heads { HasHeads (rows_of room.now) (stm_of body.now) }
    ensures text { IfOk result (λ v. map stm_of v.items ≡ replicate count (stm_unrolled (scope_of room.now) (stm_of body.now) (state_of numbers.old))) }
    ensures kept { IfOk result (λ v. numbers.new ≡ numbers.old) }
{
    let mut all = Vec::new(alloc);
    for _turn in 0..count {
        all.push(statement(alloc, room, numbers, body)?)?;
    }
    Ok(all)
}

/// An item of a case.
#[cycle(unroll)]
fn item(
    alloc: Global,
    room: &Room<'_>,
    numbers: &mut [u128],
    one: &CaseItem,
) -> Result<CaseItem, AllocError>
    requires ready { AreReady (rows_of room.now) numbers.old }
    requires heads { HasHeads (rows_of room.now) (stm_of one.now.body) }
    ensures text { IfOk result (λ x. item_of x ≡ item_unrolled_of (scope_of room.now) (state_of numbers.old) one.now) }
    ensures kept { IfOk result (λ v. numbers.new ≡ numbers.old) }
{
    let labels = puts(alloc, room, numbers, one.labels.as_slice())?;
    let body = statement(alloc, room, numbers, &one.body)?;
    Ok(CaseItem { labels, body })
}

/// Items of a case one by one.
#[cycle(unroll)]
fn items(
    alloc: Global,
    room: &Room<'_>,
    numbers: &mut [u128],
    list: &[CaseItem],
) -> Result<Vec<CaseItem>, AllocError>
    requires ready { AreReady (rows_of room.now) numbers.old }
    requires heads { All (λ x. HasHeads (rows_of room.now) (stm_of x.body)) list.now }
    ensures text { IfOk result (λ v. map item_of v.items ≡ map (item_unrolled_of (scope_of room.now) (state_of numbers.old)) list.now) }
    ensures kept { IfOk result (λ v. numbers.new ≡ numbers.old) }
{
    let mut all = Vec::new(alloc);
    for one in list {
        all.push(item(alloc, room, numbers, one)?)?;
    }
    Ok(all)
}

/// One turn of a loop, in which its variable has this number; it keeps it.
#[cycle(unroll)]
#[tactic(auto, using(crate::proofs::Names::names))]
fn turn(
    alloc: Global,
    room: &Room<'_>,
    numbers: &mut [u128],
    variable: u32,
    number: u128,
    body: &Stmt,
) -> Result<Stmt, AllocError>
    requires loops { is_loop (rows_of room.now) variable ≡ true }
    requires now { AreReady (rows_of room.now) numbers.old }
    requires ready { AreReady (rows_of room.now) (slice_set numbers.old variable number) }
    requires heads { HasHeads (rows_of room.now) (stm_of body.now) }
    ensures text { IfOk result (λ x. stm_of x ≡ stm_unrolled (scope_of room.now) (stm_of body.now) (state_of (slice_set numbers.old variable number))) }
    ensures kept { IfOk result (λ x. numbers.new ≡ slice_set numbers.old variable number) }
{
    numbers[variable as usize] = number;
    statement(alloc, room, numbers, body)
}

/// The turns of a loop one by one, by the numbers that its variable has in them.
#[cycle(unroll)]
#[tactic(auto, using(crate::proofs::Names::names))]
fn turns(
    alloc: Global,
    room: &Room<'_>,
    numbers: &mut [u128],
    variable: u32,
    all_numbers: &[u128],
    body: &Stmt,
) -> Result<Vec<Stmt>, AllocError>
    requires loops { is_loop (rows_of room.now) variable ≡ true }
    requires ready { AreReady (rows_of room.now) numbers.old }
    requires fits { All (λ n. AreReady (rows_of room.now) (slice_set numbers.old variable n)) all_numbers.now }
    requires heads { HasHeads (rows_of room.now) (stm_of body.now) }
    ensures text { IfOk result (λ v. map stm_of v.items ≡ map (λ n. stm_unrolled (scope_of room.now) (stm_of body.now) (state_of (slice_set numbers.old variable n))) all_numbers.now) }
    ensures kept { IfOk result (λ v. numbers.new ≡ numbers.old) }
{
    let before = numbers[variable as usize];
    let mut all = Vec::new(alloc);
    for number in all_numbers {
        all.push(turn(alloc, room, numbers, variable, *number, body)?)?;
    }
    numbers[variable as usize] = before;
    Ok(all)
}

/// A loop as a block of its turns.
#[cycle(unroll)]
fn loop_unrolled(
    alloc: Global,
    room: &Room<'_>,
    numbers: &mut [u128],
    place: Place,
    variable: u32,
    body: &Stmt,
    start: &Stmt,
    test: &Expr,
    step: &Stmt,
) -> Result<Stmt, AllocError>
    requires ready { AreReady (rows_of room.now) numbers.old }
    requires header { IsLoop (rows_of room.now) variable (stm_of start.now) (exp_of test.now) (stm_of step.now) }
    requires heads { HasHeads (rows_of room.now) (stm_of body.now) }
    ensures text { IfOk result (λ x. stm_of x ≡ stm_unrolled (scope_of room.now) (p.For place variable (stm_of start.now) (exp_of test.now) (stm_of step.now) (stm_of body.now)) (state_of numbers.old)) }
    ensures kept { IfOk result (λ x. numbers.new ≡ numbers.old) }
{
    let values = turns_of(alloc, room, numbers, variable, start, test, step)?;
    let all = turns(
        alloc,
        room,
        numbers,
        variable,
        values.numbers.as_slice(),
        body,
    )?;
    Ok(Stmt {
        place,
        node: StmtNode::Seq(all),
    })
}

/// The statement with its loops unrolled, where loop variables have these numbers, its places kept.
#[cycle(unroll)]
pub(crate) fn statement(
    alloc: Global,
    room: &Room<'_>,
    numbers: &mut [u128],
    s: &Stmt,
) -> Result<Stmt, AllocError>
    requires ready { AreReady (rows_of room.now) numbers.old }
    requires heads { HasHeads (rows_of room.now) (stm_of s.now) }
    ensures text { IfOk result (λ x. stm_of x ≡ stm_unrolled (scope_of room.now) (stm_of s.now) (state_of numbers.old)) }
    ensures kept { IfOk result (λ x. numbers.new ≡ numbers.old) }
{
    let place = s.place;
    match &s.node {
        StmtNode::Nop => Ok(Stmt {
            place,
            node: StmtNode::Nop,
        }),
        StmtNode::Seq(list) => {
            let list = statements(alloc, room, numbers, list.as_slice())?;
            Ok(Stmt {
                place,
                node: StmtNode::Seq(list),
            })
        }
        StmtNode::If(test, a, b) => {
            let a = Box::new(alloc, statement(alloc, room, numbers, a)?)?;
            let b = Box::new(alloc, statement(alloc, room, numbers, b)?)?;
            let test = put(alloc, room, numbers, test)?;
            Ok(Stmt {
                place,
                node: StmtNode::If(test, a, b),
            })
        }
        StmtNode::Case(subject, list, wild) => {
            let list = items(alloc, room, numbers, list.as_slice())?;
            let subject = put(alloc, room, numbers, subject)?;
            Ok(Stmt {
                place,
                node: StmtNode::Case(subject, list, *wild),
            })
        }
        StmtNode::For(variable, start, test, step, body) => loop_unrolled(
            alloc, room, numbers, place, *variable, body, start, test, step,
        ),
        StmtNode::Repeat(count, body) => {
            let list = copies(alloc, room, numbers, *count, body)?;
            Ok(Stmt {
                place,
                node: StmtNode::Seq(list),
            })
        }
        StmtNode::Set(target, source) => assigned(alloc, room, numbers, place, target, source),
        StmtNode::Later(target, source) => {
            assigned_later(alloc, room, numbers, place, target, source)
        }
        StmtNode::Sys(call) => task(alloc, room, numbers, place, call),
    }
}
