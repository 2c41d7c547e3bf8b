//! Cells of system calls: their arguments and 8 (IEEE 1364-2005, clause 17).

ghost use Rattle.std.specs.Prelude.{◌≡◌, ℕ, ◌+◌, ◌∷◌, [], map, slice_index, List};
ghost use Rattle.vl_design.specs.Calls.{finish_of, save_of, fread_of, read_hex_of, file_of, task_of};
ghost use Rattle.vl_design.specs.Cost.{exp_cells, exps_cells, task_cells};
ghost use Rattle.vl_design.specs.Formats.{Arg};
ghost use Rattle.vl_design.specs.Placed.{Un};
ghost use Rattle.vl_design.specs.Plainly.{args};
ghost use Rattle.vl_design.specs.Seen as seen;
ghost use Rattle.vl_design.specs.Syntax.{Fgetc, Finish};
ghost use Rattle.vl_design.specs.Trees.{arg_of, exp_of};
ghost use Rattle.vl_limits.specs.Tasks.{kind_task};
ghost use Rattle.vl_design.specs.Costs.{saturated};
ghost use Rattle.vl_cost.specs.Walks.{called_cells};

use crate::displays::display_cells;
use crate::expressions::exp_cells;
use crate::sums::plus;
use vl_design::UnOp;
use vl_design::design::{Expr, ExprNode, SysArg, SysCall};
use vl_limits::tasks::{Kind, is_signal, is_text, is_value, kind_of};

/// The cells of an argument that is an expression.
fn value_cells(bodies: &[u64], a: &SysArg) -> u64
    ensures file { (others : List Arg) → saturated (8 + result) ≡ saturated (task_cells (λ f. slice_index bodies.now f) (file_of Fgetc (arg_of a.now ∷ others))) }
    ensures finish { (others : List Arg) → saturated (result + exps_cells (λ f. slice_index bodies.now f) (finish_of others)) ≡ saturated (exps_cells (λ f. slice_index bodies.now f) (finish_of (arg_of a.now ∷ others))) }
{
    match a {
        SysArg::Null | SysArg::Str(_) => 0,
        SysArg::Value(e) => exp_cells(bodies, e),
    }
}

/// The cells of a call that ends the run: the expressions among its arguments.
fn finish_cells(bodies: &[u64], given: &[SysArg]) -> u64
    ensures { result ≡ saturated (task_cells (λ f. slice_index bodies.now f) (Finish (finish_of (map arg_of given.now)))) }
{
    let mut all = 8;
    for a in given {
        all = plus(all, value_cells(bodies, a));
    }
    all
}

/// The cells of a call whose argument is the number of a file.
fn file_cells(bodies: &[u64], given: &[SysArg]) -> u64
    ensures { result ≡ saturated (task_cells (λ f. slice_index bodies.now f) (file_of Fgetc (map arg_of given.now))) }
{
    match given {
        [] => 8,
        [first, ..] => plus(8, value_cells(bodies, first)),
    }
}

/// The cells of a call whose first argument is a name.
fn name_cells(given: &[SysArg]) -> u64
    ensures { (body : ℕ → ℕ) → result ≡ task_cells body (save_of (map arg_of given.now)) }
{
    match given {
        [] => 8,
        [first, ..] => match first {
            SysArg::Str(_) => 10,
            SysArg::Null | SysArg::Value(_) => 8,
        },
    }
}

/// The cells of a call that reads a file to a variable.
fn read_cells(bodies: &[u64], given: &[SysArg]) -> u64
    ensures { result ≡ saturated (task_cells (λ f. slice_index bodies.now f) (fread_of (map arg_of given.now))) }
{
    match given {
        [] | [_] => 8,
        [variable, file, ..] => {
            if is_signal(variable) && is_value(file) {
                plus(10, value_cells(bodies, file))
            } else {
                8
            }
        }
    }
}

/// The cells of a call that reads a file to a memory.
fn load_cells(given: &[SysArg]) -> u64
    ensures { (body : ℕ → ℕ) → result ≡ task_cells body (read_hex_of (map arg_of given.now)) }
{
    match given {
        [] | [_] => 8,
        [name, memory, ..] => {
            if is_text(name) && is_signal(memory) {
                10
            } else {
                8
            }
        }
    }
}

/// The cells of a call that takes its arguments so.
fn kind_cells(bodies: &[u64], kind: Kind, given: &[SysArg]) -> u64
    ensures { result ≡ saturated (task_cells (λ f. slice_index bodies.now f) (kind_task kind (map arg_of given.now))) }
{
    match kind {
        Kind::Shows => display_cells(bodies, given),
        Kind::Finishes => finish_cells(bodies, given),
        Kind::Names => name_cells(given),
        Kind::Reads => read_cells(bodies, given),
        Kind::Asks => file_cells(bodies, given),
        Kind::Loads => load_cells(given),
        Kind::Unknown => 8,
    }
}

/// The cells of a system call.
pub(crate) fn task_cells(bodies: &[u64], call: &SysCall) -> u64
    ensures { result ≡ saturated (task_cells (λ f. slice_index bodies.now f) (task_of [] call.now.name (args (seen.args_of call.now.args.items)))) }
{
    let kind = kind_of(call.name.as_slice());
    kind_cells(bodies, kind, call.args.as_slice())
}

/// The cells of a call behind an operator.
fn operated_cells(bodies: &[u64], op: UnOp, a: &Expr) -> u64
    ensures { result ≡ saturated (called_cells (λ f. slice_index bodies.now f) (Un a.now.place op (seen.exp_of a.now))) }
{
    match op {
        UnOp::LogNot => match &a.node {
            ExprNode::Sys(call) => task_cells(bodies, call),
            ExprNode::Num(_, _) | ExprNode::Label(_) | ExprNode::Sig(_) => 0,
            ExprNode::Word(_, _) | ExprNode::Pick(_, _, _, _) | ExprNode::Slice(_, _, _) => 0,
            ExprNode::Un(_, _) | ExprNode::Bin(_, _, _) | ExprNode::Cond(_, _, _) => 0,
            ExprNode::Cat(_) | ExprNode::Rep(_, _) | ExprNode::Cast(_, _) => 0,
            ExprNode::Call(_, _) | ExprNode::Time => 0,
        },
        UnOp::Neg | UnOp::Not | UnOp::RedAnd | UnOp::RedOr => 0,
        UnOp::RedXor | UnOp::RedNand | UnOp::RedNor | UnOp::RedXnor => 0,
    }
}

/// The cells of the call of a right side or a condition.
fn called_cells(bodies: &[u64], e: &Expr) -> u64
    ensures { result ≡ saturated (called_cells (λ f. slice_index bodies.now f) (seen.exp_of e.now)) }
{
    match &e.node {
        ExprNode::Sys(call) => task_cells(bodies, call),
        ExprNode::Un(op, a) => operated_cells(bodies, *op, a),
        ExprNode::Num(_, _) | ExprNode::Label(_) | ExprNode::Sig(_) => 0,
        ExprNode::Word(_, _) | ExprNode::Pick(_, _, _, _) | ExprNode::Slice(_, _, _) => 0,
        ExprNode::Bin(_, _, _) | ExprNode::Cond(_, _, _) | ExprNode::Cat(_) => 0,
        ExprNode::Rep(_, _) | ExprNode::Cast(_, _) | ExprNode::Call(_, _) => 0,
        ExprNode::Time => 0,
    }
}

/// The cells of a right side or a condition.
pub(crate) fn whole_cells(bodies: &[u64], e: &Expr) -> u64
    ensures { result ≡ saturated (called_cells (λ f. slice_index bodies.now f) (seen.exp_of e.now) + exp_cells (λ f. slice_index bodies.now f) (exp_of e.now)) }
{
    plus(called_cells(bodies, e), exp_cells(bodies, e))
}
