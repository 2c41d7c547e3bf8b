//! What system calls count: their arguments (IEEE 1364-2005, clause 17).

ghost use Rattle.std.specs.Prelude.{◌≡◌, ◌+◌, ◌≤◌, ◌∷◌, [], min, map, List};
ghost use Rattle.vl_design.specs.Calls.{finish_of, save_of, fread_of, read_hex_of, file_of, task_of};
ghost use Rattle.vl_design.specs.Formats.{Arg};
ghost use Rattle.vl_design.specs.Placed.{Un};
ghost use Rattle.vl_design.specs.Plainly.{args};
ghost use Rattle.vl_design.specs.Seen as seen;
ghost use Rattle.vl_design.specs.Syntax.{Fgetc};
ghost use Rattle.vl_design.specs.Trees.{arg_of, exp_of};
ghost use Rattle.vl_loops.specs.Limits.{exps_count, task_count, call_count, whole_count};
ghost use Rattle.vl_limits.specs.Tallies.{counted_of};
ghost use Rattle.vl_limits.specs.Tasks.{is_signal, is_text, is_value, kind_by, kind_task, other_kind};

use crate::displays::display_sum;
use crate::expressions::exp_sum;
use crate::sums::{Tally, plus};
use vl_base::bits::UnOp;
use vl_base::text::is_word;
use vl_design::design::{Expr, ExprNode, SysArg, SysCall};

/// How a system call takes its arguments.
#[derive(Clone, Copy)]
pub enum Kind {
    /// It shows them.
    Shows,
    /// Each expression among them counts.
    Finishes,
    /// The first is a name.
    Names,
    /// The first is a variable, the second the number of a file.
    Reads,
    /// The first is the number of a file.
    Asks,
    /// The first is a name, the second a memory.
    Loads,
    /// It takes none.
    Unknown,
}

/// How a system call of this name takes its arguments, where it shows none.
fn other_kind(name: &[u8]) -> Kind
    ensures { result ≡ other_kind name.now }
{
    if is_word(name, b"$fread".as_slice()) {
        Kind::Reads
    } else if is_word(name, b"$fgetc".as_slice())
        || is_word(name, b"$feof".as_slice())
        || is_word(name, b"$fclose".as_slice())
    {
        Kind::Asks
    } else if is_word(name, b"$readmemh".as_slice()) {
        Kind::Loads
    } else {
        Kind::Unknown
    }
}

/// How a system call of this name takes its arguments.
pub fn kind_of(name: &[u8]) -> Kind
    ensures { result ≡ kind_by name.now }
{
    if is_word(name, b"$display".as_slice()) || is_word(name, b"$write".as_slice()) {
        Kind::Shows
    } else if is_word(name, b"$finish".as_slice()) {
        Kind::Finishes
    } else if is_word(name, b"$save".as_slice()) || is_word(name, b"$fopen".as_slice()) {
        Kind::Names
    } else {
        other_kind(name)
    }
}

/// A sum with what an argument of a call counts where it is an expression.
fn argument_sum(tally: &Tally<'_>, sum: u32, a: &SysArg) -> u32
    ensures file { (others : List Arg) → result ≡ min tally.now.cap (sum + task_count (counted_of tally.now) (file_of Fgetc (arg_of a.now ∷ others))) }
    ensures small { result ≤ tally.now.cap }
    ensures finish { (others : List Arg) → min tally.now.cap (result + exps_count (counted_of tally.now) (finish_of others)) ≡ min tally.now.cap (sum + exps_count (counted_of tally.now) (finish_of (arg_of a.now ∷ others))) }
{
    match a {
        SysArg::Null | SysArg::Str(_) => plus(tally.cap, sum, 0),
        SysArg::Value(e) => exp_sum(tally, sum, e),
    }
}

/// A sum with what the expressions among arguments count.
fn finish_sum(tally: &Tally<'_>, sum: u32, given: &[SysArg]) -> u32
    ensures { result ≡ min tally.now.cap (sum + exps_count (counted_of tally.now) (finish_of (map arg_of given.now))) }
{
    let mut all = plus(tally.cap, sum, 0);
    for a in given {
        all = argument_sum(tally, all, a);
    }
    all
}

/// A sum with what the number of a file counts that comes first.
fn file_sum(tally: &Tally<'_>, sum: u32, given: &[SysArg]) -> u32
    ensures { result ≡ min tally.now.cap (sum + task_count (counted_of tally.now) (file_of Fgetc (map arg_of given.now))) }
{
    match given {
        [] => plus(tally.cap, sum, 0),
        [first, ..] => argument_sum(tally, sum, first),
    }
}

/// A sum with what a name counts that comes first.
fn name_sum(tally: &Tally<'_>, sum: u32, given: &[SysArg]) -> u32
    ensures { result ≡ min tally.now.cap (sum + task_count (counted_of tally.now) (save_of (map arg_of given.now))) }
{
    match given {
        [] => plus(tally.cap, sum, 0),
        [first, ..] => match first {
            SysArg::Str(_) => plus(tally.cap, sum, tally.node),
            SysArg::Null | SysArg::Value(_) => plus(tally.cap, sum, 0),
        },
    }
}

/// Whether an argument is the name of a signal.
pub fn is_signal(a: &SysArg) -> bool
    ensures { result ≡ is_signal (arg_of a.now) }
{
    match a {
        SysArg::Null | SysArg::Str(_) => false,
        SysArg::Value(e) => match &e.node {
            ExprNode::Sig(_) => true,
            ExprNode::Num(_, _) | ExprNode::Label(_) | ExprNode::Word(_, _) => false,
            ExprNode::Pick(_, _, _, _) | ExprNode::Slice(_, _, _) | ExprNode::Un(_, _) => false,
            ExprNode::Bin(_, _, _) | ExprNode::Cond(_, _, _) | ExprNode::Cat(_) => false,
            ExprNode::Rep(_, _) | ExprNode::Cast(_, _) | ExprNode::Call(_, _) => false,
            ExprNode::Time | ExprNode::Sys(_) => false,
        },
    }
}

/// Whether an argument is an expression.
pub fn is_value(a: &SysArg) -> bool
    ensures { result ≡ is_value (arg_of a.now) }
{
    match a {
        SysArg::Null | SysArg::Str(_) => false,
        SysArg::Value(_) => true,
    }
}

/// Whether an argument is a string.
pub fn is_text(a: &SysArg) -> bool
    ensures { result ≡ is_text (arg_of a.now) }
{
    match a {
        SysArg::Null | SysArg::Value(_) => false,
        SysArg::Str(_) => true,
    }
}

/// A sum with what a variable and the number of a file count.
fn read_sum(tally: &Tally<'_>, sum: u32, given: &[SysArg]) -> u32
    ensures { result ≡ min tally.now.cap (sum + task_count (counted_of tally.now) (fread_of (map arg_of given.now))) }
{
    match given {
        [] | [_] => plus(tally.cap, sum, 0),
        [variable, file, ..] => {
            if is_signal(variable) && is_value(file) {
                let named = plus(tally.cap, sum, tally.node);
                argument_sum(tally, named, file)
            } else {
                plus(tally.cap, sum, 0)
            }
        }
    }
}

/// A sum with what a memory counts that a file is loaded to.
fn load_sum(tally: &Tally<'_>, sum: u32, given: &[SysArg]) -> u32
    ensures { result ≡ min tally.now.cap (sum + task_count (counted_of tally.now) (read_hex_of (map arg_of given.now))) }
{
    match given {
        [] | [_] => plus(tally.cap, sum, 0),
        [name, memory, ..] => {
            if is_text(name) && is_signal(memory) {
                plus(tally.cap, sum, tally.node)
            } else {
                plus(tally.cap, sum, 0)
            }
        }
    }
}

/// A sum with what the arguments of a call of this kind count.
fn kind_sum(tally: &Tally<'_>, sum: u32, kind: Kind, given: &[SysArg]) -> u32
    ensures { result ≡ min tally.now.cap (sum + task_count (counted_of tally.now) (kind_task kind (map arg_of given.now))) }
{
    match kind {
        Kind::Shows => display_sum(tally, sum, given),
        Kind::Finishes => finish_sum(tally, sum, given),
        Kind::Names => name_sum(tally, sum, given),
        Kind::Reads => read_sum(tally, sum, given),
        Kind::Asks => file_sum(tally, sum, given),
        Kind::Loads => load_sum(tally, sum, given),
        Kind::Unknown => plus(tally.cap, sum, 0),
    }
}

/// A sum with what the arguments of a system call count.
pub(crate) fn task_sum(tally: &Tally<'_>, sum: u32, call: &SysCall) -> u32
    ensures { result ≡ min tally.now.cap (sum + task_count (counted_of tally.now) (task_of [] call.now.name (args (seen.args_of call.now.args.items)))) }
{
    let kind = kind_of(call.name.as_slice());
    kind_sum(tally, sum, kind, call.args.as_slice())
}

/// A sum with what a call behind an operator counts.
fn operated_sum(tally: &Tally<'_>, sum: u32, op: UnOp, a: &Expr) -> u32
    ensures { result ≡ min tally.now.cap (sum + call_count (counted_of tally.now) (Un a.now.place op (seen.exp_of a.now))) }
{
    match op {
        UnOp::LogNot => match &a.node {
            ExprNode::Sys(call) => task_sum(tally, sum, call),
            ExprNode::Num(_, _) | ExprNode::Label(_) | ExprNode::Sig(_) => plus(tally.cap, sum, 0),
            ExprNode::Word(_, _) | ExprNode::Pick(_, _, _, _) => plus(tally.cap, sum, 0),
            ExprNode::Slice(_, _, _) | ExprNode::Un(_, _) => plus(tally.cap, sum, 0),
            ExprNode::Bin(_, _, _) | ExprNode::Cond(_, _, _) => plus(tally.cap, sum, 0),
            ExprNode::Cat(_) | ExprNode::Rep(_, _) => plus(tally.cap, sum, 0),
            ExprNode::Cast(_, _) | ExprNode::Call(_, _) => plus(tally.cap, sum, 0),
            ExprNode::Time => plus(tally.cap, sum, 0),
        },
        UnOp::Neg | UnOp::Not | UnOp::RedAnd | UnOp::RedOr => plus(tally.cap, sum, 0),
        UnOp::RedXor | UnOp::RedNand | UnOp::RedNor | UnOp::RedXnor => plus(tally.cap, sum, 0),
    }
}

/// A sum with what the call of a right side or a condition counts.
fn call_sum(tally: &Tally<'_>, sum: u32, e: &Expr) -> u32
    ensures { result ≡ min tally.now.cap (sum + call_count (counted_of tally.now) (seen.exp_of e.now)) }
{
    match &e.node {
        ExprNode::Sys(call) => task_sum(tally, sum, call),
        ExprNode::Un(op, a) => operated_sum(tally, sum, *op, a),
        ExprNode::Num(_, _) | ExprNode::Label(_) | ExprNode::Sig(_) => plus(tally.cap, sum, 0),
        ExprNode::Word(_, _) | ExprNode::Pick(_, _, _, _) => plus(tally.cap, sum, 0),
        ExprNode::Slice(_, _, _) | ExprNode::Bin(_, _, _) => plus(tally.cap, sum, 0),
        ExprNode::Cond(_, _, _) | ExprNode::Cat(_) | ExprNode::Rep(_, _) => plus(tally.cap, sum, 0),
        ExprNode::Cast(_, _) | ExprNode::Call(_, _) => plus(tally.cap, sum, 0),
        ExprNode::Time => plus(tally.cap, sum, 0),
    }
}

/// A sum with what a right side, a condition, a subject or a label counts.
pub(crate) fn whole_sum(tally: &Tally<'_>, sum: u32, e: &Expr) -> u32
    ensures { result ≡ min tally.now.cap (sum + whole_count (counted_of tally.now) (seen.exp_of e.now)) }
{
    let called = call_sum(tally, sum, e);
    exp_sum(tally, called, e)
}
