//! Arguments of system calls (IEEE 1364-2005, clause 17).

ghost use Rattle.std.specs.Prelude.{◌≡◌, map, drop, option_map, option_copied};
ghost use Rattle.vl_design.specs.Trees.{arg_of, exp_of};
ghost use Rattle.vl_run.specs.Arguments.{text_in, value_in, signal_in, signal_of};

use vl_base::items::Text;
use vl_design::design::{Expr, ExprNode, SysArg};

/// The arguments behind so many first ones.
pub(crate) fn behind(args: &[SysArg], count: usize) -> &[SysArg]
    ensures { result.now ≡ drop count args.now }
{
    if count < args.len() {
        &args[count..]
    } else {
        &[]
    }
}

/// The string that arguments begin with; none where they begin with something else.
pub(crate) fn text_first(args: &[SysArg]) -> Option<&Text>
    ensures { option_copied result ≡ text_in (map arg_of args.now) }
{
    match args {
        [] => None,
        [first, ..] => match first {
            SysArg::Null | SysArg::Value(_) => None,
            SysArg::Str(text) => Some(text),
        },
    }
}

/// The expression that arguments begin with; none where they begin with something else.
pub(crate) fn value_first(args: &[SysArg]) -> Option<&Expr>
    ensures { option_map exp_of (option_copied result) ≡ value_in (map arg_of args.now) }
{
    match args {
        [] => None,
        [first, ..] => match first {
            SysArg::Null | SysArg::Str(_) => None,
            SysArg::Value(e) => Some(e),
        },
    }
}

/// The signal that an expression is; none where it is something else.
fn signal_of(e: &Expr) -> Option<u32>
    ensures { result ≡ signal_of (exp_of e.now) }
{
    match &e.node {
        ExprNode::Sig(number) => Some(*number),
        ExprNode::Num(_, _) | ExprNode::Label(_) | ExprNode::Word(_, _) => None,
        ExprNode::Pick(_, _, _, _) | ExprNode::Slice(_, _, _) | ExprNode::Un(_, _) => None,
        ExprNode::Bin(_, _, _) | ExprNode::Cond(_, _, _) | ExprNode::Cat(_) => None,
        ExprNode::Rep(_, _) | ExprNode::Cast(_, _) | ExprNode::Call(_, _) => None,
        ExprNode::Time | ExprNode::Sys(_) => None,
    }
}

/// The signal that arguments begin with; none where they begin with something else.
pub(crate) fn signal_first(args: &[SysArg]) -> Option<u32>
    ensures { result ≡ signal_in (map arg_of args.now) }
{
    match args {
        [] => None,
        [first, ..] => match first {
            SysArg::Null | SysArg::Str(_) => None,
            SysArg::Value(e) => signal_of(e),
        },
    }
}
