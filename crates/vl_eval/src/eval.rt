//! The value of an expression in a context (IEEE 1364-2005, clause 5).

ghost use Rattle.std.specs.Prelude.{◌≡◌, ◌≤◌, ◌<◌, ◌+◌, ◌*◌, ◌%◌, ◌^◌, ℤ, IsTrue, length, map, slice_get, slice_index, Some};
ghost use Rattle.vl_base.specs.Value as base;
ghost use Rattle.vl_base.specs.Selects as selects;
ghost use Rattle.vl_design.specs.Syntax.{Exps, Call};
ghost use Rattle.vl_design.specs.Trees.{exp_of, row_of};
ghost use Rattle.vl_design.specs.Sound.{IsSoundExp, IsSignal, IsMemory, IsNamed, IsWidth};
ghost use Rattle.vl_design.specs.Laws.{IsFine};
ghost use Rattle.vl_design.specs.Width as w;
ghost use Rattle.vl_design.specs.Value as v;
ghost use Rattle.vl_eval.specs.Answers.{Reads, ReadsAll, parts_of};
ghost use Rattle.vl_eval.specs.Rooms.{names_of, sample_of};
ghost use Rattle.vl_eval.specs.Shapes.{shape};
ghost use Rattle.vl_eval.specs.Wholes.{near, whole_of};

use crate::form::{Shape, form_of, result_form, shape_of, signal_form};
use crate::form_form::joined;
use crate::room::{Room, Sample};
use crate::selects::{Whole, held, lowest_bit, whole_number, word_number};
use vl_base::bits::{BinOp, Bits, UnOp, binary, resize, unary};
use vl_base::number::Number;
use vl_base::select::pick;
use vl_design::design::{Expr, ExprNode, Form, LowestBit, Signal};

/// A value wider, by zeros.
fn widened(bits: Bits, width: u32) -> Bits
    requires wide { bits.width ≤ width }
    requires narrow { width ≤ 128 }
    ensures value { result.value ≡ bits.value }
    ensures width { result.width ≡ width }
{
    Bits {
        value: bits.value,
        width: width as u8,
    }
}

/// The bits of a value that a number picks.
fn picked(bits: Bits, low: i64, width: u8) -> Bits
    requires wide { 1 ≤ width }
    requires narrow { width ≤ 128 }
    ensures value { (z : ℤ) → near low ≡ near z → result.value ≡ selects.picked bits.width bits.value z width }
    ensures width { result.width ≡ width }
{
    pick(bits, low, width)
}

/// The bits of a value that an index names.
fn picked_at(bits: Bits, from: LowestBit, index: Whole, width: u8) -> Bits
    requires wide { 1 ≤ width }
    requires narrow { width ≤ 128 }
    ensures value { result.value ≡ selects.picked bits.width bits.value (v.lowest_bit from (whole_of index)) width }
    ensures width { result.width ≡ width }
{
    picked(bits, lowest_bit(from, index), width)
}

/// The context of a unary operator's operand.
#[tactic(auto, using(crate::proofs::Readable::operands))]
fn operand_form(room: &Room<'_>, op: UnOp, a: &Expr, c: Form) -> Form
    requires sound { IsSoundExp (names_of room.now) (exp_of a.now) }
    requires wide { (w.unary_form op (w.form (names_of room.now) (exp_of a.now))).width ≤ c.width }
    requires narrow { c.width ≤ 128 }
    ensures value { result ≡ w.operand_form op (w.form (names_of room.now) (exp_of a.now)) c }
    ensures wide { (w.form (names_of room.now) (exp_of a.now)).width ≤ result.width }
    ensures narrow { result.width ≤ 128 }
    ensures outcome { base.unary_width op result.width ≤ c.width }
{
    match op {
        UnOp::Neg | UnOp::Not => c,
        _ => form_of(room, a),
    }
}

/// The contexts of a binary operator's operands.
#[derive(Clone, Copy)]
struct Contexts {
    /// The left one's.
    left: Form,
    /// The right one's.
    right: Form,
}

/// The contexts of a binary operator's operands.
#[tactic(auto, using(crate::proofs::Readable::operands))]
fn operand_forms(room: &Room<'_>, op: BinOp, a: &Expr, b: &Expr, c: Form) -> Contexts
    requires left { IsSoundExp (names_of room.now) (exp_of a.now) }
    requires right { IsSoundExp (names_of room.now) (exp_of b.now) }
    requires wide { (w.binary_form op (w.form (names_of room.now) (exp_of a.now)) (w.form (names_of room.now) (exp_of b.now))).width ≤ c.width }
    requires narrow { c.width ≤ 128 }
    ensures left { result.left ≡ w.left_form op (w.form (names_of room.now) (exp_of a.now)) (w.form (names_of room.now) (exp_of b.now)) c }
    ensures right { result.right ≡ w.right_form op (w.form (names_of room.now) (exp_of a.now)) (w.form (names_of room.now) (exp_of b.now)) c }
    ensures left_wide { (w.form (names_of room.now) (exp_of a.now)).width ≤ result.left.width }
    ensures left_narrow { result.left.width ≤ 128 }
    ensures right_wide { (w.form (names_of room.now) (exp_of b.now)).width ≤ result.right.width }
    ensures right_narrow { result.right.width ≤ 128 }
    ensures outcome { base.binary_width op result.left.width ≤ c.width }
    ensures one_width { IsTrue (base.needs_one_width op) → result.left.width ≡ result.right.width }
{
    match shape_of(op) {
        Shape::Both => Contexts { left: c, right: c },
        Shape::Left => Contexts {
            left: c,
            right: form_of(room, b),
        },
        Shape::Neither => Contexts {
            left: form_of(room, a),
            right: form_of(room, b),
        },
        Shape::Joined => {
            let both = joined(form_of(room, a), form_of(room, b));
            Contexts {
                left: both,
                right: both,
            }
        }
    }
}

/// Two numbers of so many bits side by side, the first at the top.
fn appended(high: u128, above: u32, low: u128, width: u32) -> u128
    requires high { high < 2 ^ above }
    requires low { low < 2 ^ width }
    requires narrow { above + width ≤ 128 }
    ensures value { result ≡ selects.appended high width low }
    ensures fits { result < 2 ^ (above + width) }
{
    if width < 128 {
        (high << width) + low
    } else {
        low
    }
}

/// Copies of so many bits side by side.
fn repeated(count: u8, part: u128, width: u32) -> Bits
    requires part { part < 2 ^ width }
    requires width { IsWidth (count * width) }
    ensures value { result.value ≡ v.repeated count width part }
    ensures width { result.width ≡ count * width }
{
    let mut all = 0;
    let mut bits: u32 = 0;
    for number in 0..count {
        all = appended(all, bits, part, width);
        bits += width;
    }
    Bits {
        value: all,
        width: bits as u8,
    }
}

/// A value that was read, and the answers of calls that are left.
#[derive(Clone, Copy)]
pub struct Read<'a> {
    /// The value, as wide as its context.
    pub bits: Bits,
    /// The answers of the calls behind.
    pub left: &'a [u128],
}

/// A value that was read for itself.
#[derive(Clone, Copy)]
struct Own<'a> {
    /// The value.
    bits: Bits,
    /// It is signed.
    signed: bool,
    /// The answers of the calls behind.
    left: &'a [u128],
}

/// Values side by side.
#[derive(Clone, Copy)]
struct Parts<'a> {
    /// All of them as a number.
    value: u128,
    /// The widths together.
    width: u32,
    /// The answers of the calls behind.
    left: &'a [u128],
}

/// One value more.
fn beside<'a>(all: Parts<'a>, next: Own<'a>) -> Parts<'a>
    requires fits { all.value < 2 ^ all.width }
    requires narrow { all.width + next.bits.width ≤ 128 }
    ensures value { result.value ≡ selects.appended all.entry.value next.entry.bits.width next.entry.bits.value }
    ensures width { result.width ≡ all.entry.width + next.entry.bits.width }
    ensures fits { result.value < 2 ^ result.width }
    ensures left { result.left.now ≡ next.entry.left.now }
{
    let width = u32::from(next.bits.width);
    Parts {
        value: appended(all.value, all.width, next.bits.value, width),
        width: all.width + width,
        left: next.left,
    }
}

/// The answer of a call in a context: the first that is left.
fn called<'a>(room: &Room<'_>, function: u32, c: Form, calls: &'a [u128]) -> Read<'a>
    requires there { function < length room.now.funcs.now }
    requires width { IsWidth (w.result_form (names_of room.now) function).width }
    requires context { IsWidth c.width }
    ensures reads { (s : v.Sample) (es : Exps) → Reads (names_of room.now) s (Call function es) c calls.now result.bits.value result.left.now }
    ensures width { result.bits.width ≡ c.width }
{
    let width = c.width as u8;
    match calls {
        [] => Read {
            bits: Bits { value: 0, width },
            left: calls,
        },
        [first, rest @ ..] => {
            let all = Bits {
                value: *first,
                width: 128,
            };
            let own = resize(all, false, result_form(room, function).width as u8);
            Read {
                bits: resize(own, c.signed, width),
                left: rest,
            }
        }
    }
}

/// The value of a number with bits of care.
fn number_bits(number: &Number) -> Bits
    requires width { IsWidth number.now.width }
    requires value { number.now.value < 2 ^ number.now.width }
    ensures value { result.value ≡ number.now.value }
    ensures width { result.width ≡ number.now.width }
{
    Bits {
        value: number.value,
        width: number.width,
    }
}

/// A number of ticks, in 64 bits or more.
fn time_bits(time: u64, width: u32) -> Bits
    requires wide { 64 ≤ width }
    requires narrow { width ≤ 128 }
    ensures value { result.value ≡ time % 2 ^ 64 }
    ensures width { result.width ≡ width }
{
    let bits = Bits {
        value: u128::from(time),
        width: 64,
    };
    widened(bits, width)
}

/// A word of a signal in a context.
#[tactic(auto, using(crate::proofs::Names::lookups))]
fn word_of(room: &Room<'_>, s: &Sample<'_>, signal: u32, word: u64, c: Form) -> Bits
    requires named { IsNamed (names_of room.now) signal }
    requires fine { IsFine (names_of room.now).rows (sample_of s.now).values }
    requires context { IsWidth c.width }
    ensures value { result.value ≡ base.resized c.signed (w.signal_form (names_of room.now).rows signal).width c.width (slice_index (v.words_of (sample_of s.now).values signal) word) }
    ensures width { result.width ≡ c.width }
{
    let own = held(s, signal, word, signal_form(room, signal).width);
    resize(own, c.signed, c.width as u8)
}

/// The signal of a number.
pub fn signal_at<'a>(room: &Room<'a>, number: u32) -> &'a Signal
    requires { number < length (names_of room.now).rows }
    ensures { slice_get (names_of room.now).rows number ≡ Some (row_of result.now) }
{
    let number = number as usize;
    let inner = room.signals.len();
    if number < inner {
        &room.signals[number]
    } else {
        &room.locals[number - inner]
    }
}

/// The value of an expression read for itself.
#[cycle(eval)]
#[tactic(auto, using(crate::proofs::Readable::readable))]
fn read_own<'a>(room: &Room<'_>, s: &Sample<'_>, e: &Expr, calls: &'a [u128]) -> Own<'a>
    requires sound { IsSoundExp (names_of room.now) (exp_of e.now) }
    requires fine { IsFine (names_of room.now).rows (sample_of s.now).values }
    ensures reads { Reads (names_of room.now) (sample_of s.now) (exp_of e.now) (w.form (names_of room.now) (exp_of e.now)) calls.now result.bits.value result.left.now }
    ensures width { result.bits.width ≡ (w.form (names_of room.now) (exp_of e.now)).width }
    ensures signed { result.signed ≡ (w.form (names_of room.now) (exp_of e.now)).signed }
{
    let form = form_of(room, e);
    let read = eval(room, s, e, form, calls);
    Own {
        bits: read.bits,
        signed: form.signed,
        left: read.left,
    }
}

/// The values of the parts of a concatenation side by side.
#[cycle(eval)]
#[tactic(auto, using(crate::proofs::Readable::readable))]
fn read_parts<'a>(room: &Room<'_>, s: &Sample<'_>, e: &Expr, calls: &'a [u128]) -> Parts<'a>
    requires sound { IsSoundExp (names_of room.now) (exp_of e.now) }
    requires fine { IsFine (names_of room.now).rows (sample_of s.now).values }
    ensures reads { ReadsAll (names_of room.now) (sample_of s.now) (parts_of (exp_of e.now)) calls.now result.value result.left.now }
    ensures width { result.width ≡ w.total_width (names_of room.now) (parts_of (exp_of e.now)) }
    ensures fits { result.value < 2 ^ result.width }
{
    let mut all = Parts {
        value: 0,
        width: 0,
        left: calls,
    };
    match &e.node {
        ExprNode::Cat(list) | ExprNode::Rep(_, list) => {
            for part in list {
                let next = read_own(room, s, part, all.left);
                all = beside(all, next);
            }
            all
        }
        _ => all,
    }
}

/// The value of an expression in a context, from the answers of its calls: operands are extended to the context first,
/// by their sign where the context is signed.
#[cycle(eval)]
#[tactic(auto, using(crate::proofs::Readable::readable))]
pub fn eval<'a>(room: &Room<'_>, s: &Sample<'_>, e: &Expr, c: Form, calls: &'a [u128]) -> Read<'a>
    requires sound { IsSoundExp (names_of room.now) (exp_of e.now) }
    requires fine { IsFine (names_of room.now).rows (sample_of s.now).values }
    requires wide { (w.form (names_of room.now) (exp_of e.now)).width ≤ c.width }
    requires narrow { c.width ≤ 128 }
    ensures reads { Reads (names_of room.now) (sample_of s.now) (exp_of e.now) c calls.now result.bits.value result.left.now }
    ensures width { result.bits.width ≡ c.width }
{
    let width = c.width as u8;
    match &e.node {
        ExprNode::Num(bits, _) => Read {
            bits: resize(*bits, c.signed, width),
            left: calls,
        },
        ExprNode::Label(number) => Read {
            bits: resize(number_bits(number), c.signed, width),
            left: calls,
        },
        ExprNode::Sig(number) => Read {
            bits: word_of(room, s, *number, 0, c),
            left: calls,
        },
        ExprNode::Word(memory, a) => {
            let a = read_own(room, s, a, calls);
            let word = word_number(signal_at(room, *memory), whole_number(a.bits, a.signed));
            Read {
                bits: word_of(room, s, *memory, word, c),
                left: a.left,
            }
        }
        ExprNode::Pick(base, index, from, bits) => {
            let base = read_own(room, s, base, calls);
            let index = read_own(room, s, index, base.left);
            let whole = whole_number(index.bits, index.signed);
            Read {
                bits: widened(picked_at(base.bits, *from, whole, *bits), c.width),
                left: index.left,
            }
        }
        ExprNode::Slice(base, low, bits) => {
            let base = read_own(room, s, base, calls);
            Read {
                bits: widened(pick(base.bits, i64::from(*low), *bits), c.width),
                left: base.left,
            }
        }
        ExprNode::Un(op, a) => {
            let a = eval(room, s, a, operand_form(room, *op, a, c), calls);
            Read {
                bits: widened(unary(*op, a.bits), c.width),
                left: a.left,
            }
        }
        ExprNode::Bin(op, a, b) => {
            let forms = operand_forms(room, *op, a, b, c);
            let a = eval(room, s, a, forms.left, calls);
            let b = eval(room, s, b, forms.right, a.left);
            Read {
                bits: widened(binary(*op, forms.left.signed, a.bits, b.bits), c.width),
                left: b.left,
            }
        }
        ExprNode::Cond(test, a, b) => {
            let test = read_own(room, s, test, calls);
            let a = eval(room, s, a, c, test.left);
            let b = eval(room, s, b, c, a.left);
            Read {
                bits: if test.bits.value == 0 { b.bits } else { a.bits },
                left: b.left,
            }
        }
        ExprNode::Cat(_) => {
            let all = read_parts(room, s, e, calls);
            Read {
                bits: widened(repeated(1, all.value, all.width), c.width),
                left: all.left,
            }
        }
        ExprNode::Rep(count, _) => {
            let all = read_parts(room, s, e, calls);
            Read {
                bits: widened(repeated(*count, all.value, all.width), c.width),
                left: all.left,
            }
        }
        ExprNode::Cast(_, a) => {
            let a = read_own(room, s, a, calls);
            Read {
                bits: resize(a.bits, c.signed, width),
                left: a.left,
            }
        }
        ExprNode::Call(function, _) => called(room, *function, c, calls),
        ExprNode::Time => Read {
            bits: time_bits(s.time, c.width),
            left: calls,
        },
        ExprNode::Sys(_) => Read {
            bits: resize(
                Bits {
                    value: u128::from(s.answer),
                    width: 32,
                },
                c.signed,
                width,
            ),
            left: calls,
        },
    }
}
