//! The bits that expressions read.

ghost use Rattle.std.specs.Prelude.{◌≡◌, ◌≤◌, ◌<◌, ◌&&◌, ◌||◌, not, Bool, ℤ, Option, Some, None, option_map, length, OnOk, IfSome};
ghost use Rattle.vl_design.specs.Sound.{IsSoundExp, AreSound, IsWidth};
ghost use Rattle.vl_design.specs.Trees.{exp_of, exps_of};
ghost use Rattle.vl_paths.specs.Bits as bits;
ghost use Rattle.vl_bits.specs.Seen.{names_seen};
ghost use Rattle.vl_bits.specs.Constants.{near};
ghost use Rattle.vl_bits.specs.Masks.{in_part, AreOf, Looks};

use crate::index::known_low;
use crate::meanings::Meanings;
use crate::parts::{Part, add, unknown};
use crate::widths::{near_place, select, whole};
use std::alloc::AllocError;
use vl_design::design::{Expr, ExprNode};

/// What a select of a signal at a known place reads. None for any other select, which reads all that its base reads.
fn selected(m: &Meanings<'_>, base: &Expr, low: Option<i64>, width: u8) -> Option<Part>
    requires base { IsSoundExp (names_seen m.now) (exp_of base.now) }
    requires width { IsWidth width }
    ensures some { IfSome result (λ p. (o : Option ℤ) → low ≡ option_map near o → (b : bits.Bit) →
        in_part p b ≡ bits.select_reads b (exp_of base.now) o width (bits.bit_read (names_seen m.now) b (exp_of base.now))) }
    ensures within { IfSome result (λ p. p.signal < length (names_seen m.now).rows) }
    ensures none { result ≡ None → (o : Option ℤ) → low ≡ option_map near o → (b : bits.Bit) (all : Bool) →
        bits.select_reads b (exp_of base.now) o width all ≡ all }
{
    match (&base.node, low) {
        (ExprNode::Sig(number), Some(low)) => Some(select(m, *number, low, width)),
        _ => None,
    }
}

/// The bits of the part that aren't known are read.
fn look_at(known: &Vec<u128>, read: &mut Vec<Part>, part: Part) -> Result<(), AllocError>
    requires { part.signal < length known.now.items }
    ensures bits { OnOk result (Looks known.now.items read.old.items read.new.items (in_part part)) }
    ensures within { OnOk result (AreOf (length known.now.items) read.old.items → AreOf (length known.now.items) read.new.items) }
{
    add(read, unknown(known, part))
}

/// The bits that the expression reads, and that aren't known, are read.
#[cycle(look)]
pub fn look(
    m: &Meanings<'_>,
    known: &Vec<u128>,
    read: &mut Vec<Part>,
    e: &Expr,
) -> Result<(), AllocError>
    requires sound { IsSoundExp (names_seen m.now) (exp_of e.now) }
    requires long { length known.now.items ≡ length (names_seen m.now).rows }
    ensures bits { OnOk result (Looks known.now.items read.old.items read.new.items (λ b. bits.bit_read (names_seen m.now) b (exp_of e.now))) }
    ensures within { OnOk result (AreOf (length known.now.items) read.old.items → AreOf (length known.now.items) read.new.items) }
{
    match &e.node {
        ExprNode::Num(_, _) | ExprNode::Label(_) | ExprNode::Time | ExprNode::Sys(_) => Ok(()),
        ExprNode::Sig(number) => look_at(known, read, whole(m, *number)),
        ExprNode::Word(number, address) => {
            look_at(known, read, whole(m, *number))?;
            look(m, known, read, address)
        }
        ExprNode::Pick(base, index, from, width) => {
            match selected(m, base, known_low(m, *from, index), *width) {
                Some(part) => look_at(known, read, part)?,
                None => look(m, known, read, base)?,
            }
            look(m, known, read, index)
        }
        ExprNode::Slice(base, low, width) => {
            match selected(m, base, Some(near_place(i64::from(*low))), *width) {
                Some(part) => look_at(known, read, part),
                None => look(m, known, read, base),
            }
        }
        ExprNode::Un(_, a) => look(m, known, read, a),
        ExprNode::Cast(_, a) => look(m, known, read, a),
        ExprNode::Bin(_, x, y) => {
            look(m, known, read, x)?;
            look(m, known, read, y)
        }
        ExprNode::Cond(t, x, y) => {
            look(m, known, read, t)?;
            look(m, known, read, x)?;
            look(m, known, read, y)
        }
        ExprNode::Cat(parts) => looks(m, known, read, parts.as_slice()),
        ExprNode::Rep(_, parts) => looks(m, known, read, parts.as_slice()),
        ExprNode::Call(_, given) => looks(m, known, read, given.as_slice()),
    }
}

/// The bits that the expressions read, and that aren't known, are read.
#[cycle(look)]
pub fn looks(
    m: &Meanings<'_>,
    known: &Vec<u128>,
    read: &mut Vec<Part>,
    es: &[Expr],
) -> Result<(), AllocError>
    requires sound { AreSound (names_seen m.now) (exps_of es.now) }
    requires long { length known.now.items ≡ length (names_seen m.now).rows }
    ensures bits { OnOk result (Looks known.now.items read.old.items read.new.items (λ b. bits.some_bit_read (names_seen m.now) b (exps_of es.now))) }
    ensures within { OnOk result (AreOf (length known.now.items) read.old.items → AreOf (length known.now.items) read.new.items) }
{
    for e in es {
        look(m, known, read, e)?;
    }
    Ok(())
}
