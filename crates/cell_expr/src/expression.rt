//! Expressions and calls of functions as cells (IEEE 1364-2005, clauses 5 and 10.4).

ghost use Rattle.std.specs.Prelude.{◌≡◌, ◌≤◌, ◌<◌, ◌+◌, ◌*◌, ◌^◌, ℕ, List, [], ◌∷◌, Bool, false, IfOk, IfSome, OnOk, Some, slice_get, length};
ghost use Rattle.vl_base.specs.declared.files.File.{File};
ghost use Rattle.vl_design.specs.Sound.{AreSound, IsSoundExp, IsSignal, IsMemory, IsSoundFun, IsWidth, Takes, count_of};
ghost use Rattle.vl_design.specs.Syntax as y;
ghost use Rattle.vl_design.specs.Trees.{exp_of, exps_of, fun_of};
ghost use Rattle.vl_design.specs.Value as v;
ghost use Rattle.vl_design.specs.Width as w;
ghost use Rattle.cell_emit.specs.cell_form.specs.Views.{list_of};
ghost use Rattle.cell_emit.specs.Slots.{held, width_at, IsIn, Grows, Gives, Nothing};
ghost use Rattle.vl_base.specs.Selects.{appended};
ghost use Rattle.vl_base.specs.Value.{resized};
ghost use Rattle.cell_emit.specs.Envs.{env_of, held_or, Fits};
ghost use Rattle.cell_expr.specs.Bodies.{IsCellFun};
ghost use Rattle.cell_expr.specs.Compiled.{Compiles, Holds, beside_count, bits_before as before, is_cast, width_or};
ghost use Rattle.cell_expr.specs.Contexts.{names_of, scope_of, body_of};
ghost use Rattle.vl_eval.specs.Rooms as rooms;
ghost use Rattle.cell_expr.specs.Counts.{own_count, exp_count, exps_count, in_count, first_count, all_count, is_plain as plain};
ghost use Rattle.cell_expr.specs.Passes.{Passes};
ghost use Rattle.cell_expr.specs.Callers.{Compilers};

use crate::call::{begin, pass};
use crate::context::{Context, inner};
use crate::leaf::{read_signal, read_word};
use cell_emit::at::At;
use cell_emit::cell::CellList;
use cell_emit::copies::{beside, multiply, repeat};
use cell_emit::operators::{choose, combine, operate};
use cell_emit::reads::{nothing, number, read, select, slice};
use std::alloc::{AllocError, Global};
use vl_base::bits::{BinOp, UnOp};
use vl_design::design::{Expr, ExprNode, Form, Func, LowestBit};
use vl_eval::form::{form_of, signal_form};
use vl_eval::form_form::{assigned, left_form, operand_form, right_form, unsigned};
use vl_eval::room::Room;

/// Puts a part of a concatenation behind others, if there are some.
fn joined(
    alloc: Global,
    cells: &mut CellList,
    all: Option<u32>,
    part: u32,
) -> Result<u32, AllocError>
    requires all { IfSome all (IsIn (list_of cells.old)) }
    requires part { IsIn (list_of cells.old) part }
    requires wide { 1 ≤ width_at (list_of cells.old) part }
    requires narrow { width_or (list_of cells.old) all + width_at (list_of cells.old) part ≤ 128 }
    ensures grows { Grows (list_of cells.old) (list_of cells.new) }
    ensures gives { IfOk result (λ r. Gives Nothing (beside_count all) (list_of cells.old) (list_of cells.new) r (width_or (list_of cells.old) all + width_at (list_of cells.old) part)
        (λ b. appended (held_or b (list_of cells.old) all) (width_at (list_of cells.old) part) (held b (list_of cells.old) part))) }
{
    match all {
        None => Ok(part),
        Some(all) => beside(alloc, cells, all, part),
    }
}

/// Compiles a number in a context.
fn number_in(
    alloc: Global,
    cells: &mut CellList,
    value: u128,
    own: u8,
    c: Form,
) -> Result<u32, AllocError>
    requires own { IsWidth own }
    requires fits { value < 2 ^ own }
    requires context { IsWidth c.width }
    ensures grows { Grows (list_of cells.old) (list_of cells.new) }
    ensures gives { IfOk result (λ r. Gives Nothing 1 (list_of cells.old) (list_of cells.new) r c.width (λ b. resized c.signed own c.width value)) }
{
    number(alloc, cells, value, own, c.signed, c.width as u8)
}

/// A number, a name or copies, which is read at any width at once where it is extended by zeros.
fn is_plain(e: &Expr) -> bool
    ensures { result ≡ plain (exp_of e.now) }
{
    match &e.node {
        ExprNode::Num(_, _) | ExprNode::Label(_) | ExprNode::Sig(_) | ExprNode::Rep(_, _) => true,
        _ => false,
    }
}

/// How many bits stand before a part: so many, where it is the first one.
fn bits_before(all: Option<u32>, more: u8) -> u8
    ensures { result ≡ before more all }
{
    match all {
        None => more,
        Some(_) => 0,
    }
}

/// How many bits parts have.
#[tactic(auto, using(vl_eval::proofs::Rows::list_rules))]
fn parts_width(room: &Room<'_>, parts: &[Expr]) -> u8
    requires sound { AreSound (rooms.names_of room.now) (exps_of parts.now) }
    requires narrow { w.total_width (rooms.names_of room.now) (exps_of parts.now) ≤ 128 }
    ensures { result ≡ w.total_width (rooms.names_of room.now) (exps_of parts.now) }
{
    let mut bits = 0;
    for part in parts {
        bits += form_of(room, part).width as u8;
    }
    bits
}

impl<F: Fn(&mut CellList, &mut At, u32) -> Result<(), AllocError>> Context<'_, F> {
    /// Compiles an expression that is read for itself.
    #[cycle(expression)]
    #[tactic(auto, using(crate::proofs::Walking::walking))]
    pub fn own_in(
        &self,
        alloc: Global,
        cells: &mut CellList,
        at: &At,
        e: &Expr,
    ) -> Result<u32, AllocError>
        requires functions { Compilers (names_of self.now) self.now.depth (F.pre self.now.compile_body) (F.post self.now.compile_body) }
        requires expression { IsSoundExp (names_of self.now) (exp_of e.now) }
        requires fits { Fits (names_of self.now) (list_of cells.old) (env_of at.now) }
        ensures grows { Grows (list_of cells.old) (list_of cells.new) }
        ensures gives { IfOk result (λ r. (files : List File) → Compiles (names_of self.now) (scope_of self.now files) (own_count (body_of self.now) (exp_of e.now))
            (exp_of e.now) (w.form (names_of self.now) (exp_of e.now)) (env_of at.now) (list_of cells.old) (list_of cells.new) r) }
    {
        self.compile_in(alloc, cells, at, e, form_of(&self.room, e))
    }

    /// Compiles a word of a memory in a context.
    #[cycle(expression)]
    #[tactic(auto, using(crate::proofs::Walking::walking))]
    fn word_in(
        &self,
        alloc: Global,
        cells: &mut CellList,
        at: &At,
        memory: u32,
        a: &Expr,
        c: Form,
    ) -> Result<u32, AllocError>
        requires functions { Compilers (names_of self.now) self.now.depth (F.pre self.now.compile_body) (F.post self.now.compile_body) }
        requires memory { IsMemory (names_of self.now) memory }
        requires expression { IsSoundExp (names_of self.now) (exp_of a.now) }
        requires context { IsWidth c.width }
        requires fits { Fits (names_of self.now) (list_of cells.old) (env_of at.now) }
        ensures grows { Grows (list_of cells.old) (list_of cells.new) }
        ensures gives { IfOk result (λ r. (files : List File) → Compiles (names_of self.now) (scope_of self.now files) (in_count (names_of self.now) (body_of self.now) c.width (y.Word memory (exp_of a.now)))
            (y.Word memory (exp_of a.now)) c (env_of at.now) (list_of cells.old) (list_of cells.new) r) }
    {
        let address = self.own_in(alloc, cells, at, a)?;
        let signed = form_of(&self.room, a).signed;
        read_word(alloc, cells, &self.room, at, memory, address, signed, c)
    }

    /// Compiles so many bits of a value from the one on that an index names.
    #[cycle(expression)]
    #[tactic(auto, using(crate::proofs::Walking::walking))]
    fn pick_in(
        &self,
        alloc: Global,
        cells: &mut CellList,
        at: &At,
        base: &Expr,
        index: &Expr,
        from: LowestBit,
        bits: u8,
        c: Form,
    ) -> Result<u32, AllocError>
        requires functions { Compilers (names_of self.now) self.now.depth (F.pre self.now.compile_body) (F.post self.now.compile_body) }
        requires base { IsSoundExp (names_of self.now) (exp_of base.now) }
        requires index { IsSoundExp (names_of self.now) (exp_of index.now) }
        requires own { 1 ≤ bits }
        requires wide { bits ≤ c.width }
        requires context { IsWidth c.width }
        requires fits { Fits (names_of self.now) (list_of cells.old) (env_of at.now) }
        ensures grows { Grows (list_of cells.old) (list_of cells.new) }
        ensures gives { IfOk result (λ r. (files : List File) → Compiles (names_of self.now) (scope_of self.now files) (in_count (names_of self.now) (body_of self.now) c.width (y.Pick (exp_of base.now) (exp_of index.now) from bits))
            (y.Pick (exp_of base.now) (exp_of index.now) from bits) c (env_of at.now) (list_of cells.old) (list_of cells.new) r) }
    {
        let base = self.own_in(alloc, cells, at, base)?;
        let signed = form_of(&self.room, index).signed;
        let index = self.own_in(alloc, cells, at, index)?;
        let width = c.width as u8;
        select(alloc, cells, base, index, signed, from, bits, false, width)
    }

    /// Compiles so many bits of a value from a constant one on.
    #[cycle(expression)]
    #[tactic(auto, using(crate::proofs::Walking::walking))]
    fn slice_in(
        &self,
        alloc: Global,
        cells: &mut CellList,
        at: &At,
        base: &Expr,
        low: i32,
        bits: u8,
        c: Form,
    ) -> Result<u32, AllocError>
        requires functions { Compilers (names_of self.now) self.now.depth (F.pre self.now.compile_body) (F.post self.now.compile_body) }
        requires base { IsSoundExp (names_of self.now) (exp_of base.now) }
        requires own { 1 ≤ bits }
        requires wide { bits ≤ c.width }
        requires context { IsWidth c.width }
        requires fits { Fits (names_of self.now) (list_of cells.old) (env_of at.now) }
        ensures grows { Grows (list_of cells.old) (list_of cells.new) }
        ensures gives { IfOk result (λ r. (files : List File) → Compiles (names_of self.now) (scope_of self.now files) (in_count (names_of self.now) (body_of self.now) c.width (y.Slice (exp_of base.now) low bits))
            (y.Slice (exp_of base.now) low bits) c (env_of at.now) (list_of cells.old) (list_of cells.new) r) }
    {
        let base = self.own_in(alloc, cells, at, base)?;
        let width = c.width as u8;
        slice(alloc, cells, at.here, base, low, bits, false, width)
    }

    /// Compiles an operator on one operand in a context.
    #[cycle(expression)]
    #[tactic(auto, using(crate::proofs::Walking::walking))]
    fn unary_in(
        &self,
        alloc: Global,
        cells: &mut CellList,
        at: &At,
        op: UnOp,
        a: &Expr,
        c: Form,
    ) -> Result<u32, AllocError>
        requires functions { Compilers (names_of self.now) self.now.depth (F.pre self.now.compile_body) (F.post self.now.compile_body) }
        requires expression { IsSoundExp (names_of self.now) (exp_of a.now) }
        requires wide { (w.unary_form op (w.form (names_of self.now) (exp_of a.now))).width ≤ c.width }
        requires context { IsWidth c.width }
        requires fits { Fits (names_of self.now) (list_of cells.old) (env_of at.now) }
        ensures grows { Grows (list_of cells.old) (list_of cells.new) }
        ensures gives { IfOk result (λ r. (files : List File) → Compiles (names_of self.now) (scope_of self.now files) (in_count (names_of self.now) (body_of self.now) c.width (y.Un op (exp_of a.now)))
            (y.Un op (exp_of a.now)) c (env_of at.now) (list_of cells.old) (list_of cells.new) r) }
    {
        let form = operand_form(op, form_of(&self.room, a), c);
        let a = self.compile_in(alloc, cells, at, a, form)?;
        operate(alloc, cells, op, a, false, c.width as u8)
    }

    /// Compiles an operator on two operands in a context.
    #[cycle(expression)]
    #[tactic(auto, using(crate::proofs::Walking::walking))]
    fn binary_in(
        &self,
        alloc: Global,
        cells: &mut CellList,
        at: &At,
        op: BinOp,
        a: &Expr,
        b: &Expr,
        c: Form,
    ) -> Result<u32, AllocError>
        requires functions { Compilers (names_of self.now) self.now.depth (F.pre self.now.compile_body) (F.post self.now.compile_body) }
        requires first { IsSoundExp (names_of self.now) (exp_of a.now) }
        requires second { IsSoundExp (names_of self.now) (exp_of b.now) }
        requires wide { (w.binary_form op (w.form (names_of self.now) (exp_of a.now)) (w.form (names_of self.now) (exp_of b.now))).width ≤ c.width }
        requires context { IsWidth c.width }
        requires fits { Fits (names_of self.now) (list_of cells.old) (env_of at.now) }
        ensures grows { Grows (list_of cells.old) (list_of cells.new) }
        ensures gives { IfOk result (λ r. (files : List File) → Compiles (names_of self.now) (scope_of self.now files) (in_count (names_of self.now) (body_of self.now) c.width (y.Bin op (exp_of a.now) (exp_of b.now)))
            (y.Bin op (exp_of a.now) (exp_of b.now)) c (env_of at.now) (list_of cells.old) (list_of cells.new) r) }
    {
        let first = form_of(&self.room, a);
        let second = form_of(&self.room, b);
        let left = left_form(op, first, second, c);
        let right = right_form(op, first, second, c);
        let a = self.compile_in(alloc, cells, at, a, left)?;
        let b = self.compile_in(alloc, cells, at, b, right)?;
        combine(alloc, cells, op, left.signed, a, b, false, c.width as u8)
    }

    /// Compiles a choice between two values in a context (clause 5.1.13).
    #[cycle(expression)]
    #[tactic(auto, using(crate::proofs::Walking::walking))]
    fn choice_in(
        &self,
        alloc: Global,
        cells: &mut CellList,
        at: &At,
        test: &Expr,
        a: &Expr,
        b: &Expr,
        c: Form,
    ) -> Result<u32, AllocError>
        requires functions { Compilers (names_of self.now) self.now.depth (F.pre self.now.compile_body) (F.post self.now.compile_body) }
        requires test { IsSoundExp (names_of self.now) (exp_of test.now) }
        requires first { IsSoundExp (names_of self.now) (exp_of a.now) }
        requires second { IsSoundExp (names_of self.now) (exp_of b.now) }
        requires first_wide { (w.form (names_of self.now) (exp_of a.now)).width ≤ c.width }
        requires second_wide { (w.form (names_of self.now) (exp_of b.now)).width ≤ c.width }
        requires context { IsWidth c.width }
        requires fits { Fits (names_of self.now) (list_of cells.old) (env_of at.now) }
        ensures grows { Grows (list_of cells.old) (list_of cells.new) }
        ensures gives { IfOk result (λ r. (files : List File) → Compiles (names_of self.now) (scope_of self.now files) (in_count (names_of self.now) (body_of self.now) c.width (y.Cond (exp_of test.now) (exp_of a.now) (exp_of b.now)))
            (y.Cond (exp_of test.now) (exp_of a.now) (exp_of b.now)) c (env_of at.now) (list_of cells.old) (list_of cells.new) r) }
    {
        let test = self.own_in(alloc, cells, at, test)?;
        let a = self.compile_in(alloc, cells, at, a, c)?;
        let b = self.compile_in(alloc, cells, at, b, c)?;
        choose(alloc, cells, test, a, b, false, c.width as u8)
    }

    /// Compiles an expression that isn't a cast and is read for itself, behind so many bits more that are 0.
    #[cycle(expression)]
    #[tactic(auto, using(crate::proofs::Walking::walking))]
    fn extended_in(
        &self,
        alloc: Global,
        cells: &mut CellList,
        at: &At,
        e: &Expr,
        more: u8,
    ) -> Result<u32, AllocError>
        requires functions { Compilers (names_of self.now) self.now.depth (F.pre self.now.compile_body) (F.post self.now.compile_body) }
        requires expression { IsSoundExp (names_of self.now) (exp_of e.now) }
        requires own { is_cast (exp_of e.now) ≡ false }
        requires narrow { (w.form (names_of self.now) (exp_of e.now)).width + more ≤ 128 }
        requires fits { Fits (names_of self.now) (list_of cells.old) (env_of at.now) }
        ensures grows { Grows (list_of cells.old) (list_of cells.new) }
        ensures gives { IfOk result (λ r. (files : List File) → Holds (names_of self.now) (first_count (body_of self.now) more (exp_of e.now))
            (env_of at.now) (list_of cells.old) (list_of cells.new) r ((w.form (names_of self.now) (exp_of e.now)).width + more)
            (λ x. v.value (scope_of self.now files) x (exp_of e.now) (w.form (names_of self.now) (exp_of e.now)))) }
    {
        if more == 0 {
            return self.own_in(alloc, cells, at, e);
        }
        let width = form_of(&self.room, e).width + u32::from(more);
        if is_plain(e) {
            return self.compile_in(alloc, cells, at, e, unsigned(width));
        }
        let slot = self.own_in(alloc, cells, at, e)?;
        read(alloc, cells, slot, false, width as u8)
    }

    /// Compiles an expression that is read for itself, behind so many bits more that are 0: a cast gives the same bits.
    #[cycle(expression)]
    #[tactic(auto, using(crate::proofs::Walking::walking))]
    fn wide_in(
        &self,
        alloc: Global,
        cells: &mut CellList,
        at: &At,
        e: &Expr,
        more: u8,
    ) -> Result<u32, AllocError>
        requires functions { Compilers (names_of self.now) self.now.depth (F.pre self.now.compile_body) (F.post self.now.compile_body) }
        requires expression { IsSoundExp (names_of self.now) (exp_of e.now) }
        requires narrow { (w.form (names_of self.now) (exp_of e.now)).width + more ≤ 128 }
        requires fits { Fits (names_of self.now) (list_of cells.old) (env_of at.now) }
        ensures grows { Grows (list_of cells.old) (list_of cells.new) }
        ensures gives { IfOk result (λ r. (files : List File) → Holds (names_of self.now) (first_count (body_of self.now) more (exp_of e.now))
            (env_of at.now) (list_of cells.old) (list_of cells.new) r ((w.form (names_of self.now) (exp_of e.now)).width + more)
            (λ x. v.value (scope_of self.now files) x (exp_of e.now) (w.form (names_of self.now) (exp_of e.now)))) }
    {
        match &e.node {
            ExprNode::Cast(_, a) => self.wide_in(alloc, cells, at, a, more),
            _ => self.extended_in(alloc, cells, at, e, more),
        }
    }

    /// Compiles the parts of a concatenation side by side, behind so many bits more that are 0.
    #[cycle(expression)]
    #[tactic(auto, using(crate::proofs::Walking::walking))]
    fn parts_in(
        &self,
        alloc: Global,
        cells: &mut CellList,
        at: &At,
        parts: &[Expr],
        more: u8,
    ) -> Result<u32, AllocError>
        requires functions { Compilers (names_of self.now) self.now.depth (F.pre self.now.compile_body) (F.post self.now.compile_body) }
        requires sound { AreSound (names_of self.now) (exps_of parts.now) }
        requires some { 1 ≤ w.total_width (names_of self.now) (exps_of parts.now) }
        requires narrow { w.total_width (names_of self.now) (exps_of parts.now) + more ≤ 128 }
        requires fits { Fits (names_of self.now) (list_of cells.old) (env_of at.now) }
        ensures grows { Grows (list_of cells.old) (list_of cells.new) }
        ensures gives { IfOk result (λ r. (files : List File) → Holds (names_of self.now) (all_count (body_of self.now) more (exps_of parts.now))
            (env_of at.now) (list_of cells.old) (list_of cells.new) r (w.total_width (names_of self.now) (exps_of parts.now) + more)
            (λ x. v.side_by_side (scope_of self.now files) x (exps_of parts.now))) }
    {
        let mut all = None;
        for part in parts {
            let next = self.wide_in(alloc, cells, at, part, bits_before(all, more))?;
            let slot = joined(alloc, cells, all, next)?;
            all = Some(slot);
        }
        match all {
            None => unreachable!(),
            Some(slot) => Ok(slot),
        }
    }

    /// Compiles a concatenation in a context (clause 5.1.14).
    #[cycle(expression)]
    #[tactic(auto, using(crate::proofs::Walking::walking))]
    fn joined_in(
        &self,
        alloc: Global,
        cells: &mut CellList,
        at: &At,
        parts: &[Expr],
        c: Form,
    ) -> Result<u32, AllocError>
        requires functions { Compilers (names_of self.now) self.now.depth (F.pre self.now.compile_body) (F.post self.now.compile_body) }
        requires sound { AreSound (names_of self.now) (exps_of parts.now) }
        requires some { 1 ≤ w.total_width (names_of self.now) (exps_of parts.now) }
        requires wide { w.total_width (names_of self.now) (exps_of parts.now) ≤ c.width }
        requires context { IsWidth c.width }
        requires fits { Fits (names_of self.now) (list_of cells.old) (env_of at.now) }
        ensures grows { Grows (list_of cells.old) (list_of cells.new) }
        ensures gives { IfOk result (λ r. (files : List File) → Compiles (names_of self.now) (scope_of self.now files) (in_count (names_of self.now) (body_of self.now) c.width (y.Cat (exps_of parts.now)))
            (y.Cat (exps_of parts.now)) c (env_of at.now) (list_of cells.old) (list_of cells.new) r) }
    {
        let all = self.parts_in(alloc, cells, at, parts, 0)?;
        read(alloc, cells, all, false, c.width as u8)
    }

    /// Compiles a concatenation so many times in a context (clause 5.1.14).
    #[cycle(expression)]
    #[tactic(auto, using(crate::proofs::Walking::walking))]
    fn repeated_in(
        &self,
        alloc: Global,
        cells: &mut CellList,
        at: &At,
        count: u8,
        parts: &[Expr],
        c: Form,
    ) -> Result<u32, AllocError>
        requires functions { Compilers (names_of self.now) self.now.depth (F.pre self.now.compile_body) (F.post self.now.compile_body) }
        requires sound { AreSound (names_of self.now) (exps_of parts.now) }
        requires some { 1 ≤ count * w.total_width (names_of self.now) (exps_of parts.now) }
        requires wide { count * w.total_width (names_of self.now) (exps_of parts.now) ≤ c.width }
        requires context { IsWidth c.width }
        requires fits { Fits (names_of self.now) (list_of cells.old) (env_of at.now) }
        ensures grows { Grows (list_of cells.old) (list_of cells.new) }
        ensures gives { IfOk result (λ r. (files : List File) → Compiles (names_of self.now) (scope_of self.now files) (in_count (names_of self.now) (body_of self.now) c.width (y.Rep count (exps_of parts.now)))
            (y.Rep count (exps_of parts.now)) c (env_of at.now) (list_of cells.old) (list_of cells.new) r) }
    {
        let own = parts_width(&self.room, parts);
        if count <= 2 || own == 1 {
            let all = self.parts_in(alloc, cells, at, parts, 0)?;
            return repeat(alloc, cells, count, all, false, c.width as u8);
        }
        let all = self.parts_in(alloc, cells, at, parts, c.width as u8 - own)?;
        multiply(alloc, cells, count, own, all)
    }

    /// Compiles a cast in a context: either sign gives the same bits (clause 5.5).
    #[cycle(expression)]
    #[tactic(auto, using(crate::proofs::Walking::walking))]
    fn cast_in(
        &self,
        alloc: Global,
        cells: &mut CellList,
        at: &At,
        a: &Expr,
        c: Form,
    ) -> Result<u32, AllocError>
        requires functions { Compilers (names_of self.now) self.now.depth (F.pre self.now.compile_body) (F.post self.now.compile_body) }
        requires expression { IsSoundExp (names_of self.now) (exp_of a.now) }
        requires context { IsWidth c.width }
        requires fits { Fits (names_of self.now) (list_of cells.old) (env_of at.now) }
        ensures grows { Grows (list_of cells.old) (list_of cells.new) }
        ensures gives { IfOk result (λ r. (files : List File) (signed : Bool) → Compiles (names_of self.now) (scope_of self.now files) (in_count (names_of self.now) (body_of self.now) c.width (y.Cast signed (exp_of a.now)))
            (y.Cast signed (exp_of a.now)) c (env_of at.now) (list_of cells.old) (list_of cells.new) r) }
    {
        let a = self.own_in(alloc, cells, at, a)?;
        read(alloc, cells, a, c.signed, c.width as u8)
    }

    /// Compiles an argument, cut to its input, and assigns it.
    #[cycle(expression)]
    #[tactic(auto, using(crate::proofs::Walking::walking))]
    fn argument_in(
        &self,
        alloc: Global,
        cells: &mut CellList,
        at: &At,
        e: &Expr,
        func: &Func,
        input: u32,
        body: &mut At,
    ) -> Result<(), AllocError>
        requires functions { Compilers (names_of self.now) self.now.depth (F.pre self.now.compile_body) (F.post self.now.compile_body) }
        requires expression { IsSoundExp (names_of self.now) (exp_of e.now) }
        requires function { IsSoundFun (names_of self.now) (fun_of func.now) }
        requires own { IsCellFun (names_of self.now) (fun_of func.now) }
        requires input { IsSignal (w.names_in (names_of self.now) (fun_of func.now)) input }
        requires first { body.old.first ≤ input }
        requires inside { Fits (w.names_in (names_of self.now) (fun_of func.now)) (list_of cells.old) (env_of body.old) }
        requires fits { Fits (names_of self.now) (list_of cells.old) (env_of at.now) }
        ensures grows { Grows (list_of cells.old) (list_of cells.new) }
        ensures passes { OnOk result ((files : List File) → Passes (names_of self.now) (w.names_in (names_of self.now) (fun_of func.now)) (exp_count (body_of self.now) (exp_of e.now) + 1)
            (env_of at.now) (env_of body.old) (env_of body.new) (list_of cells.old) (list_of cells.new) (input ∷ [])
            (λ x. v.arguments (scope_of self.now files) x (y.MoreExps (exp_of e.now) y.NoExps) ((w.signal_form (w.rows_in (names_of self.now) (fun_of func.now)) input).width ∷ []))) }
    {
        let width = signal_form(&inner(&self.room, func), input).width;
        let context = assigned(width, form_of(&self.room, e));
        let value = self.compile_in(alloc, cells, at, e, context)?;
        let cut = read(alloc, cells, value, false, width as u8)?;
        pass(body, input, cut);
        Ok(())
    }

    /// Compiles the arguments of a call, and assigns them to the inputs.
    #[cycle(expression)]
    #[tactic(auto, using(crate::proofs::Walking::walking))]
    fn arguments_in(
        &self,
        alloc: Global,
        cells: &mut CellList,
        at: &At,
        arguments: &[Expr],
        func: &Func,
        body: &mut At,
    ) -> Result<(), AllocError>
        requires functions { Compilers (names_of self.now) self.now.depth (F.pre self.now.compile_body) (F.post self.now.compile_body) }
        requires sound { AreSound (names_of self.now) (exps_of arguments.now) }
        requires many { count_of (exps_of arguments.now) ≡ length func.now.inputs }
        requires function { IsSoundFun (names_of self.now) (fun_of func.now) }
        requires own { IsCellFun (names_of self.now) (fun_of func.now) }
        requires first { body.old.first ≡ length (names_of self.now).signals }
        requires inside { Fits (w.names_in (names_of self.now) (fun_of func.now)) (list_of cells.old) (env_of body.old) }
        requires fits { Fits (names_of self.now) (list_of cells.old) (env_of at.now) }
        ensures grows { Grows (list_of cells.old) (list_of cells.new) }
        ensures passes { OnOk result ((files : List File) → Passes (names_of self.now) (w.names_in (names_of self.now) (fun_of func.now)) (exps_count (body_of self.now) (exps_of arguments.now))
            (env_of at.now) (env_of body.old) (env_of body.new) (list_of cells.old) (list_of cells.new) func.now.inputs
            (λ x. v.arguments (scope_of self.now files) x (exps_of arguments.now) (w.input_widths_of (names_of self.now) (Some (fun_of func.now))))) }
    {
        let inputs = func.inputs.as_slice();
        for number in 0..arguments.len() {
            let argument = &arguments[number];
            self.argument_in(alloc, cells, at, argument, func, inputs[number], body)?;
        }
        Ok(())
    }

    /// Compiles a call in a context.
    #[cycle(expression)]
    #[tactic(auto, using(crate::proofs::Walking::walking))]
    fn call_in(
        &self,
        alloc: Global,
        cells: &mut CellList,
        at: &At,
        function: u32,
        arguments: &[Expr],
        c: Form,
    ) -> Result<u32, AllocError>
        requires functions { Compilers (names_of self.now) self.now.depth (F.pre self.now.compile_body) (F.post self.now.compile_body) }
        requires there { Takes (slice_get (names_of self.now).funs function) (count_of (exps_of arguments.now)) }
        requires sound { AreSound (names_of self.now) (exps_of arguments.now) }
        requires context { IsWidth c.width }
        requires fits { Fits (names_of self.now) (list_of cells.old) (env_of at.now) }
        ensures grows { Grows (list_of cells.old) (list_of cells.new) }
        ensures gives { IfOk result (λ r. (files : List File) → Compiles (names_of self.now) (scope_of self.now files) (in_count (names_of self.now) (body_of self.now) c.width (y.Call function (exps_of arguments.now)))
            (y.Call function (exps_of arguments.now)) c (env_of at.now) (list_of cells.old) (list_of cells.new) r) }
    {
        if self.depth == 0 {
            return nothing(alloc, cells, c.width as u8);
        }
        let func = &self.room.funcs[function as usize];
        let mut body = begin(alloc, cells, &self.room, at, func)?;
        self.arguments_in(alloc, cells, at, arguments, func, &mut body)?;
        (self.compile_body)(cells, &mut body, function)?;
        read_signal(
            alloc,
            cells,
            &inner(&self.room, func),
            &body,
            func.result,
            c,
        )
    }

    /// Compiles an expression in a context.
    #[cycle(expression)]
    #[tactic(auto, using(crate::proofs::Walking::walking))]
    pub fn compile_in(
        &self,
        alloc: Global,
        cells: &mut CellList,
        at: &At,
        e: &Expr,
        c: Form,
    ) -> Result<u32, AllocError>
        requires functions { Compilers (names_of self.now) self.now.depth (F.pre self.now.compile_body) (F.post self.now.compile_body) }
        requires expression { IsSoundExp (names_of self.now) (exp_of e.now) }
        requires wide { (w.form (names_of self.now) (exp_of e.now)).width ≤ c.width }
        requires narrow { c.width ≤ 128 }
        requires fits { Fits (names_of self.now) (list_of cells.old) (env_of at.now) }
        ensures grows { Grows (list_of cells.old) (list_of cells.new) }
        ensures gives { IfOk result (λ r. (files : List File) → Compiles (names_of self.now) (scope_of self.now files) (in_count (names_of self.now) (body_of self.now) c.width (exp_of e.now))
            (exp_of e.now) c (env_of at.now) (list_of cells.old) (list_of cells.new) r) }
    {
        match &e.node {
            ExprNode::Num(bits, _) => number_in(alloc, cells, bits.value, bits.width, c),
            ExprNode::Label(label) => number_in(alloc, cells, label.value, label.width, c),
            ExprNode::Sig(signal) => read_signal(alloc, cells, &self.room, at, *signal, c),
            ExprNode::Word(memory, a) => self.word_in(alloc, cells, at, *memory, a, c),
            ExprNode::Pick(base, index, from, bits) => {
                self.pick_in(alloc, cells, at, base, index, *from, *bits, c)
            }
            ExprNode::Slice(base, low, bits) => self.slice_in(
                alloc, cells, at, base, *low, *bits, c,
            ),
            ExprNode::Un(op, a) => self.unary_in(alloc, cells, at, *op, a, c),
            ExprNode::Bin(op, a, b) => self.binary_in(alloc, cells, at, *op, a, b, c),
            ExprNode::Cond(test, a, b) => self.choice_in(alloc, cells, at, test, a, b, c),
            ExprNode::Cat(parts) => self.joined_in(alloc, cells, at, parts, c),
            ExprNode::Rep(count, parts) => self.repeated_in(alloc, cells, at, *count, parts, c),
            ExprNode::Cast(_, a) => self.cast_in(alloc, cells, at, a, c),
            ExprNode::Call(function, arguments) => {
                self.call_in(alloc, cells, at, *function, arguments, c)
            }
            ExprNode::Time => read(alloc, cells, at.time, false, c.width as u8),
            ExprNode::Sys(_) => read(alloc, cells, at.answer, c.signed, c.width as u8),
        }
    }
}
