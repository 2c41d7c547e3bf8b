//! Laws of the definitions: what their readers may count on. Each function does nothing; its contract is the law.

ghost use Rattle.std.specs.Prelude.{◌≡◌, ◌↔◌, ◌∷◌, ◌++◌, [], ℕ, List, Option, None, Some, flat_map, length};
ghost use Rattle.vl_tree.specs.vl_base.specs.declared.number.Number.{Number as Numeral};
ghost use Rattle.vl_tree.specs.vl_base.specs.declared.place.Place.{Place};
ghost use Rattle.vl_tree.specs.declared.tree.Binary.{out-Binary};
ghost use Rattle.vl_tree.specs.declared.tree.Expression.{Expression, out-Expression};
ghost use Rattle.vl_tree.specs.declared.tree.Identifier.{Identifier};
ghost use Rattle.vl_tree.specs.declared.tree.Name.{Name, out-Name};
ghost use Rattle.vl_tree.specs.declared.tree.Primary.TheVariants as p;
ghost use Rattle.vl_tree.specs.declared.tree.Select.{Select, out-Select};
ghost use Rattle.vl_tree.specs.declared.tree.SystemCall.{SystemCall, out-SystemCall};
ghost use Rattle.vl_tree.specs.declared.source_tree.AssignMark.{AssignMark};
ghost use Rattle.vl_tree.specs.declared.source_tree.Assignment.{Assignment};
ghost use Rattle.vl_tree.specs.declared.source_tree.CaseItem.{CaseItem};
ghost use Rattle.vl_tree.specs.declared.source_tree.CaseItem.TheVariants as i;
ghost use Rattle.vl_tree.specs.declared.source_tree.CaseKeyword.{CaseKeyword};
ghost use Rattle.vl_tree.specs.declared.source_tree.Lvalue.{Lvalue};
ghost use Rattle.vl_tree.specs.declared.source_tree.Lvalue.TheVariants as l;
ghost use Rattle.vl_tree.specs.declared.source_tree.Source.{Source};
ghost use Rattle.vl_tree.specs.declared.source_tree.Statement.{Statement};
ghost use Rattle.vl_tree.specs.declared.source_tree.Statement.TheVariants as s;
ghost use Rattle.vl_scope.specs.declared.fault.Fault.{Fault};
ghost use Rattle.vl_scope.specs.Faults.{In};
ghost use Rattle.vl_uses.specs.declared.setting.Setting.{Setting};
ghost use Rattle.vl_uses.specs.declared.setting.Side.{Side};
ghost use Rattle.vl_uses.specs.declared.setting.Side.TheVariants.{Procedural};
ghost use Rattle.vl_uses.specs.declared.setting.Usage.{Usage};
ghost use Rattle.vl_uses.specs.declared.setting.Usage.TheVariants.{Task, Operand};
ghost use Rattle.vl_uses.specs.Alone as a;
ghost use Rattle.vl_uses.specs.Nodes as n;
ghost use Rattle.vl_uses.specs.Settings.{constantly, of_index};
ghost use Rattle.vl_uses.specs.UseFaults.{IsUseFault, use_faults};
ghost use Rattle.vl_uses.specs.Walks as w;

/// The list has just the faults of uses.
pub fn the_list_has_the_use_faults()
    ensures { (s : Source) (f : Fault) → IsUseFault s f ↔ In f (use_faults s) }
{}

/// The parentheses round a whole expression are passed over, and nothing else.
pub fn parentheses_are_passed_over()
    ensures inside { (x : Expression) (at : Place) (inner : Expression) → a.sole x ≡ Some (p.Parenthesized at inner) → a.stripped x ≡ a.stripped inner }
    ensures others { (x : Expression) → ((at : Place) (inner : Expression) → a.sole x ≡ Some (p.Parenthesized at inner) → ⊥) → a.stripped x ≡ x }
{}

/// The parts of an expression are those of its operands, in order, and of what stands behind a `?`.
pub fn an_expression_has_the_parts_of_its_operands()
    ensures { (k : Setting) (x : Expression) → n.expression_nodes k x
        ≡ w.unary_nodes k (out-Binary (out-Expression x).binary).first ++ flat_map (w.link_nodes k) (out-Binary (out-Expression x).binary).links ++ n.given (w.choice_nodes k) (out-Expression x).choice }
{}

/// The parts of a primary, by what it is.
pub fn a_primary_has_these_parts()
    ensures number { (k : Setting) (at : Place) (x : Numeral) → n.primary_nodes k (p.Number at x) ≡ n.node k (n.number at x) ∷ [] }
    ensures string { (k : Setting) (at : Place) (text : List ℕ) → n.primary_nodes k (p.Str at text) ≡ [] }
    ensures name { (k : Setting) (x : Name) → n.primary_nodes k (p.Name x) ≡ n.node k (n.value x) ∷ n.name_nodes k x }
    ensures parenthesized { (k : Setting) (at : Place) (x : Expression) → n.primary_nodes k (p.Parenthesized at x) ≡ n.expression_nodes k x }
    ensures concatenation { (k : Setting) (at : Place) (xs : List Expression) → n.primary_nodes k (p.Concatenation at xs) ≡ n.node k (n.group at) ∷ flat_map (n.expression_nodes k) xs }
    ensures replication { (k : Setting) (at : Place) (count : Expression) (xs : List Expression) → n.primary_nodes k (p.Replication at count xs)
        ≡ n.node k (n.group at) ∷ (n.expression_nodes (constantly k) count ++ flat_map (n.expression_nodes k) xs) }
    ensures call { (k : Setting) (name : Identifier) (xs : List Expression) → n.primary_nodes k (p.Call name xs) ≡ n.node k (n.call name (length xs)) ∷ flat_map (n.expression_nodes k) xs }
    ensures system { (k : Setting) (x : SystemCall) → n.primary_nodes k (p.System x) ≡ n.system_nodes k Operand x }
{}

/// The parts of the selects of a name and of a system call's arguments.
pub fn selects_and_arguments_have_these_parts()
    ensures name { (k : Setting) (x : Name) → n.name_nodes k x ≡ flat_map (n.select_nodes k) (out-Name x).selects }
    ensures select { (k : Setting) (x : Select) → n.select_nodes k x ≡ w.bounds_nodes k (out-Select x).first (out-Select x).second }
    ensures call { (k : Setting) (u : Usage) (x : SystemCall) → n.system_nodes k u x
        ≡ n.node k (n.system u x) ∷ n.given (flat_map (w.argument_nodes k (n.is_load (out-SystemCall x).name))) (out-SystemCall x).arguments }
{}

/// The parts of a left side, by what it is.
pub fn a_left_side_has_these_parts()
    ensures name { (side : Side) (k : Setting) (x : Name) → n.lvalue_nodes side k (l.Name x) ≡ n.node k (n.target side x) ∷ n.name_nodes (of_index side k) x }
    ensures concatenation { (side : Side) (k : Setting) (at : Place) (xs : List Lvalue) → n.lvalue_nodes side k (l.Concatenation at xs) ≡ flat_map (n.lvalue_nodes side k) xs }
{}

/// The parts of a statement, by what it is.
pub fn a_statement_has_these_parts()
    ensures null { (k : Setting) (at : Place) → n.statement_nodes k (s.Null at) ≡ [] }
    ensures block { (k : Setting) (at : Place) (xs : List Statement) → n.statement_nodes k (s.Block at xs) ≡ flat_map (n.statement_nodes k) xs }
    ensures when { (k : Setting) (at : Place) (test : Expression) (x : Statement) (o : Option Statement) → n.statement_nodes k (s.If at test x o)
        ≡ n.condition_nodes k test ++ n.statement_nodes k x ++ n.given (n.statement_nodes k) o }
    ensures case { (k : Setting) (at : Place) (word : CaseKeyword) (x : Expression) (items : List CaseItem) → n.statement_nodes k (s.Case at word x items)
        ≡ n.expression_nodes k x ++ flat_map (n.case_nodes k word) items }
    ensures repeated { (k : Setting) (at : Place) (first : Assignment) (test : Expression) (step : Assignment) (x : Statement) → n.statement_nodes k (s.For at first test step x)
        ≡ n.assignment_nodes Procedural k first ++ n.expression_nodes k test ++ n.assignment_nodes Procedural k step ++ n.statement_nodes k x }
    ensures counted { (k : Setting) (at : Place) (count : Expression) (x : Statement) → n.statement_nodes k (s.Repeat at count x) ≡ n.expression_nodes (constantly k) count ++ n.statement_nodes k x }
    ensures assignment { (k : Setting) (at : Place) (left : Lvalue) (mark : AssignMark) (right : Expression) → n.statement_nodes k (s.Assign at left mark right)
        ≡ n.lvalue_nodes Procedural k left ++ n.right_side_nodes k right }
    ensures call { (k : Setting) (at : Place) (x : SystemCall) → n.statement_nodes k (s.System at x) ≡ n.system_nodes k Task x }
    ensures labels { (k : Setting) (word : CaseKeyword) (at : Place) (labels : List Expression) (x : Statement) → n.case_nodes k word (i.Labels at labels x)
        ≡ flat_map (n.label_nodes k word) labels ++ n.statement_nodes k x }
    ensures default { (k : Setting) (word : CaseKeyword) (at : Place) (x : Statement) → n.case_nodes k word (i.Default at x) ≡ n.statement_nodes k x }
{}
