//! Laws of the definitions: what their readers may count on. Each function does nothing; its contract is the law.

ghost use Rattle.std.specs.Prelude.{◌≡◌};
ghost use Rattle.vl_tree.specs.declared.tree.Binary.{Binary, out-Binary};
ghost use Rattle.vl_tree.specs.Binding.{Term, term_of, first_of, links_of, IsBound};

/// Binding keeps the operands and the operators in their order.
pub fn binding_keeps_the_order()
    ensures first { (e : Binary) → first_of (term_of e) ≡ (out-Binary e).first }
    ensures links { (e : Binary) → links_of (term_of e) ≡ (out-Binary e).links }
{}

/// Each operator binds as table 5-4 of IEEE 1364-2005 has it, to the left within a row.
pub fn binding_follows_the_table()
    ensures { (e : Binary) → IsBound (term_of e) }
{}

/// No other way to bind the operators keeps the order and follows the table.
pub fn binding_is_the_only_one()
    ensures { (e : Binary) (t : Term) → IsBound t → first_of t ≡ (out-Binary e).first → links_of t ≡ (out-Binary e).links → t ≡ term_of e }
{}
