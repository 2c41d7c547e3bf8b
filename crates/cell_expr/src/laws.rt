//! What cells cost: the cells that expressions and statements are compiled to at most are at most what they cost, and their slack.

ghost use Rattle.std.specs.Prelude.{◌≡◌, ◌≤◌, ◌+◌, ℕ, [], All};
ghost use Rattle.vl_design.specs.Cost as cost;
ghost use Rattle.vl_design.specs.Functions.{scope_of};
ghost use Rattle.vl_design.specs.Sound.{AreSound, IsSound, IsSoundExp, IsSoundFun, IsSoundStm};
ghost use Rattle.vl_design.specs.State.{State};
ghost use Rattle.vl_design.specs.Syntax.{Exp, Exps, Flat, Stm};
ghost use Rattle.vl_design.specs.Width.{Names, Scope};
ghost use Rattle.cell_expr.specs.Counts.{body_cells, body_count, exp_count, labels_count, own_count, stm_count};
ghost use Rattle.cell_expr.specs.Slack.{bodies_slack, body_slack, exp_slack, exps_slack, stm_slack, whole_slack};

/// An expression that is read for itself has less cells than it costs and its slack, and in any context it has at most as many.
pub fn expressions_are_within_cost()
    ensures own { (names : Names) (body cells slack : ℕ → ℕ) (e : Exp) → ((f : ℕ) → body f ≤ cells f + slack f) → IsSoundExp names e →
        own_count body e + 1 ≤ cost.exp_cells cells e + exp_slack slack e }
    ensures any { (names : Names) (body cells slack : ℕ → ℕ) (e : Exp) → ((f : ℕ) → body f ≤ cells f + slack f) → IsSoundExp names e →
        exp_count body e ≤ cost.exp_cells cells e + exp_slack slack e }
{}

/// A condition has at most the cells that it costs and its slack, also where it is an answer.
pub fn conditions_are_within_cost()
    ensures { (names : Names) (body cells slack : ℕ → ℕ) (e : Exp) → ((f : ℕ) → body f ≤ cells f + slack f) → IsSoundExp names e →
        own_count body e ≤ cost.exp_cells cells e + whole_slack slack e }
{}

/// Labels of an item of a case have at most the cells that they cost and their slack.
pub fn labels_are_within_cost()
    ensures { (names : Names) (body cells slack : ℕ → ℕ) (es : Exps) → ((f : ℕ) → body f ≤ cells f + slack f) → AreSound names es →
        labels_count body es ≤ cost.labels_cells cells es + exps_slack slack es }
{}

/// A statement has at most the cells that it costs and its slack; loops and system calls aren't compiled.
pub fn statements_are_within_cost()
    ensures { (scope : Scope) (body cells slack : ℕ → ℕ) (a : Stm) (s : State) → ((f : ℕ) → body f ≤ cells f + slack f) → IsSoundStm scope.names a →
        stm_count body a ≤ cost.stm_cells scope cells a s + stm_slack slack a }
{}

/// The bodies of functions have at most the cells that they cost and their slack, however deep calls nest; and so they have in a
/// design, where calls nest as deep as there are functions.
pub fn bodies_are_within_cost()
    ensures nested { (scope : Scope) (n f : ℕ) → All (IsSoundFun scope.names) scope.names.funs →
        body_count scope.names.funs n f ≤ cost.body_within scope n f + body_slack scope.names.funs n f }
    ensures all { (d : Flat) (f : ℕ) → IsSound d →
        body_cells d f ≤ cost.body_cells (scope_of d []) f + bodies_slack d f }
{}
