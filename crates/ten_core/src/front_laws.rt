//! What holds of what runs print. The function does nothing; its contract is the law.

ghost use Rattle.std.specs.Prelude.{ℕ, List};
ghost use Rattle.vl_design.specs.Alone.{Origin};
ghost use Rattle.ten_form.specs.sub_nodes.specs.Cycles.{Stage};
ghost use Rattle.ten_core.specs.Fronts.{IsFront};
ghost use Rattle.ten_core.specs.Running.{IsRunning};

use crate::run_laws::{a_run_at_rest_is_at_a_boundary, each_act_comes_nearer};
use vl_design::laws::ends_once;

/// What a run has printed on its way is a front of what the run alone has printed where it ends.
pub fn what_a_run_has_printed_is_a_front()
    ensures { (o : Origin) (order : List ℕ) (c : ℕ) (i : Stage) → IsRunning o order c i → IsFront o i }
{
    each_act_comes_nearer();
    a_run_at_rest_is_at_a_boundary();
    ends_once();
}
