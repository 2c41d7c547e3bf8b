//! What a source is built into.

ghost use Rattle.std.specs.Prelude.{ℕ, List, IfOk};
ghost use Rattle.vl_front.specs.Sources.{IsAcceptedOf};
ghost use Rattle.ten_build.specs.Builds.{HasCost, IsBuild, IsImageOf};

use crate::fit_laws::an_accepted_design_is_a_tenants;
use elab_laws::Accepted;
use elab_laws::asked_laws::{
    processes_of_an_elaborated_design_ask_behind_calls, unrolled_designs_ask_behind_calls,
};
use elab_laws::fit_laws::an_elaborated_design_is_fit_to_be_judged;
use elab_laws::functions_laws::functions_of_an_elaborated_design_keep_to_their_own;
use elab_laws::limited_laws::{
    rows_of_a_limited_design_can_be_written, signals_of_an_elaborated_design_are_limited,
};
use elab_laws::writers_laws::processes_of_an_elaborated_design_write_what_is_theirs;
use std::alloc::{AllocError, Global};
use ten_make::Image;
use ten_make::image::image;
use vl_cost::cost::cost;
use vl_front::fault::BuildError;
use vl_front::front::front;
use vl_loops::Cost;
use vl_loops::laws::{costs_the_same, no_loop_is_left, runs_the_same};

/// The most signals of a design, so that cells can number its values: 2 ^ 28.
const MOST_SIGNALS: usize = 268_435_456;

/// What an accepted design costs: the cost of the design that its text stands for. An `Err` is want of memory.
pub fn cost_of(alloc: Global, accepted: &Accepted) -> Result<Cost, AllocError>
    requires { (text : List ℕ) × IsAcceptedOf text accepted.now }
    ensures { IfOk result (λ c. (text : List ℕ) → IsAcceptedOf text accepted.now → HasCost text c) }
{
    an_elaborated_design_is_fit_to_be_judged();
    no_loop_is_left();
    costs_the_same();
    cost(alloc, &accepted.design)
}

/// The image of an accepted design, whose run alone is that of the design that its text stands for, over all files, with all plans and
/// from all starts. An `Err` is want of memory alone, also where the design has more than 2 ^ 28 signals.
pub fn make(alloc: Global, accepted: Accepted) -> Result<Image, AllocError>
    requires { (text : List ℕ) × IsAcceptedOf text accepted }
    ensures { IfOk result (λ image. (text : List ℕ) → IsAcceptedOf text accepted → IsImageOf text image) }
{
    an_elaborated_design_is_fit_to_be_judged();
    functions_of_an_elaborated_design_keep_to_their_own();
    processes_of_an_elaborated_design_write_what_is_theirs();
    an_accepted_design_is_a_tenants();
    runs_the_same();
    costs_the_same();
    signals_of_an_elaborated_design_are_limited();
    processes_of_an_elaborated_design_ask_behind_calls();
    unrolled_designs_ask_behind_calls();
    rows_of_a_limited_design_can_be_written();
    let Accepted { design, order } = accepted;
    if design.signals.as_slice().len() > MOST_SIGNALS {
        return Err(AllocError);
    }
    image(alloc, design, order)
}

/// What is built of an accepted design.
fn of_accepted(alloc: Global, accepted: Accepted) -> Result<Image, BuildError>
    requires { (text : List ℕ) × IsAcceptedOf text accepted }
    ensures { (text : List ℕ) → IsAcceptedOf text accepted → IsBuild text result }
{
    match make(alloc, accepted) {
        Ok(image) => Ok(image),
        Err(_) => Err(BuildError::Memory),
    }
}

/// Builds the text of a source: an image, whose run alone is that of the design that the text stands for, over all files, with all
/// plans and from all starts; or else the place and the kind of exactly the first fault for which it is refused; or want of memory,
/// also where the design has more than 2 ^ 28 signals.
pub fn build(alloc: Global, text: &[u8]) -> Result<Image, BuildError>
    ensures { IsBuild text.now result }
{
    match front(alloc, text) {
        Ok(accepted) => of_accepted(alloc, accepted),
        Err(fault) => Err(fault),
    }
}
