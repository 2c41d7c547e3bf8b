//! What holds of sources that are built. Each function does nothing; its contract is the law.

ghost use Rattle.std.specs.Prelude.{◌≡◌, ℕ, List, false};
ghost use Rattle.vl_loops.specs.vl_design.specs.Alone.{Origin, Boundary};
ghost use Rattle.vl_loops.specs.vl_design.specs.Laws.{StartsFine};
ghost use Rattle.vl_loops.specs.vl_design.specs.Queue.{Queue};
ghost use Rattle.sub_runs.specs.Again.{GoesOn};
ghost use Rattle.ten_make.specs.ten_core.specs.declared.image.Image.{Image as Built};
ghost use Rattle.ten_build.specs.Builds.{IsImageOf};

use sub_runs::again_laws::{a_resumed_run_goes_on, the_same_run_goes_on};

/// The run of the design that a text stands for, from nothing or from a snapshot, goes on from each boundary, until it has finished, as the
/// run that is resumed from its snapshot there: that one prints what the run prints behind it.
pub fn a_sources_run_goes_on_from_its_snapshots()
    ensures { (text : List ℕ) (image : Built) (o : Origin) (k : ℕ) (q : Queue) → (is : IsImageOf text image) → o.flat ≡ is.design →
        StartsFine o.flat.rows o.resume → Boundary o k q → q.state.finished ≡ false → GoesOn o k q.state }
{
    a_resumed_run_goes_on();
    the_same_run_goes_on();
}
