//! What a report reads from the histories of fabrics. Each function does nothing; its contract is the law.

ghost use Rattle.std.specs.Prelude.{◌≡◌, ℕ, ◌==◌, ◌&&◌, if◌then◌else◌, Bool, List, [], map};
ghost use Rattle.ten_files.specs.vl_design.specs.declared.capacity.Cost.{Cost as Capacity};
ghost use Rattle.ten_files.specs.vl_design.specs.Alone.{Plan};
ghost use Rattle.fab_model.specs.ten_plan.specs.Plans.{move_at, IsPlan};
ghost use Rattle.fab_model.specs.declared.note.Note.{Note};
ghost use Rattle.fab_model.specs.Histories.{stays_of, IsLegal};
ghost use Rattle.fab_model.specs.Moves.{total};
ghost use Rattle.fab_model.specs.Tokens.{puts};
ghost use Rattle.host_files.specs.host_form.specs.Histories.{lines_at, lines_of, notes_of, visits_in};
ghost use Rattle.host_files.specs.host_form.specs.Orders.{puts_at};
ghost use Rattle.host_files.specs.host_form.specs.Runs.{moves_when};
ghost use Rattle.host_report.specs.Told.{goes_to, told, visit_of};

/// The stays of a tenant that a report reads from a legal history are those that its notes make.
pub fn stays_are_read_from_a_history()
    ensures { (g t : ℕ) (c : Capacity) (notes : List Note) → IsLegal g c notes → visits_in g (notes_of t (told notes)) ≡ map visit_of (stays_of g t notes) }
{}

/// A report reads from a legal history that a tenant is put in line at a tick as often as it is so by its notes; and that it is put in
/// line nowhere where it is so at no tick.
pub fn lines_are_read_from_a_history()
    ensures often { (g t j : ℕ) (c : Capacity) (notes : List Note) → IsLegal g c notes →
        lines_at t j (told notes) ≡ total (λ x. if (x.tenant == t) && (x.tick == j) then 1 else 0) (puts notes) }
    ensures none { (t : ℕ) (notes : List Note) → ((j : ℕ) → lines_at t j (told notes) ≡ 0) → lines_of t (told notes) ≡ [] }
{}

/// The moves of a plan put a tenant in line at a tick once, on the fabric to which the move goes that stands there, where the tick passes.
pub fn moves_put_once()
    ensures { (g j : ℕ) (test : ℕ → Bool) (p : Plan) → IsPlan p →
        puts_at g j (moves_when test p.errands) ≡ (if goes_to g (move_at j p.errands) && test j then 1 else 0) }
{}
