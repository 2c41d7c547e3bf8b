//! What a report reads of a run's outcome, and which replies it may have. Each function does nothing; its contract is the law.

ghost use Rattle.std.specs.Prelude.{◌≡◌, ℕ, ◌<◌, Bool, List, map, length, slice_index_or, Option, [], filter, not};
ghost use Rattle.fab_orders.specs.fab_bay.specs.declared.noted.Label.{Label};
ghost use Rattle.fab_orders.specs.declared.outcomes.Order.{Order};
ghost use Rattle.fab_orders.specs.declared.outcomes.Outcome.{Outcome};
ghost use Rattle.fab_orders.specs.declared.outcomes.Start.{Start};
ghost use Rattle.fab_orders.specs.Outcomes.{IsOutcome};
ghost use Rattle.fab_orders.specs.Starts.{AreLabels, AreStarts};
ghost use Rattle.host_judge.specs.host_text.specs.declared.script.Script.{Script};
ghost use Rattle.host_judge.specs.host_form.specs.Origins.{Tenant};
ghost use Rattle.host_judge.specs.host_form.specs.Orders.{Answered};
ghost use Rattle.host_judge.specs.host_form.specs.Reports.{blocks_of, AreOutcomes};
ghost use Rattle.host_judge.specs.declared.verdict.Ready.{Ready};
ghost use Rattle.host_judge.specs.host_form.specs.declared.refusal.Refusal.{Refusal};
ghost use Rattle.host_judge.specs.Judged.{AreJudged};
ghost use Rattle.host_report.specs.Ends.{is_refused, AreEnds};
ghost use Rattle.host_outcomes.specs.Begun.{AreBegun};
ghost use Rattle.host_outcomes.specs.Ends.{is_refusal, AreTold, DidAs};
ghost use Rattle.host_outcomes.specs.Reported.{histories_for, number_in, numbers_from};
ghost use Rattle.host_outcomes.specs.Seen.{Sees};
ghost use Rattle.ten_files.specs.vl_design.specs.Cost.{Cost};
ghost use Rattle.host_judge.specs.host_text.specs.declared.script.FabricLine.{FabricLine};
ghost use Rattle.host_judge.specs.host_text.specs.declared.script.Free.{Free};
ghost use Rattle.host_judge.specs.host_text.specs.Laws.{IsWithinLimits};
ghost use Rattle.fab_orders.specs.declared.outcomes.Answer.{Answer};
ghost use Rattle.fab_orders.specs.Orders.{AreOrders};
ghost use Rattle.host_judge.specs.host_form.specs.Histories.{Histories};
ghost use Rattle.host_judge.specs.host_form.specs.Replies.{AreAnswered};
ghost use Rattle.host_outcomes.specs.Given.{answered, costs_begun, costs_of, given};
ghost use Rattle.host_judge.specs.host_form.specs.Runs as report;

/// What the histories of a report show of the orders that were done while tenants ran: those by number n, which is tenant k of those that ran.
pub fn orders_are_seen()
    ensures { (labels : List Label) (starts : List Start) (orders : List Order) (out : Outcome) (refused : List Bool) → AreLabels starts labels → AreStarts labels starts →
        IsOutcome labels starts orders out → (k n : ℕ) (d : Start) → k < length starts → k < length (numbers_from 0 refused) → number_in refused k ≡ n →
        Sees (histories_for refused out.bays.items) n k (slice_index_or starts k d) out }
{}

/// What all tenants of a script come to is what a report says of them, where its answers say what those of the run do: refused ones, which have numbers in the
/// script too, as they are refused; and each other one as its run has ended, with its cost, its stays and the snapshots that it has kept.
pub fn all_tenants_are_reported()
    ensures { (s : Script) (tenants : List Tenant) (refusals : List (Option Refusal)) (readies : List Ready) (labels : List Label) (starts : List Start) (orders : List Order) (out : Outcome) (answers : List Answered) (xs : List report.Outcome) →
        AreJudged s.fabrics tenants refusals readies → AreBegun readies starts → AreLabels starts labels → AreStarts labels starts → IsOutcome labels starts orders out →
        DidAs (map is_refused refusals) answers out.answers.items → AreEnds refusals out.ended.items xs →
        (ys : List report.Outcome) × AreOutcomes s (histories_for (map is_refused refusals) out.bays.items) answers 0 tenants ys
        × (blocks_of s tenants ys ≡ blocks_of s tenants xs) × (map is_refusal ys ≡ map is_refused refusals) × AreTold answers 0 refusals out.ended.items ys }
{}

/// The orders that are given may be given: each goes to one of the tenants that run, and a move to a fabric that is large enough for it.
pub fn given_orders_may_be_given()
    ensures { (labels : List Label) (starts : List Start) (fabrics : List FabricLine) (refused : List Bool) (free : List Free) →
        length starts ≡ length (filter (λ r. not r) refused) → length labels ≡ length fabrics →
        ((g : ℕ) (l : Label) (f : FabricLine) → g < length labels → (slice_index_or labels g l).capacity ≡
        record { regs = (slice_index_or fabrics g f).capacity.registers; cells = (slice_index_or fabrics g f).capacity.cells; mem = (slice_index_or fabrics g f).capacity.memory }) →
        AreOrders labels starts (given fabrics refused (costs_begun starts) free) }
{}

/// Tenants end with the costs with which they began.
pub fn tenants_end_at_their_costs()
    ensures { (labels : List Label) (starts : List Start) (orders : List Order) (out : Outcome) → IsOutcome labels starts orders out →
        costs_of out.ended.items ≡ costs_begun starts }
{}

/// What the replies of a report say is what the answers of a run say; and each free order has one.
pub fn answers_do_as_orders()
    ensures { (fabrics : List FabricLine) (refused : List Bool) (costs : List Cost) (free : List Free) (theirs : List Answer) →
        map (λ a. a.order.value) theirs ≡ given fabrics refused costs free →
        DidAs refused (answered fabrics refused costs free theirs) theirs × (map (λ a. a.order) (answered fabrics refused costs free theirs) ≡ free) }
{}

/// The replies may be given, where the histories of a report show the orders that were done.
pub fn replies_may_be_given()
    ensures { (s : Script) (tenants : List Tenant) (refusals : List (Option Refusal)) (readies : List Ready) (labels : List Label) (starts : List Start) (orders : List Order) (out : Outcome) (histories : Histories) (ys : List report.Outcome) →
        IsWithinLimits s → length tenants ≡ length s.tenants → AreBegun readies starts → IsOutcome labels starts orders out →
        orders ≡ given s.fabrics (map is_refused refusals) (costs_begun starts) s.free →
        ((k n : ℕ) (d : Start) → k < length starts → k < length (numbers_from 0 (map is_refused refusals)) → number_in (map is_refused refusals) k ≡ n →
        Sees histories n k (slice_index_or starts k d) out) →
        AreOutcomes s histories (answered s.fabrics (map is_refused refusals) (costs_of out.ended.items) s.free out.answers.items) 0 tenants ys →
        AreTold (answered s.fabrics (map is_refused refusals) (costs_of out.ended.items) s.free out.answers.items) 0 refusals out.ended.items ys →
        AreAnswered s.fabrics histories ys [] (answered s.fabrics (map is_refused refusals) (costs_of out.ended.items) s.free out.answers.items) }
{}
