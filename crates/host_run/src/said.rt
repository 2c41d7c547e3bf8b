//! What is said of the tenants of a script.

ghost use Rattle.std.specs.Prelude.{◌≡◌, length, map, IfOk};
ghost use Rattle.std.specs.List.{list_any};
ghost use Rattle.host_text.specs.Report as r;
ghost use Rattle.host_text.specs.Laws.{IsSpelt, IsWithinLimits};
ghost use Rattle.host_report.specs.Ends.{is_refused};
ghost use Rattle.host_report.specs.Telling.{AreTellable};
ghost use Rattle.host_run.specs.Steps.{AreAnswersTo, Says};

use fab_rounds::outcomes::Answer;
use host_files::kept::Kept;
use host_form::refusal::Refusal;
use host_outcomes::replies::replies;
use host_report::tell::{Told, tell};
use host_report::transit::Transit;
use host_text::block::{Block, FreeLine};
use host_text::report::report;
use host_text::script::Script;
use std::alloc::{AllocError, Global};

/// What is said of the tenants of a script.
#[derive(Drop)]
pub(crate) struct Said {
    /// A tenant is refused.
    pub(crate) refused: bool,
    /// What is said of each tenant.
    pub(crate) blocks: Vec<Block>,
    /// The report.
    pub(crate) text: Vec<u8>,
    /// The snapshots that each tenant keeps; None where it is refused.
    pub(crate) kept: Vec<Option<Kept>>,
}

/// Whether a tenant is refused.
fn any_refused(refusals: &[Option<Refusal>]) -> bool
    ensures { result ≡ list_any (λ x. x) (map is_refused refusals.now) }
{
    for refusal in refusals {
        if refusal.is_some() {
            return true;
        }
    }
    false
}

/// The bytes of a report.
fn written(alloc: Global, blocks: &[Block], lines: &[FreeLine]) -> Result<Vec<u8>, AllocError>
    ensures { IfOk result (λ text. text.items ≡ r.report blocks.now lines.now) }
{
    let mut text = Vec::new(alloc);
    report(alloc, blocks, lines, &mut text)?;
    Ok(text)
}

/// What was told, with its report.
fn in_words(
    alloc: Global,
    refused: bool,
    told: Told,
    lines: &[FreeLine],
) -> Result<Said, AllocError>
    ensures refused { IfOk result (λ s. s.refused ≡ refused) }
    ensures blocks { IfOk result (λ s. s.blocks.items ≡ told.blocks.items) }
    ensures text { IfOk result (λ s. s.text.items ≡ r.report told.blocks.items lines.now) }
    ensures kept { IfOk result (λ s. s.kept.items ≡ told.kept.items) }
{
    let Told { blocks, kept } = told;
    let text = written(alloc, &blocks, lines)?;
    Ok(Said {
        refused,
        blocks,
        text,
        kept,
    })
}

/// What is said of tenants that are refused so or have ended so, where orders have these answers.
pub(crate) fn said_of(
    alloc: Global,
    script: &Script,
    refusals: Vec<Option<Refusal>>,
    ended: Vec<Transit>,
    answers: &[Answer],
) -> Result<Said, AllocError>
    requires limits { IsWithinLimits script.now }
    requires spelt { IsSpelt script.now }
    requires count { length refusals.items ≡ length script.now.tenants }
    requires each { AreTellable refusals.items ended.items }
    requires answers { AreAnswersTo script.now refusals.items ended.items answers.now }
    ensures { IfOk result (λ s. Says script.now refusals.items ended.items answers.now s.refused s.blocks.items s.text.items s.kept.items) }
{
    let lines = replies(alloc, script, &refusals, &ended, answers)?;
    let refused = any_refused(&refusals);
    let told = tell(alloc, script, refusals, ended)?;
    in_words(alloc, refused, told, &lines)
}
