//! The functions of an instance in its design (IEEE 1364-2005, clause 10.4).

ghost use Rattle.std.specs.Prelude.{◌≡◌, map, flat_map, IfOk};
ghost use Rattle.elab_plain.specs.vl_flat.specs.Functions as f;
ghost use Rattle.elab_plain.specs.vl_flat.specs.Ranges.{type_faults as spec_type_faults};
ghost use Rattle.elab_plain.specs.vl_flat.specs.Statements.{statement as spec_statement};
ghost use Rattle.vl_design.specs.Seen.{func_of, stm_of};
ghost use Rattle.elab_plain.specs.SeenStatements.{seen_statement};
ghost use Rattle.vl_design.specs.Stops.{earliest};
ghost use Rattle.elab_plain.specs.SeenItems.{seen_function};
ghost use Rattle.elab_constant.specs.Seen.{look};
ghost use Rattle.elab_instance.specs.Variables.{IsFrame, seen_variable};
ghost use Rattle.vl_elab.specs.Standing.{seen_here};

use crate::here::Here;
use elab_constant::scope::Names;
use elab_expr::statements::statement;
use elab_faults::statements::statement_faults;
use elab_faults::types::type_faults;
use elab_instance::functions::{dotted, input_numbers, local_signals, locals};
use elab_instance::scope::function_scope;
use elab_instance::variables::{Frame, Variable};
use elab_plain::items::Function;
use std::alloc::{AllocError, Global};
use vl_design::Items;
use vl_design::design::{Func, Stmt};
use vl_design::stop::Stop;

/// What a function of an instance does.
fn body(
    alloc: Global,
    here: Here<'_, '_, '_>,
    frame: &Frame<'_>,
    a: &Function,
) -> Result<Stmt, AllocError>
    ensures { IfOk result (λ b. IsFrame frame.now (seen_function a.now) → stm_of b ≡ spec_statement (f.function_scope here.entry.behind (look here.entry.names.now) (seen_function a.now)) (seen_statement a.now.body)) }
{
    let own = locals(alloc, here.names, here.behind, frame)?;
    statement(alloc, &function_scope(here.names, &own), &a.body)
}

/// A function of an instance.
pub fn function(
    alloc: Global,
    here: Here<'_, '_, '_>,
    frame: &Frame<'_>,
    a: &Function,
) -> Result<Func, AllocError>
    ensures { IfOk result (λ b. IsFrame frame.now (seen_function a.now) → func_of b ≡ f.function here.entry.behind (look here.entry.names.now) here.entry.path.now (seen_function a.now)) }
{
    let name = dotted(alloc, here.path, a.name.name.as_slice())?;
    let inputs = input_numbers(alloc, here.behind, frame)?;
    let signals = local_signals(alloc, here.names, name.as_slice(), frame)?;
    let body = body(alloc, here, frame, a)?;
    Ok(Func {
        name,
        place: a.name.place,
        inputs: Items::from_vec(inputs),
        result: here.behind,
        locals: Items::from_vec(signals),
        body,
    })
}

/// The first of those so far and the faults of the types of variables.
#[tactic(auto, using(crate::proofs::Steps::firsts))]
fn variables_faults(
    best: Option<Stop>,
    names: &Names<'_>,
    variables: &[Variable<'_>],
) -> Option<Stop>
    ensures { result ≡ earliest best (flat_map (λ l. spec_type_faults (look names.now) l.type l.name.place) (map seen_variable variables.now)) }
{
    let mut best = best;
    for variable in variables {
        best = type_faults(best, names, variable.kind, variable.name.place);
    }
    best
}

/// The first of those so far and the faults of a function.
pub fn function_faults(
    alloc: Global,
    best: Option<Stop>,
    here: Here<'_, '_, '_>,
    frame: &Frame<'_>,
    a: &Function,
) -> Result<Option<Stop>, AllocError>
    ensures { IfOk result (λ b. IsFrame frame.now (seen_function a.now) → b ≡ earliest best (f.function_faults here.entry.behind (look here.entry.names.now) (seen_function a.now))) }
{
    let own = locals(alloc, here.names, here.behind, frame)?;
    let best = variables_faults(best, here.names, frame.variables.as_slice());
    Ok(statement_faults(best, &function_scope(here.names, &own), &a.body))
}
