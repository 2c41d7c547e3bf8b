//! Signals of an instance (IEEE 1364-2005, clauses 4.2, 4.3 and 4.9).

ghost use Rattle.std.specs.Prelude.{◌≡◌, map, fold, IfOk};
ghost use Rattle.elab_plain.specs.vl_flat.specs.Environments as e;
ghost use Rattle.elab_plain.specs.SeenItems.{seen_declared, seen_type};
ghost use Rattle.elab_constant.specs.Seen.{look};
ghost use Rattle.elab_kinds.specs.Facts.{facts_of};
ghost use Rattle.elab_instance.specs.Known as spec;

use crate::given::{Above, is_clock, is_wired};
use crate::scope::is_known;
use elab_constant::ranges::{has_range, is_signed, optional_bounds, type_range};
use elab_constant::scope::{Known, Names, bind, module_scope};
use elab_kinds::counts::{Counts, sum};
use elab_kinds::roles::{Roles, kind_of};
use elab_plain::binding::Shape;
use elab_plain::design::SigKind;
use elab_plain::items::{DataType, Declared};
use std::alloc::AllocError;

/// What a declaration declares.
fn shape(names: &Names<'_>, signal: SigKind, kind: &DataType, declared: &Declared) -> Shape
    ensures { result ≡ e.shape (look names.now) signal (seen_declared (seen_type kind.now) declared.now) }
{
    let scope = module_scope(names);
    let range = type_range(&scope, kind);
    let words = optional_bounds(&scope, &declared.words);
    Shape {
        kind: signal,
        signed: is_signed(kind),
        ranged: has_range(kind),
        left: range.left,
        right: range.right,
        first: words.left,
        last: words.right,
    }
}

/// The kind of a name.
fn signal_kind(roles: &Roles<'_>, above: &Above<'_, '_, '_, '_>, name: &[u8]) -> SigKind
    ensures { result ≡ spec.kinds_by (facts_of roles.now) above.now name.now }
{
    let clock = is_clock(roles, above, name);
    let wired = is_wired(roles, above, name);
    kind_of(roles, clock, wired, name)
}

/// One signal.
fn one_signal() -> Counts
    ensures { spec.counts_of result ≡ spec.one_signal }
{
    Counts {
        signals: 1,
        functions: 0,
    }
}

/// Adds a signal, where its name isn't known yet. The numbers behind it.
fn add_signal<'m>(
    names: &mut Names<'m>,
    next: Counts,
    roles: &Roles<'_>,
    above: &Above<'_, '_, '_, 'm>,
    kind: &DataType,
    declared: &'m Declared,
) -> Result<Counts, AllocError>
    ensures { IfOk result (λ after. spec.known names.new after ≡ spec.with_signal (spec.kinds_by (facts_of roles.now) above.now) (spec.known names.old next) (seen_declared (seen_type kind.now) declared.entry.now)) }
{
    let name = declared.name.name.as_slice();
    if is_known(names, name) {
        return Ok(next);
    }
    let shape = shape(names, signal_kind(roles, above, name), kind, declared);
    bind(names, name, Known::Signal(next.signals, shape))?;
    Ok(sum(next, one_signal())?)
}

/// Adds signals of one type. The numbers behind them.
pub fn add_signals<'m>(
    names: &mut Names<'m>,
    next: Counts,
    roles: &Roles<'_>,
    above: &Above<'_, '_, '_, 'm>,
    kind: &DataType,
    declared: &'m [Declared],
) -> Result<Counts, AllocError>
    ensures { IfOk result (λ after. spec.known names.new after ≡ fold (spec.with_signal (spec.kinds_by (facts_of roles.now) above.now)) (spec.known names.old next) (map (seen_declared (seen_type kind.now)) declared.entry.now)) }
{
    let mut next = next;
    for one in declared {
        next = add_signal(names, next, roles, above, kind, one)?;
    }
    Ok(next)
}
