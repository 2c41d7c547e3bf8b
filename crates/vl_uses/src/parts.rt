//! The faults at the parts of a source.

ghost use Rattle.std.specs.Prelude.{◌≡◌};
ghost use Rattle.vl_scope.specs.Faults.{earliest, fault_if};
ghost use Rattle.vl_uses.specs.Nodes as n;
ghost use Rattle.vl_uses.specs.declared.setting.Setting.{Setting as At};
ghost use Rattle.vl_uses.specs.UseFaults.{Meanings, node_faults};
ghost use Rattle.vl_uses.specs.Walks.{means};

use crate::calls::{has_z, is_allowed};
use crate::kinds::{
    is_misassigned, is_miscalled, is_misread, is_mistriggered, is_unknown, is_varying,
};
use crate::names::{Names, called_kind, read_kind};
use crate::setting::{Setting, Side, Usage};
use vl_scope::fault::{Fault, earlier};
use vl_tree::Place;
use vl_tree::number::Number;
use vl_tree::tree::{Identifier, Name, SystemCall};

/// Notes a fault of a construct at a place, if it holds.
fn note(best: Option<Fault>, holds: bool, place: Place, construct: u8) -> Option<Fault>
    ensures { result ≡ earliest best (fault_if holds place construct) }
{
    if holds {
        earlier(best, Fault { place, construct })
    } else {
        best
    }
}

/// Notes the fault at a number.
#[tactic(auto, unfolding(crate::specs::UseFaults::node_faults))]
pub fn note_number(place: Place, number: &Number, best: Option<Fault>) -> Option<Fault>
    ensures { (m : Meanings) (k : At) → result ≡ earliest best (node_faults m (n.node k (n.number place number.now))) }
{
    note(best, has_z(number), place, 1)
}

/// Notes the faults at a name that is read.
#[tactic(auto, unfolding(crate::specs::UseFaults::node_faults))]
pub fn note_value(
    names: &Names<'_>,
    setting: Setting,
    name: &Name,
    best: Option<Fault>,
) -> Option<Fault>
    ensures { result ≡ earliest best (node_faults (means names.now) (n.node setting (n.value name.now))) }
{
    let place = name.identifier.place;
    let kind = read_kind(names, name.identifier.name.as_slice());
    let selects = name.selects.as_slice();
    let best = note(best, is_unknown(setting.parameters, kind), place, 2);
    let best = note(best, is_misread(kind, selects), place, 4);
    note(
        best,
        setting.constant && is_varying(kind, selects),
        place,
        8,
    )
}

/// Notes the faults at a name on a left side.
#[tactic(auto, unfolding(crate::specs::UseFaults::node_faults))]
pub fn note_target(
    names: &Names<'_>,
    setting: Setting,
    side: Side,
    name: &Name,
    best: Option<Fault>,
) -> Option<Fault>
    ensures { result ≡ earliest best (node_faults (means names.now) (n.node setting (n.target side name.now))) }
{
    let place = name.identifier.place;
    let kind = read_kind(names, name.identifier.name.as_slice());
    let best = note(best, is_unknown(setting.parameters, kind), place, 2);
    note(
        best,
        is_misassigned(side, kind, name.selects.as_slice()),
        place,
        4,
    )
}

/// Notes the faults at a name in a trigger.
#[tactic(auto, unfolding(crate::specs::UseFaults::node_faults))]
pub fn note_event(
    names: &Names<'_>,
    setting: Setting,
    name: &Identifier,
    best: Option<Fault>,
) -> Option<Fault>
    ensures { result ≡ earliest best (node_faults (means names.now) (n.node setting (n.event name.now))) }
{
    let kind = read_kind(names, name.name.as_slice());
    let best = note(best, is_unknown(setting.parameters, kind), name.place, 2);
    note(best, is_mistriggered(kind), name.place, 4)
}

/// Notes the faults at a call of a function.
#[tactic(auto, unfolding(crate::specs::UseFaults::node_faults))]
pub fn note_call(
    names: &Names<'_>,
    setting: Setting,
    name: &Identifier,
    arguments: usize,
    best: Option<Fault>,
) -> Option<Fault>
    ensures { result ≡ earliest best (node_faults (means names.now) (n.node setting (n.call name.now arguments))) }
{
    let kind = called_kind(names, name.name.as_slice());
    let best = note(best, is_unknown(setting.parameters, kind), name.place, 2);
    let best = note(best, is_miscalled(arguments, kind), name.place, 4);
    note(best, setting.constant, name.place, 8)
}

/// Notes the fault at a concatenation or a replication.
#[tactic(auto, unfolding(crate::specs::UseFaults::node_faults))]
pub fn note_group(setting: Setting, place: Place, best: Option<Fault>) -> Option<Fault>
    ensures { (m : Meanings) → result ≡ earliest best (node_faults m (n.node setting (n.group place))) }
{
    note(best, setting.constant, place, 8)
}

/// Notes the faults at a call of a system task or function.
#[tactic(auto, unfolding(crate::specs::UseFaults::node_faults))]
pub fn note_system(
    names: &Names<'_>,
    setting: Setting,
    usage: Usage,
    call: &SystemCall,
    best: Option<Fault>,
) -> Option<Fault>
    ensures { result ≡ earliest best (node_faults (means names.now) (n.node setting (n.system usage call.now))) }
{
    let best = note(best, setting.constant, call.place, 8);
    let allowed = is_allowed(names, setting.timed, usage, call);
    note(best, !allowed, call.place, 9)
}
