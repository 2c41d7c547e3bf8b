//! How many signals and functions an instance of a module has, with what is in it (IEEE 1364-2005, clause 12).

ghost use Rattle.std.specs.Prelude.{◌≡◌, ◌≤◌, ◌↔◌, ℕ, List, map, length, IfOk, IsTrue};
ghost use Rattle.elab_plain.specs.vl_flat.specs.Items as x;
ghost use Rattle.elab_plain.specs.vl_flat.specs.Environments as e;
ghost use Rattle.elab_plain.specs.SeenItems.{seen_instances, seen_item, seen_module};
ghost use Rattle.elab_kinds.specs.Sized as spec;
ghost use Rattle.elab_kinds.specs.Places.{place_of, place_named};

use crate::counts::{Counts, exactly, no_more, plus, times};
use crate::index::{Index, index_of, module_at};
use crate::own::{own_count, own_counts};
use elab_plain::items::{Instances, Item, Module};
use std::alloc::{AllocError, Global};

/// The most signals, and the most functions, that are numbered.
const MOST_NUMBERED: u32 = 1073741824;

/// The sizes of modules by depth.
#[derive(Drop)]
pub struct Sizes<'m> {
    /// The places of the modules.
    pub index: Index<'m>,
    /// The sizes of the modules in order, for each depth from 1 on; the last are those of each deeper level.
    pub rounds: Vec<Vec<Counts>>,
}

/// The counts at a place; none past the end.
fn counts_at(round: &[Counts], place: usize) -> Counts
    ensures { spec.counts_of result ≡ spec.counts_at round.now place }
{
    match round.get(place) {
        None => no_more(),
        Some(counts) => *counts,
    }
}

/// What a round tells of a name.
fn told(index: &Index<'_>, round: &[Counts], name: &[u8]) -> Counts
    ensures { spec.counts_of result ≡ spec.told index.now round.now name.now }
{
    match module_at(index, name) {
        None => no_more(),
        Some(place) => counts_at(round, place),
    }
}

/// What is kept of the counts of instances.
fn instances_counts(index: &Index<'_>, round: &[Counts], us: &Instances) -> Counts
    ensures { spec.counts_of result ≡ spec.kept (e.times (length us.now.units.items) (spec.told index.now round.now us.now.definition)) }
{
    let one = told(index, round, us.definition.as_slice());
    times(us.units.len(), one)
}

/// What is kept of the counts of an item beside signals of its own.
fn item_counts(index: &Index<'_>, round: &[Counts], item: &Item) -> Counts
    ensures { spec.counts_of result ≡ spec.kept (e.item_counts (spec.told index.now round.now) (seen_item item.now)) }
{
    match item {
        Item::Functions(_) => Counts {
            signals: 0,
            functions: 1,
        },
        Item::Instantiates(us) => instances_counts(index, round, us),
        _ => no_more(),
    }
}

/// What is kept of the counts of items, behind these.
fn items_counts(index: &Index<'_>, round: &[Counts], first: Counts, items: &[Item]) -> Counts
    ensures { spec.counts_of result ≡ spec.kept (spec.items_counts (spec.told index.now round.now) (spec.counts_of first) (map seen_item items.now)) }
{
    let mut all = first;
    for item in items {
        all = plus(all, item_counts(index, round, item));
    }
    all
}

/// What is kept of the counts of a module that declares so many signals.
fn module_counts(index: &Index<'_>, round: &[Counts], own: u32, m: &Module) -> Counts
    ensures { own ≡ spec.own_signals (seen_module m.now) → spec.counts_of result ≡ spec.kept (e.module_counts (spec.told index.now round.now) (seen_module m.now)) }
{
    let first = Counts {
        signals: own,
        functions: 0,
    };
    items_counts(index, round, first, m.items.as_slice())
}

/// The round behind a round.
fn next_round(
    alloc: Global,
    index: &Index<'_>,
    modules: &[Module],
    owns: &[u32],
    round: &[Counts],
) -> Result<Vec<Counts>, AllocError>
    requires { owns.now ≡ map spec.own_signals (map seen_module modules.now) }
    ensures { IfOk result (λ v. map spec.counts_of v.items ≡ spec.next_counts index.now (map seen_module modules.now) round.now) }
{
    let mut all = Vec::new(alloc);
    for i in 0..modules.len() {
        all.push(module_counts(index, round, owns[i], &modules[i]))?;
    }
    Ok(all)
}

/// Two counts are the same.
fn is_same(a: Counts, b: Counts) -> bool
    ensures { IsTrue result ↔ (a ≡ b) }
{
    a.signals == b.signals && a.functions == b.functions
}

/// Two rounds are the same.
fn are_same(a: &[Counts], b: &[Counts]) -> bool
    ensures { IsTrue result → a.now ≡ b.now }
{
    if a.len() != b.len() {
        return false;
    }
    for i in 0..a.len() {
        if !is_same(a[i], b[i]) {
            return false;
        }
    }
    true
}

/// The last of some rounds.
fn last_round(rounds: &[Vec<Counts>]) -> &[Counts]
    ensures { result.now ≡ spec.round_at rounds.entry.now (length rounds.entry.now) }
{
    if rounds.len() == 0 {
        return &[];
    }
    rounds[rounds.len() - 1].as_slice()
}

/// Adds the next round, unless it is the last again. Whether it did.
fn add_round(
    alloc: Global,
    index: &Index<'_>,
    modules: &[Module],
    owns: &[u32],
    rounds: &mut Vec<Vec<Counts>>,
) -> Result<bool, AllocError>
    requires { owns.now ≡ map spec.own_signals (map seen_module modules.now) }
    ensures { IfOk result (λ grew. spec.Grows index.now (map seen_module modules.now) rounds.old.items rounds.new.items grew) }
{
    let next = next_round(alloc, index, modules, owns, last_round(rounds.as_slice()))?;
    if are_same(next.as_slice(), last_round(rounds.as_slice())) {
        return Ok(false);
    }
    rounds.push(next)?;
    Ok(true)
}

/// The rounds up to the deepest level, or up to where they stay as they are.
fn rounds(
    alloc: Global,
    index: &Index<'_>,
    modules: &[Module],
    owns: &[u32],
) -> Result<Vec<Vec<Counts>>, AllocError>
    requires places { place_of index.now ≡ place_named (map seen_module modules.now) }
    requires owns { owns.now ≡ map spec.own_signals (map seen_module modules.now) }
    ensures { IfOk result (λ v. (n : ℕ) → n ≤ 129 → spec.told index.now (spec.round_at v.items n) ≡ spec.kept_size n (map seen_module modules.now)) }
{
    let mut rounds = Vec::new(alloc);
    for _depth in 0..129usize {
        if !add_round(alloc, index, modules, owns, &mut rounds)? {
            return Ok(rounds);
        }
    }
    Ok(rounds)
}

/// The rounds by an index of the modules.
fn rounds_by(
    alloc: Global,
    index: &Index<'_>,
    modules: &[Module],
) -> Result<Vec<Vec<Counts>>, AllocError>
    requires { place_of index.now ≡ place_named (map seen_module modules.now) }
    ensures { IfOk result (λ v. (n : ℕ) → n ≤ 129 → spec.told index.now (spec.round_at v.items n) ≡ spec.kept_size n (map seen_module modules.now)) }
{
    let owns = own_counts(alloc, modules)?;
    rounds(alloc, index, modules, owns.as_slice())
}

/// The sizes of modules, up to the deepest level.
pub fn sizes_of(alloc: Global, modules: &[Module]) -> Result<Sizes<'_>, AllocError>
    ensures { IfOk result (λ s. spec.IsSizes s (map seen_module modules.entry.now)) }
{
    let index = index_of(alloc, modules)?;
    let rounds = rounds_by(alloc, &index, modules)?;
    Ok(Sizes { index, rounds })
}

/// Tables by which no module has any signal or function.
pub fn no_sizes(alloc: Global, modules: &[Module]) -> Result<Sizes<'_>, AllocError>
    ensures { IfOk result (λ s. spec.Tells s (λ n t. e.no_more)) }
{
    let index = index_of(alloc, modules)?;
    let rounds = Vec::new(alloc);
    Ok(Sizes { index, rounds })
}

/// The round for a depth.
fn round_at(rounds: &[Vec<Counts>], depth: u8) -> &[Counts]
    ensures { result.now ≡ spec.round_at rounds.entry.now depth }
{
    if depth == 0 {
        return &[];
    }
    if rounds.len() == 0 {
        return &[];
    }
    let place = (depth as usize - 1).min(rounds.len() - 1);
    rounds[place].as_slice()
}

/// What is kept of the size of a module of this name at a depth.
fn kept_size_at(sizes: &Sizes<'_>, depth: u8, name: &[u8]) -> Counts
    ensures { spec.counts_of result ≡ spec.size_of sizes.now depth name.now }
{
    told(&sizes.index, round_at(sizes.rounds.as_slice(), depth), name)
}

/// The size of a module of this name at a depth; want of memory from 2^32 - 1 on.
pub fn size_at(sizes: &Sizes<'_>, depth: u8, name: &[u8]) -> Result<Counts, AllocError>
    ensures { IfOk result (λ c. (told : ℕ → List ℕ → e.Counts) → spec.Tells sizes.now told → depth ≤ 129 → spec.counts_of c ≡ told depth name.now) }
{
    Ok(exactly(kept_size_at(sizes, depth, name))?)
}

/// How many signals and functions instances have at a depth; want of memory from 2^32 - 1 on.
pub fn instances_size(
    sizes: &Sizes<'_>,
    depth: u8,
    instances: &Instances,
) -> Result<Counts, AllocError>
    ensures table { IfOk result (λ c. spec.counts_of c ≡ e.item_counts (spec.size_of sizes.now depth) (x.Instantiates (seen_instances instances.now))) }
    ensures modules { IfOk result (λ c. (told : ℕ → List ℕ → e.Counts) → spec.Tells sizes.now told → depth ≤ 129 → spec.counts_of c ≡ e.item_counts (told depth) (x.Instantiates (seen_instances instances.now))) }
{
    let round = round_at(sizes.rounds.as_slice(), depth);
    Ok(exactly(instances_counts(&sizes.index, round, instances))?)
}

/// What is kept of how many signals and functions a module has with what is in it, where instances stand so deep in one another.
fn kept_module_size(
    alloc: Global,
    sizes: &Sizes<'_>,
    depth: u8,
    m: &Module,
) -> Result<Counts, AllocError>
    ensures { IfOk result (λ c. (told : ℕ → List ℕ → e.Counts) → spec.Tells sizes.now told → depth ≤ 129 → spec.counts_of c ≡ spec.kept (e.module_counts (told depth) (seen_module m.now))) }
{
    let own = own_count(alloc, m)?;
    let round = round_at(sizes.rounds.as_slice(), depth);
    Ok(module_counts(&sizes.index, round, own, m))
}

/// How many signals and functions a module has with what is in it, where instances stand so deep in one another; want of
/// memory from 2^32 - 1 on.
pub fn module_size(
    alloc: Global,
    sizes: &Sizes<'_>,
    depth: u8,
    m: &Module,
) -> Result<Counts, AllocError>
    ensures { IfOk result (λ c. (told : ℕ → List ℕ → e.Counts) → spec.Tells sizes.now told → depth ≤ 129 → spec.counts_of c ≡ e.module_counts (told depth) (seen_module m.now)) }
{
    let all = kept_module_size(alloc, sizes, depth, m)?;
    Ok(exactly(all)?)
}

/// There are so many that they aren't numbered.
fn are_many(all: Counts) -> bool
    ensures { result ≡ spec.are_vast (spec.counts_of all) }
{
    all.signals > MOST_NUMBERED || all.functions > MOST_NUMBERED
}

/// A module has so many signals or functions with what is in it that they aren't numbered.
pub fn is_vast(alloc: Global, sizes: &Sizes<'_>, depth: u8, m: &Module) -> Result<bool, AllocError>
    ensures { IfOk result (λ r. (told : ℕ → List ℕ → e.Counts) → spec.Tells sizes.now told → depth ≤ 129 → r ≡ spec.are_vast (e.module_counts (told depth) (seen_module m.now))) }
{
    let all = kept_module_size(alloc, sizes, depth, m)?;
    Ok(are_many(all))
}
