//! The statements of a script.

ghost use Rattle.std.specs.Prelude.{◌≡◌, map, option_map};
ghost use Rattle.host_text.specs.Statements as s;
ghost use Rattle.host_text.specs.Seen.{seen, seen_order, seen_answer, seen_said};

use crate::classes::{is_name, is_path, is_save_name, number};

/// What a fabric has room for.
#[derive(Clone, Copy, Debug, PartialEq, Eq)]
pub struct Capacity {
    /// Register bits.
    pub registers: u64,
    /// Cells.
    pub cells: u64,
    /// Memory bits.
    pub memory: u64,
}

/// What a tenant is to do.
#[derive(Clone, Copy)]
pub enum Order<'a> {
    /// To move to the fabric of this name.
    Move(&'a [u8]),
    /// To make a snapshot of this name.
    Save(&'a [u8]),
    /// To stop.
    Stop,
}

/// A statement of a script.
#[derive(Clone, Copy)]
pub enum Statement<'a> {
    /// A fabric: its name and its capacity.
    Fabric(&'a [u8], Capacity),
    /// A tenant: its name, the path of its source, the name of its fabric, and its budget in ticks.
    Tenant(&'a [u8], &'a [u8], &'a [u8], u64),
    /// A file of a tenant: the tenant, the file's name in the source, and its path.
    File(&'a [u8], &'a [u8], &'a [u8]),
    /// The snapshot from which a tenant starts: the tenant, and the snapshot's path.
    Resume(&'a [u8], &'a [u8]),
    /// What a tenant is to do at a tick.
    At(&'a [u8], u64, Order<'a>),
    /// What a tenant is to do when the operator comes to it.
    Free(&'a [u8], Order<'a>),
    /// The operator looks how far a tenant is.
    Watch(&'a [u8]),
}

/// A statement of right words, or the cause: 2 where a name or a path is bad, else 3 where a number is.
fn checked(names: bool, statement: Option<Statement<'_>>) -> Result<Statement<'_>, u8>
    ensures { seen_answer result ≡ s.checked names (option_map seen statement.entry) }
{
    if !names {
        return Err(2);
    }
    match statement {
        Some(statement) => Ok(statement),
        None => Err(3),
    }
}

/// A capacity in words.
fn read_capacity(registers: &[u8], cells: &[u8], memory: &[u8]) -> Option<Capacity>
    ensures { result ≡ s.capacity registers.now cells.now memory.now }
{
    let registers = number(registers)?;
    let cells = number(cells)?;
    let memory = number(memory)?;
    Some(Capacity {
        registers,
        cells,
        memory,
    })
}

/// The words of `fabric`.
fn fabric<'a>(words: &[&'a [u8]]) -> Result<Statement<'a>, u8>
    ensures { seen_answer result ≡ s.fabric (map (λ w. w.now) words.now) }
{
    let [name, registers, cells, memory] = words else {
        return Err(1);
    };
    let said = match read_capacity(registers, cells, memory) {
        Some(capacity) => Some(Statement::Fabric(*name, capacity)),
        None => None,
    };
    checked(is_name(name), said)
}

/// The words of `tenant`.
fn tenant<'a>(words: &[&'a [u8]]) -> Result<Statement<'a>, u8>
    ensures { seen_answer result ≡ s.tenant (map (λ w. w.now) words.now) }
{
    let [name, source, fabric, ticks] = words else {
        return Err(1);
    };
    let said = match number(ticks) {
        Some(ticks) => Some(Statement::Tenant(*name, *source, *fabric, ticks)),
        None => None,
    };
    checked(is_name(name) && is_path(source) && is_name(fabric), said)
}

/// The words of `file`.
fn file<'a>(words: &[&'a [u8]]) -> Result<Statement<'a>, u8>
    ensures { seen_answer result ≡ s.file (map (λ w. w.now) words.now) }
{
    let [tenant, name, path] = words else {
        return Err(1);
    };
    checked(
        is_name(tenant) && is_path(name) && is_path(path),
        Some(Statement::File(*tenant, *name, *path)),
    )
}

/// The words of `resume`.
fn resume<'a>(words: &[&'a [u8]]) -> Result<Statement<'a>, u8>
    ensures { seen_answer result ≡ s.resume (map (λ w. w.now) words.now) }
{
    let [tenant, path] = words else {
        return Err(1);
    };
    checked(
        is_name(tenant) && is_path(path),
        Some(Statement::Resume(*tenant, *path)),
    )
}

/// The order that a verb and the words behind it say, and whether its name is right.
fn read_order<'a>(verb: &[u8], words: &[&'a [u8]]) -> Option<(bool, Order<'a>)>
    ensures { option_map seen_order result ≡ s.order verb.now (map (λ w. w.now) words.now) }
{
    match words {
        [] => {
            if verb == b"stop".as_slice() {
                Some((true, Order::Stop))
            } else {
                None
            }
        }
        [name] => {
            if verb == b"move".as_slice() {
                Some((is_name(name), Order::Move(*name)))
            } else if verb == b"save".as_slice() {
                Some((is_save_name(name), Order::Save(*name)))
            } else {
                None
            }
        }
        _ => None,
    }
}

/// The words of `at`.
fn at<'a>(words: &[&'a [u8]]) -> Result<Statement<'a>, u8>
    ensures { seen_answer result ≡ s.at (map (λ w. w.now) words.now) }
{
    let [tenant, tick, verb, words @ ..] = words else {
        return Err(1);
    };
    let Some((right, order)) = read_order(verb, words) else {
        return Err(1);
    };
    let said = match number(tick) {
        Some(tick) => Some(Statement::At(*tenant, tick, order)),
        None => None,
    };
    checked(is_name(tenant) && right, said)
}

/// The words of `free watch` behind the tenant's name.
fn watch<'a>(tenant: &'a [u8], words: &[&'a [u8]]) -> Result<Statement<'a>, u8>
    ensures { seen_answer result ≡ s.watch tenant.entry.now (map (λ w. w.now) words.now) }
{
    if !words.is_empty() {
        return Err(1);
    }
    checked(is_name(tenant), Some(Statement::Watch(tenant)))
}

/// The words of `free`.
fn free<'a>(words: &[&'a [u8]]) -> Result<Statement<'a>, u8>
    ensures { seen_answer result ≡ s.free (map (λ w. w.now) words.now) }
{
    let [verb, tenant, words @ ..] = words else {
        return Err(1);
    };
    if *verb == b"watch".as_slice() {
        return watch(*tenant, words);
    }
    let Some((right, order)) = read_order(verb, words) else {
        return Err(1);
    };
    checked(
        is_name(tenant) && right,
        Some(Statement::Free(*tenant, order)),
    )
}

/// The statement that a word and the words behind it say, or the least of the causes 1, 2 and 3.
fn read_statement<'a>(word: &[u8], words: &[&'a [u8]]) -> Result<Statement<'a>, u8>
    ensures { seen_answer result ≡ s.statement word.now (map (λ w. w.now) words.now) }
{
    if word == b"at".as_slice() {
        at(words)
    } else if word == b"file".as_slice() {
        file(words)
    } else if word == b"free".as_slice() {
        free(words)
    } else if word == b"tenant".as_slice() {
        tenant(words)
    } else if word == b"fabric".as_slice() {
        fabric(words)
    } else if word == b"resume".as_slice() {
        resume(words)
    } else {
        Err(1)
    }
}

/// What some words say: nothing where there are none.
pub(crate) fn said<'a>(words: &[&'a [u8]]) -> Result<Option<Statement<'a>>, u8>
    ensures { seen_said result ≡ s.said (map (λ w. w.now) words.now) }
{
    match words {
        [] => Ok(None),
        [word, words @ ..] => match read_statement(word, words) {
            Ok(statement) => Ok(Some(statement)),
            Err(cause) => Err(cause),
        },
    }
}
