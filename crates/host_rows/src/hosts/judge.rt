//! What the host answers to a row.

use crate::hosts::counting::is_counted;
use crate::hosts::gates::RowGate;
use crate::hosts::lines::{are_wanted, has_unwanted};
use crate::hosts::row::Row;
use host_run::bays::Bays;
use host_run::gate::{Gate, NoGate};
use host_run::host::host;
use host_run::mem_sink::MemSink;
use host_run::mem_store::MemStore;
use host_run::steady::host_in_memory;
use host_run::steady_sink::SteadySink;
use host_run::steady_store::SteadyStore;
use std::alloc::{AllocError, Global};
use std::sync::Wait;
use std::thread::Threads;
use std::time::Clock;

/// The words of a line: a blank stands between two. None where the line is `()`.
fn words_of(alloc: Global, line: &str) -> Result<Vec<String>, AllocError> {
    let mut words = Vec::new(alloc);
    if line == "()" {
        return Ok(words);
    }
    for word in line.split(' ') {
        words.push(String::from_str(alloc, word)?)?;
    }
    Ok(words)
}

/// A store with a row's files.
fn store_of(alloc: Global, row: &Row) -> Result<MemStore, AllocError> {
    let mut store = MemStore::new(alloc);
    for file in &row.files {
        store.add(file.path.as_str(), file.bytes.as_slice())?;
    }
    store.fail_call(row.failing_read)?;
    Ok(store)
}

/// The bytes of a file in hexadecimal; `-` where there is no such file.
fn digits_of(alloc: Global, bytes: Option<&[u8]>) -> Result<String, AllocError> {
    let Some(bytes) = bytes else {
        return String::from_str(alloc, "-");
    };
    let mut digits = String::new(alloc);
    for byte in bytes {
        let shown = format!(in alloc; "{byte:02x}")?;
        digits.push_str(shown.as_str())?;
    }
    Ok(digits)
}

/// Whether a file is the wanted one, where `*` stands for any bytes.
fn is_file(wanted: &[u8], digits: &[u8]) -> bool {
    wanted == digits || wanted == b"*".as_slice() && digits != b"-".as_slice()
}

/// Adds a line of the wanted files that the store has otherwise.
fn other_files(alloc: Global, row: &Row, store: &MemStore) -> Result<String, AllocError> {
    let mut text = String::new(alloc);
    for file in &row.saved {
        let path = file.path.as_str();
        let digits = digits_of(alloc, store.get(path))?;
        if !is_file(file.bytes.as_slice(), digits.as_bytes()) {
            let shown = format!(in alloc; "file {path} {digits}\n")?;
            text.push_str(shown.as_str())?;
        }
    }
    Ok(text)
}

/// The host's status at a row's words, over files and a sink, at a gate.
fn status_at<R: Threads + Wait + Sync, G: Gate + Sync>(
    rt: &R,
    alloc: Global,
    row: &Row,
    gate: &G,
    store: &mut MemStore,
    sink: &mut MemSink,
) -> Result<u8, AllocError> {
    let words = words_of(alloc, row.words.as_str())?;
    let mut bays = Bays::new(alloc);
    Ok(host(rt, alloc, words.as_slice(), store, sink, gate, &mut bays))
}

/// The host's status at a row, and how many were held too long at its gate.
fn status_of<R: Threads + Wait + Clock + Sync>(
    rt: &R,
    alloc: Global,
    row: &Row,
    store: &mut MemStore,
    sink: &mut MemSink,
) -> Result<(u8, u64), AllocError> {
    if row.holds.is_empty() {
        let status = status_at(rt, alloc, row, &NoGate, store, sink)?;
        return Ok((status, 0));
    }
    let gate = RowGate::new(rt, row.holds.as_slice());
    let status = status_at(rt, alloc, row, &gate, store, sink)?;
    Ok((status, gate.failures()))
}

/// A line of how many were held too long, if any were.
fn held(alloc: Global, count: u64) -> Result<String, AllocError> {
    if count == 0 {
        return Ok(String::new(alloc));
    }
    format!(in alloc; "held {count}\n")
}

/// The status in a line and what the host prints, over a store and a sink that never fail.
fn steady_answer<R: Threads + Wait + Sync>(
    rt: &R,
    alloc: Global,
    row: &Row,
) -> Result<String, AllocError> {
    let words = words_of(alloc, row.words.as_str())?;
    let mut store = SteadyStore::new(alloc);
    for file in &row.files {
        store.add(file.path.as_str(), file.bytes.as_slice())?;
    }
    let mut sink = SteadySink::new(alloc);
    let mut bays = Bays::new(alloc);
    let status = host_in_memory(
        rt,
        alloc,
        words.as_slice(),
        &mut store,
        &mut sink,
        &NoGate,
        &mut bays,
    );
    let text = String::from_utf8_lossy(alloc, sink.taken())?;
    format!(in alloc; "status {status}\n{text}")
}

/// The status in a line, what the host prints, a line of each file that is wanted otherwise, and a line of how many were held too long.
fn answer<R: Threads + Wait + Clock + Sync>(
    rt: &R,
    alloc: Global,
    row: &Row,
) -> Result<String, AllocError> {
    if row.is_plain() {
        return steady_answer(rt, alloc, row);
    }
    let mut store = store_of(alloc, row)?;
    let mut sink = MemSink::new(alloc, row.piece.max(1));
    sink.fail_call(row.failing_write)?;
    let (status, count) = status_of(rt, alloc, row, &mut store, &mut sink)?;
    let text = String::from_utf8_lossy(alloc, sink.taken())?;
    let others = other_files(alloc, row, &store)?;
    let held = held(alloc, count)?;
    format!(in alloc; "status {status}\n{text}{others}{held}")
}

/// Whether an answer is what a row wants: its lines, none that it doesn't want, and the counter's where a tenant is to have run that.
fn is_right(alloc: Global, row: &Row, answer: &str) -> Result<bool, AllocError> {
    if !are_wanted(alloc, row.wanted.as_str(), answer)?
        || has_unwanted(row.unwanted.as_str(), answer)
    {
        return Ok(false);
    }
    is_counted(alloc, row.counted.as_str(), answer)
}

/// `ok` where the answer is the wanted one, else both.
pub fn compared<R: Threads + Wait + Clock + Sync>(
    rt: &R,
    alloc: Global,
    row: &Row,
) -> Result<String, AllocError> {
    let answer = answer(rt, alloc, row)?;
    let (wanted, unwanted, words) = (
        row.wanted.as_str(),
        row.unwanted.as_str(),
        row.words.as_str(),
    );
    if is_right(alloc, row, answer.as_str())? {
        return String::from_str(alloc, "ok");
    }
    format!(in alloc; "{wanted}is wanted,\n{unwanted}is not,\n{answer}came: {words}")
}
