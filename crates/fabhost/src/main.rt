//! The program: it runs the host over the real files and the real output.
//!
//! Proved: safe, and ends.
//!
//! Tested: that `main` joins `host` to the real files and output, in a thread with a stack of 1 GiB of addresses: its stored run; that this
//! is enough for the deepest sources: `tools/too_deep.py`.
#![tactic(auto)]

use host_run::bays::Bays;
use host_run::dir_store::DirStore;
use host_run::gate::NoGate;
use host_run::host::host;
use host_run::std_sink::StdSink;
use std::alloc::{AllocError, Global};
use std::fs::Files;
use std::io::ErrorKind;
use std::process::ExitCode;
use std::sync::Wait;
use std::thread::{Builder, Threads};
use std::{env, thread};

/// How many bytes of stack the host has: calls of functions nest as deep as a source has functions, some 14,000 at most, and each
/// level of them takes some. Pages that aren't touched take no memory.
const STACK: usize = 0x4000_0000;

/// The words of the command line; none where one of them is no text. An `Err` is want of memory.
fn words(rt: &HostRuntime) -> Result<Vec<String>, AllocError> {
    let mut words = Vec::new(rt.alloc());
    match env::args(rt) {
        Ok(arguments) => {
            for word in arguments.skip(1) {
                words.push(word)?;
            }
        }
        Err(error) if matches!(error.kind(), ErrorKind::OutOfMemory) => return Err(AllocError),
        Err(_) => {}
    }
    Ok(words)
}

/// Runs the host over the real files and the real output; its status.
fn run<R: Files + Print + Threads + Wait + Sync>(rt: &R, alloc: Global, words: &[String]) -> u8 {
    let mut store = DirStore::new(rt);
    let mut sink = StdSink::new(rt);
    let mut bays = Bays::new(alloc);
    host(rt, alloc, words, &mut store, &mut sink, &NoGate, &mut bays)
}

fn main(rt: HostRuntime) -> ExitCode {
    let Ok(words) = words(&rt) else {
        return ExitCode::from(7);
    };
    let status = thread::scope(thread::scope_env(), &rt, |scope| {
        let deep = Builder::new().stack_size(STACK);
        match deep.spawn_scoped(scope, || run(&rt, rt.alloc(), words.as_slice())) {
            Ok(host) => host.join(&rt),
            Err(_) => 7,
        }
    });
    ExitCode::from(status)
}
