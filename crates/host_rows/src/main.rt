//! The test program of the whole host: it reads rows of words and files, and prints `ok` where what `host` answers is what is wanted, else
//! both.
//!
//! How rows are written stands at `hosts.rt`.
//!
//! Proved: safe, and ends.
//!
//! Tested: 1,063 rows of words, files and failing calls with what `host` answers to each worked by hand: sources of one tenant
//! (`tools/host_rows.txt`, `tools/run_rows.txt`; for expressions of mixed widths and signs `tools/width_rows.txt`, and for values at the
//! ends of 9 widths by the items of a format, computed by Python's whole numbers), scripts of several tenants that share fabrics, move,
//! save, resume and are refused, free orders that gates hold between turns of workers, and sources that are checked
//! (`tools/host_scripts.txt`); a source cut behind each of its bytes, each call of the store and of the sink failing in turn, three tenants on
//! full fabrics, and the demonstration at its largest, against Python's summary (`tools/host_rows.py`); and by `tools/try_random.py`, outside
//! the gate, random scripts of a seeded generator in two runs, on one processor, without threads, and each tenant by itself.
#![tactic(auto)]

mod hosts;

use hosts::row::Row;
use hosts::{read, shown};
use std::io;

fn main(rt: HostRuntime) -> io::Result<()> {
    let alloc = rt.alloc();
    let mut row = Box::new(alloc, Row::new(alloc, "")?)?;
    for line in rt.lines(alloc) {
        let text = read(&rt, alloc, &mut row, line?.as_str())?;
        if !text.is_empty() {
            print!(rt; "{text}")?;
        }
    }
    let text = shown(&rt, alloc, &row)?;
    print!(rt; "{text}")
}
