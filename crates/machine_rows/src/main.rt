//! The test program of cells, states and fabrics: it reads rows in three sections, and prints `ok` where what comes is what is wanted, else
//! both.
//!
//! A section begins with a line `### cells`, `### splits` or `### fabrics`; how its rows are written stands at the module that reads them.
//!
//! Proved: safe, and ends.
//!
//! Tested: `cells`: 580 rows of a source with combinational blocks, what its registers hold, and a signal's value after one cycle of its
//! cells: 90 worked by hand (`tools/cell_rows.txt`), 490 of mixed widths and signs by Python's whole numbers.
//!
//! Tested: `splits` (`tools/split_rows.txt`): 21 sources with the table of nodes of each worked by hand, 7 with the states (their numbers,
//! the registers and memories that each sets, its trap and the states that it leads to), and 116 with the parcels at the end of their runs:
//! why they ended, the ticks, the acts, the bytes, and the bytes of the snapshots that they keep, or the fault of the snapshot from which
//! they were to be resumed; 23 of these runs are also saved at each of their first ten ticks, in the middle and before the last, written,
//! read and resumed, 90 times together, which has to come to the same each time (11 with memories, 4 with files, 6 with falling edges); how
//! often that is, each row says.
//!
//! Tested: `fabrics` (`tools/fabric_rows.txt`): 36 rows of orders to the core of a fabric, to a desk or to a joined bank: 23 with what each
//! comes to at a core, worked by hand (arrivals and refusals by cost and by number, cycles, calls and snapshots served, moves, stops, ends,
//! the order of the line, tenants taken), and 5 with three or six tenants among which one event follows another as a number chooses, until
//! all have ended, each of which has to end with the ticks, the acts and the bytes of its run alone; 5 with what each comes to at a desk,
//! its history included, worked by hand (turns, refusals, tenants that leave, come back and are taken, snapshots), 2 in which two threads
//! put a tenant each at one desk, 300 times, and 1 with what two parts of a joined bank hold, worked by hand.
#![tactic(auto)]

mod cells;
mod fabrics;
mod section;
mod splits;

use section::{Section, shown};
use std::io;

fn main(rt: HostRuntime) -> io::Result<()> {
    let mut section = Section::Nothing;
    for line in rt.lines(rt.alloc()) {
        let text = section::read(&rt, rt.alloc(), &mut section, line?.as_str())?;
        if !text.is_empty() {
            print!(rt; "{text}")?;
        }
    }
    let text = shown(&rt, rt.alloc(), &section)?;
    print!(rt; "{text}")
}
