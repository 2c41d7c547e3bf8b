//! A test program of the front end: it reads rows of sources and expressions, and prints what comes of each.
//!
//! A line `### parse` begins a section of rows of the lexer and the parsers, `### flat` one of elaboration, and `### check` one of the
//! whole front end.
//!
//! Proved: safe, and ends.
//!
//! Tested: as the program's input, in three sections: 685 texts, sources and expressions with the tokens, the tree, the fault or the limit
//! of each worked by hand (`tools/parse_rows.txt`); 558 sources with the flat design, the first fault, or that names have none, of each
//! worked by hand (`tools/flat_rows.txt`, `tools/name_rows.txt`), of which two designs are in `docs/DESIGNS.md`; and 830 sources with the
//! first fault of what each uses, of limits, paths and loops, or that it is accepted, worked by hand (`tools/check_rows.txt`), and 8 with
//! what each costs (`tools/cost_rows.txt`).
#![tactic(auto)]

mod checking;
mod flat;
mod parsing;
mod section;

use section::Section;
use std::io;

/// Reads one more line. A name begins another section: then the last row of the one before is shown.
fn read(rt: &HostRuntime, section: &mut Section, line: &str) -> io::Result<()> {
    match line.strip_prefix("### ") {
        None => section.read(rt, line)?,
        Some(name) => {
            section.show(rt)?;
            *section = Section::new(rt.alloc(), name);
        }
    }
    Ok(())
}

fn main(rt: HostRuntime) -> io::Result<()> {
    let mut section = Section::Outside;
    for line in rt.lines(rt.alloc()) {
        read(&rt, &mut section, line?.as_str())?;
    }
    section.show(&rt)
}
