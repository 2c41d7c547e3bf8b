//! The table of open files, and what `$fopen`, `$fclose`, `$feof`, `$fgetc` and `$fread` do to it (IEEE 1364-2005, clause 17.2).
//!
//! Proved: for the interpreter, what `$fopen`, `$fclose`, `$feof`, `$fgetc` and `$fread` do to the table of open files, read and answer,
//! exactly as defined (`open`, `close`, `at_end`, `next_character`, `read`).
//!
//! Proved: a tenant's open files, at most 16, by their numbers in its file set: what `$fopen`, `$fread`, `$fgetc`, `$feof` and `$fclose` do
//! to the table, read and answer, exactly as defined, without memory (`Table`); rows can be read and set; law: the bytes of a number are
//! those of the file with that number (`laws.rt`).
#![tactic(auto)]

mod files_row;
pub mod laws;
pub mod name;
pub mod open;
pub mod read;
mod reading;
pub mod row;
mod slots;
pub mod table;

pub use fmt_text::design;
pub use vl_base::bits::Bits;
pub use vl_base::files;
pub use vl_base::items::{Items, Text};
