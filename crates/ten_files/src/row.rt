//! Rows of the table of open files.

/// An open file.
#[derive(Clone, Copy, Debug, PartialEq, Eq)]
pub struct Row {
    /// The file's number in its set, from 0.
    pub file: u32,
    /// The place of the next byte, from 0.
    pub place: u64,
    /// A read was short or met the end.
    pub ended: bool,
}
