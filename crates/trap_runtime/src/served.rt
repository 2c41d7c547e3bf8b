//! How a call was served.

use cell_form::Text;

/// How a system call was served.
#[derive(Drop)]
pub enum Served {
    /// The run goes on.
    Went,
    /// It ends here: `$finish`.
    Finish,
    /// It goes on, and wants a snapshot under this name: `$save`.
    Save(Text),
}
