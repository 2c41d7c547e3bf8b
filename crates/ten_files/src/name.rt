//! Names of files.

ghost use Rattle.std.specs.Prelude.{◌≡◌, IfOk};

use std::alloc::{AllocError, Global};
use vl_base::items::{Items, Text};

/// Another text of the same bytes.
pub fn copy_text(alloc: Global, text: &Text) -> Result<Text, AllocError>
    ensures { IfOk result (λ t. t ≡ text.now) }
{
    let bytes = Vec::from_slice(alloc, text.as_slice())?;
    Ok(Items::from_vec(bytes))
}
