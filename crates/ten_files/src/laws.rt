//! What follows from the definitions alone.

ghost use Rattle.std.specs.Prelude.{◌≡◌, ◌<◌, ℕ, List, Some, length, option_map, slice_get};
ghost use Rattle.vl_base.specs.declared.files.File.{File};
ghost use Rattle.vl_base.specs.Files.{IsFileSet};
ghost use Rattle.ten_files.specs.Tables.{bytes_at};

/// The bytes of a number in a set of files are those of the file with that number.
pub fn bytes_of_a_number_are_its_files()
    ensures { (files : List File) (number : ℕ) → IsFileSet files → number < length files → option_map (λ f. f.bytes) (slice_get files number) ≡ Some (bytes_at files number) }
{}
