//! What follows from the definitions alone.

ghost use Rattle.std.specs.Prelude.{◌≡◌, ◌≤◌, ℕ, Ok};
ghost use Rattle.host_text.specs.declared.script.Script.{Script};
ghost use Rattle.host_text.specs.Reading.{reading};
ghost use Rattle.host_files.specs.Reading.{IsAvailable};
ghost use Rattle.host_demo.specs.Sources.{files_of};
ghost use Rattle.host_demo.specs.Texts as t;

/// The script of the demonstration has a reading, for 1 to 32 tenants, and all that is read for it is among the demonstration's files.
pub fn the_demonstration_can_be_run()
    ensures { (n : ℕ) → 1 ≤ n → n ≤ 32 → (s : Script) × (reading (t.script n) ≡ Ok s) × IsAvailable (files_of n) s }
{}
