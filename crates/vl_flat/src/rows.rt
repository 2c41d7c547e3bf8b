//! Worked rows of the definitions.

ghost use Rattle.std.specs.Prelude.{◌≡◌, Ok, Err};
ghost use Rattle.vl_design.specs.declared.stop.Stop.TheVariants.{Construct};
ghost use Rattle.vl_flat.specs.Examples.{at, stepped_source, stepped, two_wide};
ghost use Rattle.vl_flat.specs.Outcome.{flattened};

/// A source with an instance and an override has this design.
pub fn an_instance_takes_its_override()
    ensures { flattened stepped_source ≡ Ok stepped }
{}

/// A fault in an instance comes before one of a later instance that stands earlier in the text.
pub fn faults_come_in_the_order_of_the_design()
    ensures { flattened two_wide ≡ Err (Construct (at 5 15) 10) }
{}
