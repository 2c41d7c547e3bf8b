//! Laws of the definitions: that what the tables say an instance is given is what the definitions of the flat design say.

ghost use Rattle.std.specs.Prelude.{◌≡◌};
ghost use Rattle.elab_plain.specs.vl_flat.specs.Items as x;
ghost use Rattle.elab_plain.specs.vl_flat.specs.Environments.{Counts, no_more};
ghost use Rattle.elab_plain.specs.vl_flat.specs.Processes.{Here};
ghost use Rattle.elab_plain.specs.vl_flat.specs.Connections as c;
ghost use Rattle.elab_plain.specs.vl_flat.specs.Functions.{dotted};
ghost use Rattle.elab_plain.specs.vl_flat.specs.Flat.{top_given};
ghost use Rattle.elab_constant.specs.Seen.{look};
ghost use Rattle.elab_instance.specs.declared.given.Above.TheVariants as above;
ghost use Rattle.elab_instance.specs.declared.given.Surroundings.{Surroundings};
ghost use Rattle.elab_instance.specs.Tables.{joined};
ghost use Rattle.elab_instance.specs.Given.{given_of};

/// The top is given nothing: each of its inputs is a clock.
pub fn the_top_is_given_clocks()
    ensures { (m : x.Module) → given_of m above.Top m.name.name no_more ≡ top_given m }
{}

/// An instance in an item is given what its connections and overrides say.
pub fn an_instance_is_given_its_connections()
    ensures { (here : Here) (base : Counts) (a : x.Instances) (u : x.NamedUnit) (m : x.Module) (s : Surroundings)
        → look s.names.now ≡ here.env → joined s.overrides.now ≡ c.named_connection (c.spelled m.parameters) a.overrides → joined s.ports.now ≡ c.port_connection m u
        → given_of m (above.Item s) (dotted here.path u.name.name) base ≡ c.given here base a u m }
{}
