// An area that holds a schema: what every question to it rests on stands in its type.
ghost use Rattle.std.specs.Prelude.{◌≡◌};
ghost use Rattle.std.proofs.Props.{props};
ghost use Rattle.schema.specs.Held.{SchemaHeld, bucketed_prop};

// A schema's area that can be read: long enough, its counts within the maxima, its pairs linked.
#[derive(Clone, Copy)]
pub struct SchemaTables<'a> {
    pub area: &'a [u32],
    ghost held: { SchemaHeld area.now } by { Prim.hlevel (bucketed_prop, props) },
}

// The tables that an area holds.
pub fn tables_in<'a>(area: &'a [u32]) -> SchemaTables<'a>
    requires { SchemaHeld area.now }
    ensures { result.area ≡ area.entry }
{
    SchemaTables { area }
}
