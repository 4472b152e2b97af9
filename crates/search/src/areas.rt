// The areas that the search looks at.
ghost use Rattle.std.specs.Prelude.{◌≡◌};
ghost use Rattle.schema.specs.Held.{SchemaHeld};

use schema::SchemaTables;

// A schema's area, and the four of a graph: its nodes and edges, its properties, their values, and the index. What they must hold depends
// on the check, so that it stands in the clauses of the functions and not in this type.
#[derive(Clone, Copy, Default)]
pub struct Areas<'a> {
    pub schema: &'a [u32],
    pub nodes: &'a [u32],
    pub properties: &'a [u32],
    pub values: &'a [u32],
    pub index: &'a [u32],
}

impl<'a> Areas<'a> {
    // The schema's tables.
    pub fn schema_tables(&self) -> SchemaTables<'a>
        requires { SchemaHeld self.now.schema.now }
        ensures { result.area ≡ self.now.schema }
    {
        schema::held::tables_in(self.schema)
    }
}
