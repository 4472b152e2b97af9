// The areas that hold a schema and a graph, with the index: what evaluation and sizing rest on stands in their type.
ghost use Rattle.std.specs.Prelude.{◌≡◌, ◌<◌, length};
ghost use Rattle.std.proofs.Props.{props};
ghost use Rattle.schema.specs.Held.{bucketed_prop};
ghost use Rattle.world.specs.Fact.{masked_prop};
ghost use Rattle.world.specs.World.{WorldHeld, root_at, shape_by, shape_at, holds_at};
ghost use Rattle.tables.specs.Read.{cell, wide_at, values_at};

use super::FieldKind;
use graph::{NodeTables, PropertyRow};
use rules::{FieldNo, TypeNo};
use schema::SchemaTables;

// A schema's area, and the four of a graph: its nodes and edges, its properties, their values, and the index.
#[derive(Clone, Copy)]
pub struct WorldTables<'a> {
    pub schema: &'a [u32],
    pub nodes: &'a [u32],
    pub properties: &'a [u32],
    pub values: &'a [u32],
    pub index: &'a [u32],
    ghost held: { WorldHeld schema.now nodes.now properties.now values.now index.now } by { Prim.hlevel (bucketed_prop, masked_prop, props) },
}

// Each method is a function of the crate, given the areas that it asks. The functions stand beside: they ask less of their callers.
impl<'a> WorldTables<'a> {
    // The schema's tables.
    pub fn schema_tables(&self) -> SchemaTables<'a>
        ensures { result.area ≡ self.now.schema }
    {
        schema::held::tables_in(self.schema)
    }

    // The nodes and edges.
    fn node_tables(&self) -> NodeTables<'a>
        ensures { result.area ≡ self.now.nodes }
    {
        NodeTables { area: self.nodes }
    }

    // The target of edge e.
    pub fn target(&self, e: usize) -> u32
        requires { e < cell self.now.nodes.now 1 }
        ensures { result ≡ wide_at self.now.nodes.now 1544 e 4 }
    {
        super::target(&self.node_tables(), e)
    }

    // Whether node u's type is compatible with t.
    pub fn holds(&self, u: u32, t: TypeNo) -> bool
        ensures { result ≡ holds_at self.now.schema.now self.now.nodes.now u t }
    {
        super::holds(self.schema, &self.node_tables(), u, t)
    }

    // How many values property j has.
    pub fn value_count(&self, j: usize) -> usize
        requires { j < cell self.now.properties.now 0 }
        ensures { result ≡ length (values_at self.now.properties.now self.now.values.now j) }
    {
        let property = PropertyRow {
            area: self.properties,
            values: self.values,
            place: j,
        };
        super::value_count(&property)
    }

    // What field f is at node u.
    pub fn shape(&self, u: u32, f: FieldNo) -> FieldKind
        ensures { shape_by result ≡ shape_at self.now.schema.now self.now.nodes.now u f }
    {
        super::shape(&self.schema_tables(), &self.node_tables(), u, f)
    }

    // The query node.
    pub fn query_node(&self) -> u32
        ensures { result ≡ root_at self.now.schema.now self.now.nodes.now }
    {
        super::query_node(&self.schema_tables(), &self.node_tables())
    }
}
