// The areas that hold a graph: what every question to them rests on stands in their types.
ghost use Rattle.std.specs.Prelude.{◌≡◌, ◌<◌};
ghost use Rattle.std.proofs.Props.{props};
ghost use Rattle.tables.specs.Read.{cell};
ghost use Rattle.graph.specs.Held.{NodesHeld, PropertiesHeld};

// The area of nodes and edges that can be read: long enough, its counts within the maxima, no edge with more than four pairs.
#[derive(Clone, Copy)]
pub struct NodeTables<'a> {
    pub area: &'a [u32],
    ghost held: { NodesHeld area.now } by { Prim.hlevel props },
}

// The areas of properties and of their values that can be read: the same of the properties, and their values inside.
#[derive(Clone, Copy)]
pub struct PropertyTables<'a> {
    pub area: &'a [u32],
    pub values: &'a [u32],
    ghost held: { PropertiesHeld area.now values.now } by { Prim.hlevel props },
}

// A property: the areas that hold it, and its place there.
#[derive(Clone, Copy)]
pub struct PropertyRow<'a> {
    pub area: &'a [u32],
    pub values: &'a [u32],
    pub place: usize,
    ghost held: { PropertiesHeld area.now values.now } by { Prim.hlevel props },
    ghost inside: { place < cell area.now 0 },
}
