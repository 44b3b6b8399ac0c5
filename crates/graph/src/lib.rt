// Layer graph. A lent graph: its size by value, its identifiers, and its arcs each way, with weights beside them where it has them.
// Vertices are numbers from 0; a vertex's part of a way's targets holds its neighbours.
#![tactic(auto)]

pub mod find;
pub mod part;
pub mod sound;
pub mod walk;
pub mod weights;

// How many vertices and arcs a lent graph is said to have.
#[derive(Clone, Copy)]
pub struct Size {
    pub vertices: usize,
    pub arcs: usize,
}

// One way of the arcs: where each vertex's part of the targets begins and ends, and the vertices at the arcs' other ends.
#[derive(Clone, Copy)]
pub struct Way<'a> {
    pub offsets: &'a [usize],
    pub targets: &'a [usize],
}

// A lent graph: the identifiers of its vertices, its arcs as they lead outward, and the same arcs reversed.
#[derive(Clone, Copy)]
pub struct Lent<'a> {
    pub size: Size,
    pub ids: &'a [i64],
    pub outward: Way<'a>,
    pub inward: Way<'a>,
}

// A lent graph, whether it is marked as weighted, and the weights beside its arcs each way.
// Stays: `weighted` as a flag. A graph may be marked so and have no weights that count, so the mark is no `Option` of the areas.
#[derive(Clone, Copy)]
pub struct Weighed<'a> {
    pub graph: Lent<'a>,
    pub weighted: bool,
    pub out_weights: &'a [usize],
    pub in_weights: &'a [usize],
}
