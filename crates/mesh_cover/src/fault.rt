//! Where a mesh is not conforming.

/// The first place where a mesh is not conforming. Corner 3 t + i is corner i of triangle t, and edge 3 t + i leads from it to
/// the next corner of the triangle.
#[derive(Clone, Copy, Debug, PartialEq, Eq)]
pub enum Fault {
    /// A corner that is no vertex of the list, or a vertex off the grid.
    OffGrid(u32),
    /// A triangle that is flat, or turned over: its corners do not turn left.
    Flipped(u32),
    /// An edge where the mesh does not go on: a gap, an overlap or a step in height. It has no partner and lies on no side, or its
    /// partner is not the same edge the other way round.
    Unpaired(u32),
    /// An edge of the right side that shares a row with an edge before: two layers overlap.
    Doubled(u32),
    /// A row of the right side that no edge has: nothing covers it.
    Bare(u32),
}
