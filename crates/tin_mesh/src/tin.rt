//! A mesh of triangles of any shape over a grid.

ghost use Rattle.std.specs.Prelude.{◌≡◌, ◌/◌, length};

use mesh_defs::Point;
use mesh_within::Deviation;
use std::marker::Model;

/// Vertices at grid points, triangles that name three of them, and how far the surface is from the mesh.
#[derive(Drop)]
pub struct Tin {
    pub(crate) points: Vec<Point>,
    pub(crate) corners: Vec<u32>,
    pub(crate) places: Vec<u32>,
    pub(crate) deviation: Deviation,
}

impl Model for Tin {
    ghost use Rattle.tin_mesh.specs.Tin.{TinMesh};

    ghost Value = { TinMesh };

    ghost view = { λ t. record { points = t.points.items; corners = t.corners.items; places = t.places.items; deviation = t.deviation } };

    ghost use Rattle.tin_mesh.specs.Tin.{IsCounted};

    ghost invariant = { λ t. IsCounted t.points.items t.corners.items };
}

impl Tin {
    /// The grid points of the vertices: column from the left, row from the bottom.
    pub fn points(&self) -> &[Point]
        ensures { result.now ≡ self.now.points }
    {
        &self.points
    }

    /// The vertices of the triangles, three after three, counterclockwise.
    pub fn corners(&self) -> &[u32]
        ensures { result.now ≡ self.now.corners }
    {
        &self.corners
    }

    /// How many vertices there are.
    pub fn vertex_count(&self) -> u32
        ensures { result ≡ length self.now.points }
    {
        self.points.len() as u32
    }

    /// How many triangles there are.
    pub fn triangle_count(&self) -> u32
        ensures { result ≡ length self.now.corners / 3 }
    {
        (self.corners.len() / 3) as u32
    }

    /// The corners as places in the heights, in file order: rows from the top, each from left to right.
    pub fn places(&self) -> &[u32]
        ensures { result.now ≡ self.now.places }
    {
        &self.places
    }

    /// How far the surface is from the mesh at a grid point, at most, and where.
    pub fn deviation(&self) -> Deviation
        ensures { result ≡ self.now.deviation }
    {
        self.deviation
    }
}
