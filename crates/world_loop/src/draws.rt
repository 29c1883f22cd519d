//! What a renderer draws: the triangles of the mesh, page by page.

ghost use Rattle.std.specs.Prelude.{◌≡◌, ◌+◌, ◌-◌, ◌*◌, ◌^◌, ◌<◌, ◌≤◌, ◌↔◌, ◌++◌, IfSome, IsSome, Some, All, List};
ghost use Rattle.std.specs.Prelude.{length, drop, cond, map};
ghost use Rattle.mesh_defs.specs.Triangle.{level_of};
ghost use Rattle.mesh_defs.specs.ClosedSet.{IsSubset};
ghost use Rattle.page_store.specs.declared.locate.PageTriangle.{PageTriangle};
ghost use Rattle.page_store.specs.Locate.{page_triangle, IsPageTriangle};
ghost use Rattle.page_priority.specs.Loaded.{is_open};
ghost use Rattle.world_loop.specs.World.{WorldState, loaded_of, is_split, mesh_seen};
ghost use Rattle.world_loop.specs.Draws.{AreInReach, page_of, pages_drawn, AreInTurn, AreApart};
ghost use Rattle.world_loop.specs.Draws.{draws_from, draws_of, draw_indices, goes_on, with_next};

use crate::world::World;
use bintree_addr::Tri;
use mesh_arrays::write_corners;
use page_store::{PageStore, PageTriangle};

/// A run of triangles of the mesh that are of one page.
#[repr(C)]
#[derive(Clone, Copy, Debug, PartialEq, Eq)]
pub struct Draw {
    /// The resolution of the page.
    pub q: u32,
    /// The column of its square.
    pub column: u32,
    /// The row of its square.
    pub row: u32,
    /// The number of the first triangle: triangles are counted from 0, depth first.
    pub first: u32,
    /// How many triangles there are.
    pub triangles: u32,
}

impl World {
    /// How many draws the mesh has. None where a page that it needs was unloaded since the last frame.
    ///
    /// Cost (not proved): that of `PageStore::locate` for each triangle.
    pub fn draw_count(&self) -> Option<usize>
        ensures reach { IsSome result ↔ AreInReach self.now.store (mesh_seen self.now) }
        ensures value { IfSome result (λ count. count ≡ length (draws_of self.now.store (mesh_seen self.now))) }
    {
        let _valid = self.store.large();
        count_draws(&self.store, self.leaves())
    }

    /// Writes the draws, and three indices for each triangle.
    ///
    /// An index (of apex, v0, v1) is the place of a point among the heights of the page, so that one array of points for each
    /// page serves each frame. `placed`: the page is loaded, and has the corners.
    /// Cost (not proved): that of `draw_count`, and a step for each level.
    pub fn draws(&self, draws: &mut [Draw], indices: &mut [u32])
        requires reach { AreInReach self.now.store (mesh_seen self.now) }
        requires room { length (draws_of self.now.store (mesh_seen self.now)) ≤ length draws.old }
        requires index_room { 3 * length (mesh_seen self.now) ≤ length indices.old }
        ensures draws { draws.new ≡ draws_of self.now.store (mesh_seen self.now)
            ++ drop (length (draws_of self.now.store (mesh_seen self.now))) draws.old }
        ensures indices { indices.new ≡ draw_indices self.now.store (mesh_seen self.now)
            ++ drop (3 * length (mesh_seen self.now)) indices.old }
        ensures placed { All (λ a. IsPageTriangle self.now.store a (page_triangle self.now.store a))
            (mesh_seen self.now) }
    {
        let _valid = self.store.large();
        write_draws(&self.store, self.leaves(), draws, indices);
    }
}

/// What draws are, as laws.
///
/// `cut` they follow one another, each of some triangles, from the first triangle to the last; `pages` each triangle is
/// in a draw of its page; `apart` no two neighbours are of one page. `reach` after a frame, which splits open triangles
/// alone, each triangle of the mesh has a page.
pub fn draw_laws()
    ensures cut { (triangles : List PageTriangle) → AreInTurn 0 (draws_from 0 triangles) (length triangles) }
    ensures pages { (triangles : List PageTriangle) → pages_drawn (draws_from 0 triangles) ≡ map page_of triangles }
    ensures apart { (triangles : List PageTriangle) → AreApart (draws_from 0 triangles) }
    ensures reach { (w : WorldState) → IsSubset (is_split w) (is_open (loaded_of w)) →
        AreInReach w.store (mesh_seen w) }
{}

/// How many draws these triangles have, if each is a half of the terrain or has a known parent.
fn count_draws(store: &PageStore, triangles: &[Tri]) -> Option<usize>
    requires levels { All (λ a. level_of a ≤ 2 * store.now.large) triangles.now }
    requires few { length triangles.now < 2 ^ 32 }
    ensures reach { IsSome result ↔ AreInReach store.now triangles.now }
    ensures value { IfSome result (λ count. count ≡ length (draws_of store.now triangles.now)) }
{
    let mut count = 0;
    let mut last = None;
    for (k, tri) in triangles.iter().enumerate() {
        let placed = store.locate(*tri)?;
        let next = next_draw(count, last, placed, k as u32);
        count = next.0;
        last = Some(next.1);
    }
    Some(count)
}

/// Writes the draws of these triangles, and three indices for each.
fn write_draws(store: &PageStore, triangles: &[Tri], draws: &mut [Draw], indices: &mut [u32])
    requires levels { All (λ a. level_of a ≤ 2 * store.now.large) triangles.now }
    requires few { length triangles.now < 2 ^ 32 }
    requires reach { AreInReach store.now triangles.now }
    requires room { length (draws_of store.now triangles.now) ≤ length draws.old }
    requires index_room { 3 * length triangles.now ≤ length indices.old }
    ensures draws { draws.new ≡ draws_of store.now triangles.now
        ++ drop (length (draws_of store.now triangles.now)) draws.old }
    ensures indices { indices.new ≡ draw_indices store.now triangles.now
        ++ drop (3 * length triangles.now) indices.old }
    ensures placed { All (λ a. IsPageTriangle store.now a (page_triangle store.now a)) triangles.now }
{
    let n = store.n();
    let mut count = 0;
    let mut last = None;
    for (k, tri) in triangles.iter().enumerate() {
        let placed = store.locate(*tri).unwrap();
        write_corners(n, placed.corners, indices, 3 * k);
        let next = next_draw(count, last, placed, k as u32);
        count = next.0;
        draws[count - 1] = next.1;
        last = Some(next.1);
    }
}

/// How many draws there are with the next triangle, of this number, and the last of them.
fn next_draw(count: usize, last: Option<Draw>, placed: PageTriangle, number: u32) -> (usize, Draw)
    requires few { count < 2 ^ 32 }
    requires short { IfSome last (λ d. d.triangles < 2 ^ 32 - 1) }
    ensures count { result.0 ≡ cond (goes_on last placed) count (count + 1) }
    ensures draw { result.1 ≡ with_next last placed number }
{
    match last {
        Some(draw) if draw.is_of(placed) => (
            count,
            Draw {
                triangles: draw.triangles + 1,
                ..draw
            },
        ),
        _ => (
            count + 1,
            Draw {
                q: placed.q,
                column: placed.square.x,
                row: placed.square.y,
                first: number,
                triangles: 1,
            },
        ),
    }
}

impl Draw {
    /// Whether the draw is of the triangle's page.
    fn is_of(self, placed: PageTriangle) -> bool
        ensures { result ≡ goes_on (Some self) placed }
    {
        self.q == placed.q && self.column == placed.square.x && self.row == placed.square.y
    }
}
