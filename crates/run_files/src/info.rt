//! The command `info`, and its line.

ghost use Rattle.std.specs.Prelude.{◌≡◌, ◌^◌, ◌<◌, ◌≤◌, None, Some, max, length};
ghost use Rattle.mesh_defs.specs.BoundingBox.{least, greatest};
ghost use Rattle.mesh_defs.specs.Thickness.{thickness_of};
ghost use Rattle.run_words.specs.Words.{OnGrid, Facts};
ghost use Rattle.run_laws.specs.ReportText.{info_line};
ghost use Rattle.run_laws.specs.Leaving.{RunsCommand};

use crate::end::end_with_text;
use crate::grid_file::grid_or_end;
use crate::outside::Outside;
use crate::text::Text;
use arrayvec::ArrayVec;
use bintree_addr::Tri;
use pgm_grid::side_for;
use roam_lanes::range;
use roam_num::{push_bytes, push_number};
use run_laws::Status;
use std::alloc::Global;
use wedgie_tree::Wedges;

/// Carries out the command `info`: reads the grid of this name, and writes one line about it. All memory is taken
/// before the line is written.
pub fn run_info<O: Outside>(alloc: Global, name: &str, outside: &mut O) -> Status
    requires opens { (O.moment outside.old).shelf.opens ≤ 2 ^ 63 }
    ensures same { O.is_same outside.old outside.new }
    ensures runs { RunsCommand (O.moment outside.old) (O.moment outside.new)
        (Some (OnGrid name.now Facts)) result None }
{
    match grid_or_end(alloc, name, outside) {
        Ok(grid) => match Wedges::build(alloc, grid) {
            Ok(wedges) => end_with_text(info_report(&wedges).as_slice(), Status::Done, outside),
            Err(_) => Status::NoMemory,
        },
        Err(status) => status,
    }
}

/// The line on a grid, of which the wedges are.
fn info_report(wedges: &Wedges) -> Text
    ensures { result.items ≡ info_line wedges.now }
{
    let grid = wedges.grid();
    let (low, high) = extremes(grid.heights());
    let mut text = ArrayVec::new();
    push_bytes(&mut text, b"side ");
    push_number(&mut text, side_for(grid.n()) as u64);
    push_bytes(&mut text, b" maxval ");
    push_number(&mut text, u64::from(grid.maxval()));
    push_bytes(&mut text, b" low ");
    push_number(&mut text, u64::from(low));
    push_bytes(&mut text, b" high ");
    push_number(&mut text, u64::from(high));
    push_bytes(&mut text, b" thickness ");
    push_number(&mut text, u64::from(base_thickness(wedges)));
    push_bytes(&mut text, b"\n");
    text
}

/// The greater thickness of the two base triangles, in half units of height.
fn base_thickness(wedges: &Wedges) -> u32
    ensures { result ≡ max (thickness_of wedges.now.n wedges.now.heights 2)
        (thickness_of wedges.now.n wedges.now.heights 3) }
{
    wedges
        .thickness(Tri::LOWER)
        .max(wedges.thickness(Tri::UPPER))
}

/// The least and the greatest height, of which there is one at least.
fn extremes(heights: &[u16]) -> (u16, u16)
    requires { 0 < length heights.now }
    ensures least { result.0 ≡ least heights.now }
    ensures greatest { result.1 ≡ greatest heights.now }
{
    range(heights).unwrap()
}
