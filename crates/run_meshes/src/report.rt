//! The line of the report on a mesh that was fitted.

ghost use Rattle.std.specs.Prelude.{◌≡◌, ◌+◌, ◌≤◌, ◌++◌};
ghost use Rattle.arrayvec.specs.ArrayVec.{array_vec_len};
ghost use Rattle.mesh_defs.specs.declared.level.TheConstants.{GREATEST_LEVEL};
ghost use Rattle.run_files.specs.declared.text.TheConstants.{TEXT_ROOM};
ghost use Rattle.run_meshes.specs.FittedSeen.{deviation_text, fit_numbers};

use arrayvec::ArrayVec;
use fit_mesh::FitNote;
use roam_num::{push_bytes, push_decimal};
use run_files::{Text, push_placed};

/// The line on a mesh of the grid of side 2^n, of which this is the note.
pub(crate) fn fit_report(n: u32, note: &FitNote) -> Text
    requires in_grid { n ≤ GREATEST_LEVEL }
    ensures { result.items ≡ fit_numbers n note.now.triangles note.now.vertices note.now.deviation }
{
    let FitNote {
        triangles,
        vertices,
        deviation,
    } = *note;
    let mut text = ArrayVec::new();
    push_placed(&mut text, b"fit triangles ", u64::from(triangles));
    push_placed(&mut text, b" vertices ", u64::from(vertices));
    push_deviation(&mut text, n, deviation);
    push_bytes(&mut text, b"\n");
    text
}

/// Appends how far the surface is from a mesh, as a fraction over 2^n and as a decimal.
fn push_deviation(text: &mut Text, n: u32, deviation: u32)
    requires in_grid { n ≤ GREATEST_LEVEL }
    requires room { array_vec_len text.old + 200 ≤ TEXT_ROOM }
    ensures items { text.new.items ≡ text.old.items ++ deviation_text n deviation }
    ensures len { array_vec_len text.new ≤ array_vec_len text.old + 200 }
{
    push_placed(text, b" deviation ", u64::from(deviation));
    push_placed(text, b" over ", 2u64.pow(n));
    push_bytes(text, b" error ");
    push_decimal(text, deviation, n);
}
