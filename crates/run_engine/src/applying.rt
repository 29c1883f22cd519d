//! Lines of a script that make no frame, applied to an engine.

ghost use Rattle.std.specs.Prelude.{◌≢◌, ◌≤◌, ◌^◌};
ghost use Rattle.view_priority.specs.Camera.{IsCamera};
ghost use Rattle.roam_script.specs.Laws.{LiesInRange};
ghost use Rattle.roam_script.specs.declared.limits.Limits.{Limits as LimitsSeen};
ghost use Rattle.run_engine.specs.EngineSeen.{IsUnderLimits, IsApplied};

use frame_loop::{Camera, Engine, Plane};
use roam_script::Line;

/// Applies a line that makes no frame, and lies in its ranges.
///
/// Cost (not proved): that of the engine's call; takes no memory.
pub(crate) fn apply_line(engine: &mut Engine, line: Line)
    requires other { line ≢ Line.Frame }
    requires ranges { (limits : LimitsSeen) × IsUnderLimits engine.old limits × LiesInRange limits line }
    requires near { IsCamera engine.old.state.view.camera }
    requires far { engine.old.odometer ≤ 2 ^ 61 }
    ensures { IsApplied engine.old engine.new line }
{
    match line {
        Line::Blank | Line::Frame => {}
        Line::Camera { x, y, z } => move_camera(engine, x, y, z),
        Line::Set { x, y, h } => engine.set_height(x, y, h),
        Line::Plane { a, b, c, d } => engine.add_plane(Plane::new(a, b, c, d).unwrap()),
        Line::NoPlanes => engine.clear_planes(),
        Line::Budget { n } => engine.budget(n),
        Line::Raise { x0, y0, x1, y1, dz } => engine.raise(x0, y0, x1, y1, dz),
    }
}

/// Puts an engine's camera to a place that a camera can have.
fn move_camera(engine: &mut Engine, x: i64, y: i64, z: i64)
    requires valid { IsCamera (record { x = x; y = y; z = z }) }
    requires near { IsCamera engine.old.state.view.camera }
    requires far { engine.old.odometer ≤ 2 ^ 61 }
    ensures { IsApplied engine.old engine.new (Line.Camera x y z) }
{
    engine.camera(Camera::new(x, y, z).unwrap());
}
