//! A law of priorities, as the clause of a function that does nothing.

ghost use Rattle.std.specs.Prelude.{ℕ, List};
ghost use Rattle.mesh_defs.specs.View.{View};
ghost use Rattle.mesh_defs.specs.Priority.{priority_of};
ghost use Rattle.mesh_defs.specs.Falling.{IsFalling};

use view_priority::priority_laws;

/// The priorities of a view fall from parent to child, whatever the heights, the camera and the planes.
pub fn falling_laws()
    ensures { (n : ℕ) (heights : List ℕ) (view : View) → IsFalling n (priority_of n heights view) }
{
    priority_laws();
}
