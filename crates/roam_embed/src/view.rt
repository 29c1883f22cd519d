//! The camera, the planes, the threshold and the budget.

ghost use Rattle.roam_embed.specs.Calls.{IsCameraMoved, IsPlaneAdded, ArePlanesCleared, IsThresholdPut, IsBudgetPut};

use crate::answer::Answer;
use frame_loop::{Camera, Engine, Plane};

/// The longest way of a camera, half of what an engine can count.
pub const LONGEST_WAY: u64 = 1 << 61;

/// The most planes in force.
pub const MOST_PLANES: u32 = mesh_defs::MOST_PLANES;

/// Puts the camera to a place, in world units.
pub fn move_camera(engine: &mut Engine, x: i64, y: i64, z: i64) -> Answer
    ensures { IsCameraMoved engine.old engine.new (record { x = x; y = y; z = z }) result }
{
    match Camera::new(x, y, z) {
        Some(place) => {
            if engine.odometer() > LONGEST_WAY {
                return Answer::Worn;
            }
            let _way = engine.way_to(place);
            engine.camera(place);
            Answer::Done
        }
        None => Answer::BadCamera,
    }
}

/// Puts one plane more in force. Its inside is where a x + b y + c z + d is at least 0.
pub fn add_plane(engine: &mut Engine, a: i64, b: i64, c: i64, d: i64) -> Answer
    ensures { IsPlaneAdded engine.old engine.new (record { a = a; b = b; c = c; d = d }) result }
{
    match Plane::new(a, b, c, d) {
        Some(plane) => {
            if engine.planes() >= MOST_PLANES {
                return Answer::TooManyPlanes;
            }
            engine.add_plane(plane);
            Answer::Done
        }
        None => Answer::BadPlane,
    }
}

/// Takes all planes away.
pub fn clear_planes(engine: &mut Engine) -> Answer
    ensures { ArePlanesCleared engine.old engine.new result }
{
    engine.clear_planes();
    Answer::Done
}

/// Puts another threshold in force: a triangle whose thickness over distance is no more has priority 0.
pub fn put_threshold(engine: &mut Engine, threshold: u64) -> Answer
    ensures { IsThresholdPut engine.old engine.new threshold result }
{
    engine.threshold(threshold);
    Answer::Done
}

/// Puts another budget in force.
pub fn put_budget(engine: &mut Engine, budget: u32) -> Answer
    ensures { IsBudgetPut engine.old engine.new budget result }
{
    if budget < 2 || budget > engine.most() {
        return Answer::BadBudget;
    }
    engine.budget(budget);
    Answer::Done
}
