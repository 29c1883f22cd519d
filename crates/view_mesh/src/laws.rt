//! Laws of stamps and of frames, as clauses of functions with empty bodies.

ghost use Rattle.std.specs.Prelude.{◌≡◌, ℕ, ◌+◌, Bool, true, false, None, List};
ghost use Rattle.mesh_defs.specs.Triangle.{IsAddress};
ghost use Rattle.mesh_defs.specs.State.{move_length};
ghost use Rattle.mesh_defs.specs.Falling.{IsFalling};
ghost use Rattle.mesh_defs.specs.GridSet.{IsGridSet};
ghost use Rattle.mesh_laws.specs.Slots.{IsPool};
ghost use Rattle.mesh_laws.specs.Stamps.{ReadingsHold, StampsHold};
ghost use Rattle.deferred_loop.specs.declared.frame.Steps.{Steps};
ghost use Rattle.deferred_loop.specs.Promise.{IsAtLeast, AreStampsGood};
ghost use Rattle.deferred_loop.specs.Seen.{SeenMesh};
ghost use Rattle.roam_mesh.specs.Mesh.{MeshState, stamp_of, seen_of, OnlyEntriesStamped};
ghost use Rattle.roam_mesh.specs.Chosen.{SparesChosen};
ghost use Rattle.view_mesh.specs.Sight.{Sight, priority_now, IsSamePriority, AreBracketed, IsSound};
ghost use Rattle.view_mesh.specs.Expiry.{IsExpired, AreAllExpired};
ghost use Rattle.view_mesh.specs.Advance.{IsAdvanced};

use view_priority::view_laws;

/// What a frame asks of stamps, and that stamps go on to bracket the priorities.
///
/// A stamp brackets the priority of its triangle at every place of the camera within what is left of its slack. Where
/// all do that are not expired, they do so after a move of the camera, with the odometer as much farther; after a
/// frame; and after other priorities are in force, where the stamps of all triangles whose priorities differ were
/// expired.
pub fn sight_laws()
    // What a frame asks of its gauge, and of the stamps that it finds.
    ensures readings { (s : Sight) (odometer : ℕ) → IsSound s →
        ReadingsHold s.n (priority_now s) odometer s.readings }
    ensures stamps { (s : Sight) (odometer : ℕ) (mesh : MeshState) → AreBracketed s odometer mesh →
        StampsHold (priority_now s) odometer (stamp_of mesh) }

    ensures expired { (s : Sight) (odometer : ℕ) (mesh : MeshState) → AreAllExpired mesh →
        AreBracketed s odometer mesh }

    // What a frame leaves, a move of the camera, and other priorities.
    ensures frame { (s : Sight) (odometer : ℕ) (before after : MeshState) → IsSound s → after.pool.n ≡ s.n →
        AreBracketed s odometer before → AreStampsGood s.readings odometer (seen_of before) (seen_of after) →
        OnlyEntriesStamped after → AreBracketed s odometer after }
    ensures camera { (s moved : Sight) (odometer : ℕ) (mesh : MeshState) → ((a : ℕ) → IsSamePriority s moved a) →
        AreBracketed s odometer mesh → AreBracketed moved (odometer + move_length s.camera moved.camera) mesh }
    ensures edited { (s other : Sight) (odometer : ℕ) (before after : MeshState) (expired : ℕ → Bool) →
        other.camera ≡ s.camera → before.pool.n ≡ s.n → OnlyEntriesStamped before →
        IsExpired before after expired →
        ((a : ℕ) → IsAddress s.n a → expired a ≡ false → IsSamePriority s other a) →
        AreBracketed s odometer before → AreBracketed other odometer after }
{
    view_laws();
}

/// What an expiry leaves: stamps of entries alone, and no good stamp where none was (`all`) or all expired (`each`).
/// `same`: which triangles it names matters for those of the grid alone. `none`: so it is of a mesh without stamps.
pub fn expiry_laws()
    ensures none { (mesh : MeshState) → ((a : ℕ) → stamp_of mesh a ≡ None) →
        OnlyEntriesStamped mesh × AreAllExpired mesh }
    ensures only { (before after : MeshState) (expired : ℕ → Bool) → IsExpired before after expired →
        OnlyEntriesStamped before → OnlyEntriesStamped after }
    ensures each { (before after : MeshState) → IsExpired before after (λ a. true) → AreAllExpired after }
    ensures all { (before after : MeshState) (expired : ℕ → Bool) → IsExpired before after expired →
        AreAllExpired before → AreAllExpired after }
    ensures same { (before after : MeshState) (expired others : ℕ → Bool) → OnlyEntriesStamped before →
        ((a : ℕ) → IsAddress before.pool.n a → expired a ≡ others a) →
        IsExpired before after expired → IsExpired before after others }
{}

/// A frame after another, with nothing changed in between, does nothing.
///
/// It makes no step and asks nothing, whatever is counted (`frame`): where the mesh stays, no stamp is another (`asked`),
/// and no frame from a closed set merges a diamond that holds a triangle which greedy splitting picks (`spares`).
pub fn still_laws()
    ensures frame { (s : Sight) (budget odometer : ℕ) (before after : MeshState) (steps : Steps)
        (count more asked : ℕ) → IsSound s → after.pool.n ≡ s.n → IsPool after.pool.n after.pool.pairs →
        IsAdvanced s budget odometer before after steps count more →
        IsAdvanced s budget odometer after after (record steps { splits = 0; merges = 0 }) asked asked }
    ensures asked { (s : SeenMesh) (count : ℕ) → IsAtLeast s s count count }
    ensures spares { (n budget : ℕ) (priority : ℕ → ℕ) (start last : List ℕ) → IsGridSet n start →
        IsFalling n priority → SparesChosen n budget priority start last }
{}
