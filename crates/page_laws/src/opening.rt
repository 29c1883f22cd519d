//! What is open, as laws.

ghost use Rattle.std.specs.Prelude.{◌≡◌, ℕ, Bool, Option};
ghost use Rattle.mesh_defs.specs.ClosedSet.{IsClosed, IsSubset};
ghost use Rattle.mesh_defs.specs.Falling.{IsFalling};
ghost use Rattle.bintree_addr.specs.declared.blocked.Blocked.{Blocked};
ghost use Rattle.mesh_laws.specs.Frame.{IsFrame};
ghost use Rattle.page_laws.specs.Opened.{IsOpen, opened};

/// Priorities that are 0 outside of a closed set: they fall, and what a frame splits lies in that set.
///
/// `unique` there is one open set at most.
pub fn open_laws()
    ensures falls { (n : ℕ) (is_open : ℕ → Bool) (priority : ℕ → ℕ) → IsClosed n is_open → IsFalling n priority →
        IsFalling n (opened is_open priority) }
    ensures frame { (n budget : ℕ) (is_open : ℕ → Bool) (priority : ℕ → ℕ) (has : ℕ → Bool) (worst : ℕ)
        (blocked : Option Blocked) → IsClosed n is_open →
        IsFrame n budget (opened is_open priority) has worst blocked → IsSubset has is_open }
    ensures unique { (n : ℕ) (known is_open other : ℕ → Bool) → IsOpen n known is_open → IsOpen n known other →
        (a : ℕ) → is_open a ≡ other a }
{}
