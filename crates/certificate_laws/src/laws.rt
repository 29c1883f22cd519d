//! Laws of the definitions, each a clause of a function with an empty body.

ghost use Rattle.std.specs.Prelude.{◌≡◌, ℕ, ◌+◌, ◌-◌, ◌*◌, ◌^◌, ◌<◌, ◌≤◌, ◌⊎◌, ◌↔◌, Bool, IsTrue, List, [], ◌∷◌, ◌++◌};
ghost use Rattle.std.specs.Prelude.{length};
ghost use Rattle.mesh_defs.specs.Tiling.{IsConforming};
ghost use Rattle.mesh_defs.specs.ClosedSet.{IsClosed, leaves_of};
ghost use Rattle.mesh_defs.specs.Priority.{worst_of};
ghost use Rattle.mesh_defs.specs.Ranking.{IsRanking, IsRankClosure};
ghost use Rattle.mesh_defs.specs.BestMesh.{IsBestMesh};
ghost use Rattle.mesh_defs.specs.Falling.{IsFalling};
ghost use Rattle.certificate_laws.specs.declared.reason.Reason.{Reason};
ghost use Rattle.certificate_laws.specs.declared.reason.Verdict.{Verdict};
ghost use Rattle.certificate_laws.specs.Certificate.{named_in, IsReason, AreReasons, IsSound, IsOptimal, AreAllReasons};
ghost use Rattle.certificate_laws.specs.Certificate.{IsVerdict};
ghost use Rattle.certificate_laws.specs.Cut.{IsCut};

/// What a checker says of a certificate: there is one verdict, and only one.
pub fn verdict_laws()
    ensures found { (n budget : ℕ) (priority : ℕ → ℕ) (leaves : List ℕ) (reasons : List Reason) →
        ((verdict : Verdict) × IsVerdict n budget priority leaves reasons verdict) }
    ensures unique { (n budget : ℕ) (priority : ℕ → ℕ) (leaves : List ℕ) (reasons : List Reason)
        (verdict other : Verdict) →
        IsVerdict n budget priority leaves reasons verdict → IsVerdict n budget priority leaves reasons other →
        verdict ≡ other }
{}

/// A certificate is sound only for an optimal mesh, and each optimal mesh has a sound one.
///
/// `found` says also how short it can be: B - 1 reasons, or none where the worst is 0.
pub fn certificate_laws()
    ensures optimal { (n budget : ℕ) (priority : ℕ → ℕ) (leaves : List ℕ) (reasons : List Reason) →
        IsFalling n priority →
        IsSound n budget priority leaves reasons → IsOptimal n budget priority leaves }
    ensures found { (n budget : ℕ) (priority : ℕ → ℕ) (leaves : List ℕ) → IsFalling n priority →
        IsOptimal n budget priority leaves →
        ((reasons : List Reason) × IsSound n budget priority leaves reasons × (length reasons ≤ budget - 1)) }
    ensures closure { (n budget : ℕ) (priority : ℕ → ℕ) (ranking : List ℕ) (chosen : ℕ) (has : ℕ → Bool) →
        IsRanking n priority ranking → IsFalling n priority → 2 ≤ budget → IsRankClosure n budget ranking chosen has →
        ((reasons : List Reason) × IsSound n budget priority (leaves_of n has) reasons
        × (length reasons ≤ budget - 1)) }
    ensures best { (n budget : ℕ) (priority : ℕ → ℕ) (leaves : List ℕ) → IsBestMesh n budget priority leaves →
        IsOptimal n budget priority leaves }
{}

/// Reasons one behind the other, as a checker reads them and a maker writes them.
///
/// `next` and `before` go by one reason; so the first reason that is none is found from the front.
/// `enough` is where a maker's queue ends: reasons that hold all that is wanted and their causes are enough.
pub fn reason_laws()
    ensures next { (n worst : ℕ) (priority : ℕ → ℕ) (reasons : List Reason) (reason : Reason) →
        AreReasons n priority worst [] reasons → IsReason n priority worst (named_in reasons) reason →
        AreReasons n priority worst [] (reasons ++ reason ∷ []) }
    ensures before { (n worst : ℕ) (priority : ℕ → ℕ) (reasons : List Reason) (reason : Reason) (rest : List Reason) →
        AreReasons n priority worst [] (reasons ++ reason ∷ rest) →
        AreReasons n priority worst [] reasons × IsReason n priority worst (named_in reasons) reason }
    ensures enough { (n budget : ℕ) (priority : ℕ → ℕ) (leaves : List ℕ) (reasons : List Reason) →
        IsFalling n priority →
        IsOptimal n budget priority leaves → AreReasons n priority (worst_of priority leaves) [] reasons →
        AreAllReasons n priority (worst_of priority leaves) reasons → 0 < worst_of priority leaves →
        budget ≤ length reasons + 1 }
{}

/// Conforming lists in any order, by flags of what is split: the test is exact, so being conforming is decided.
pub fn cut_laws()
    ensures exact { (n : ℕ) (triangles : List ℕ) → IsConforming n triangles ↔ IsCut n triangles }
    ensures decided { (n : ℕ) (triangles : List ℕ) → (IsConforming n triangles ⊎ (IsConforming n triangles → ⊥)) }
{}
