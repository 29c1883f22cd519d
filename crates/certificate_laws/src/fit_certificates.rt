//! Laws of the definitions, each a clause of a function with an empty body.

ghost use Rattle.std.specs.Prelude.{◌≡◌, ℕ, ◌+◌, ◌*◌, ◌^◌, ◌≤◌, List, All, length};
ghost use Rattle.mesh_defs.specs.ClosedSet.{leaves_of};
ghost use Rattle.mesh_laws.specs.Ancestors.{ancestors_of};
ghost use Rattle.fit_laws.specs.PlaneHeight.{deviation_of};
ghost use Rattle.mesh_laws.specs.Least.{IsLeastMesh};
ghost use Rattle.fit_laws.specs.Error.{error_of};
ghost use Rattle.fit_laws.specs.Budget.{IsBudgetMesh};
ghost use Rattle.certificate_laws.specs.declared.fit_reason.Target.{Target};
ghost use Rattle.certificate_laws.specs.declared.fit_reason.FitVerdict.{FitVerdict};
ghost use Rattle.certificate_laws.specs.FitCertificate.{FitCertificate, IsFitSound, IsFitVerdict, IsVerdictOf};
ghost use Rattle.certificate_laws.specs.Making.{IsPossible};
ghost use Rattle.certificate_laws.specs.declared.limits.TheConstants.{MOST_REASONS};

/// A certificate is sound only for the best mesh of its target, whoever made the two.
///
/// `least` the mesh is the fewest triangles for the tolerance of the certificate, whatever the target; `error` so it
/// is for the tolerance of the target; `budget` no conforming list within the budget has a lower greatest error.
/// `order` the mesh stands depth first; `few` there are no more reasons than triangles that may be split, and
/// `tolerance` for a budget the tolerance is at most the greatest height. `certified` no checker that is exact says
/// anything else of a sound certificate. `verdict` each certificate has a verdict, `one_verdict` and no other; `some`
/// each target that is possible has a sound certificate.
pub fn fit_certificate_laws()
    ensures least { (n : ℕ) (heights : List ℕ) (target : Target) (cert : FitCertificate) (mesh : List ℕ) →
        IsFitSound n heights target cert mesh →
        IsLeastMesh n cert.tolerance (error_of n heights) mesh }
    ensures error { (n : ℕ) (heights : List ℕ) (tolerance : ℕ) (cert : FitCertificate) (mesh : List ℕ) →
        IsFitSound n heights (Target.Error tolerance) cert mesh →
        IsLeastMesh n tolerance (error_of n heights) mesh }
    ensures budget { (n : ℕ) (heights : List ℕ) (triangles : ℕ) (cert : FitCertificate) (mesh : List ℕ) →
        IsFitSound n heights (Target.Budget triangles) cert mesh →
        IsBudgetMesh n triangles (error_of n heights) mesh }
    ensures order { (n : ℕ) (heights : List ℕ) (target : Target) (cert : FitCertificate) (mesh : List ℕ) →
        IsFitSound n heights target cert mesh → leaves_of n (ancestors_of mesh) ≡ mesh }
    ensures few { (n : ℕ) (heights : List ℕ) (target : Target) (cert : FitCertificate) (mesh : List ℕ) →
        IsFitSound n heights target cert mesh →
        length cert.needed + length cert.beyond + 2 ≤ 2 ^ (2 * n + 1) }
    ensures tolerance { (n : ℕ) (heights : List ℕ) (triangles top : ℕ) (cert : FitCertificate) (mesh : List ℕ) →
        All (λ h. h ≤ top) heights → IsFitSound n heights (Target.Budget triangles) cert mesh →
        cert.tolerance ≤ 2 ^ n * top }
    ensures certified { (n : ℕ) (heights : List ℕ) (target : Target) (cert : FitCertificate) (mesh : List ℕ)
        (verdict : FitVerdict) →
        IsFitSound n heights target cert mesh → IsFitVerdict n heights target cert verdict →
        verdict ≡ FitVerdict.Certified (length mesh) (deviation_of n heights mesh) }
    ensures verdict { (n : ℕ) (heights : List ℕ) (target : Target) (cert : FitCertificate) →
        (verdict : FitVerdict) × (mesh : List ℕ) × IsVerdictOf n heights target cert verdict mesh }
    ensures one_verdict { (n : ℕ) (heights : List ℕ) (target : Target) (cert : FitCertificate)
        (verdict other : FitVerdict) →
        IsFitVerdict n heights target cert verdict → IsFitVerdict n heights target cert other → verdict ≡ other }
    ensures some { (n : ℕ) (heights : List ℕ) (target : Target) → IsPossible target →
        (cert : FitCertificate) × (mesh : List ℕ) × IsFitSound n heights target cert mesh }
{}

/// What the limit is, as a number. It does nothing.
pub fn limit_laws()
    ensures most_reasons { MOST_REASONS ≡ 8388608 }
{}
