//! Laws of certificates of meshes that keep points, each a clause of a function with an empty body.

ghost use Rattle.std.specs.Prelude.{◌≡◌, ℕ, ◌+◌, ◌*◌, ◌^◌, ◌≤◌, List, length};
ghost use Rattle.mesh_defs.specs.declared.point.Point.{Point};
ghost use Rattle.mesh_defs.specs.ClosedSet.{leaves_of};
ghost use Rattle.mesh_laws.specs.Ancestors.{ancestors_of};
ghost use Rattle.fit_laws.specs.PlaneHeight.{deviation_of};
ghost use Rattle.fit_laws.specs.Error.{error_of};
ghost use Rattle.fit_laws.specs.Required.{IsLeastMeshWith};
ghost use Rattle.certificate_laws.specs.declared.fit_reason.FitVerdict.{FitVerdict};
ghost use Rattle.certificate_laws.specs.Keeping.{is_centred, KeptCertificate, IsKeptSound, IsKeptVerdict};
ghost use Rattle.certificate_laws.specs.Keeping.{IsKeptVerdictOf};

/// A certificate with points is sound only for the best mesh for its tolerance that keeps them, whoever made the two.
///
/// `least` the mesh is the fewest triangles for the tolerance of those in which each triangle is split whose centre is
/// kept. `order` it stands depth first; `few` there are no more reasons than triangles that may be split. `certified` no
/// checker that is exact says anything else of a sound certificate. `verdict` each certificate has a verdict,
/// `one_verdict` and no other, and `one_mesh` one mesh alone; `some` for each tolerance and points there is a sound
/// certificate.
pub fn kept_certificate_laws()
    ensures least { (n : ℕ) (heights : List ℕ) (points : List Point) (tolerance : ℕ) (cert : KeptCertificate)
        (mesh : List ℕ) → IsKeptSound n heights points tolerance cert mesh →
        IsLeastMeshWith n tolerance (error_of n heights) (is_centred n points) mesh }
    ensures order { (n : ℕ) (heights : List ℕ) (points : List Point) (tolerance : ℕ) (cert : KeptCertificate)
        (mesh : List ℕ) → IsKeptSound n heights points tolerance cert mesh → leaves_of n (ancestors_of mesh) ≡ mesh }
    ensures few { (n : ℕ) (heights : List ℕ) (points : List Point) (tolerance : ℕ) (cert : KeptCertificate)
        (mesh : List ℕ) → IsKeptSound n heights points tolerance cert mesh →
        length cert.rest.needed + 2 ≤ 2 ^ (2 * n + 1) }
    ensures certified { (n : ℕ) (heights : List ℕ) (points : List Point) (tolerance : ℕ) (cert : KeptCertificate)
        (mesh : List ℕ) (verdict : FitVerdict) → IsKeptSound n heights points tolerance cert mesh →
        IsKeptVerdict n heights points tolerance cert verdict →
        verdict ≡ FitVerdict.Certified (length mesh) (deviation_of n heights mesh) }
    ensures verdict { (n : ℕ) (heights : List ℕ) (points : List Point) (tolerance : ℕ) (cert : KeptCertificate) →
        (verdict : FitVerdict) × (mesh : List ℕ) × IsKeptVerdictOf n heights points tolerance cert verdict mesh }
    ensures one_verdict { (n : ℕ) (heights : List ℕ) (points : List Point) (tolerance : ℕ) (cert : KeptCertificate)
        (verdict other : FitVerdict) → IsKeptVerdict n heights points tolerance cert verdict →
        IsKeptVerdict n heights points tolerance cert other → verdict ≡ other }
    ensures one_mesh { (n : ℕ) (heights : List ℕ) (points : List Point) (tolerance : ℕ) (cert : KeptCertificate)
        (mesh other : List ℕ) → IsKeptSound n heights points tolerance cert mesh →
        IsKeptSound n heights points tolerance cert other → mesh ≡ other }
    ensures some { (n : ℕ) (heights : List ℕ) (points : List Point) (tolerance : ℕ) →
        (cert : KeptCertificate) × (mesh : List ℕ) × IsKeptSound n heights points tolerance cert mesh }
{}
