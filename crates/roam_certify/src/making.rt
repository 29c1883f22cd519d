//! Making the reasons of a certificate: a queue of triangles whose causes are still to be listed.

ghost use Rattle.std.specs.Prelude.{◌≡◌, ℕ, ◌+◌, ◌*◌, ◌/◌, ◌^◌, ◌<◌, ◌≤◌, ◌⊎◌, ◌↔◌, IsTrue, IfOk, IfSome};
ghost use Rattle.std.specs.Prelude.{OnOk, false, [], length};
ghost use Rattle.mesh_defs.specs.Triangle.{IsSplittable};
ghost use Rattle.mesh_defs.specs.State.{priority_seen};
ghost use Rattle.mesh_defs.specs.declared.level.TheConstants.{GREATEST_LEVEL};
ghost use Rattle.mesh_laws.specs.Sweep.{is_flagged};
ghost use Rattle.certificate_laws.specs.Certificate.{named_in, AreReasons, AreAllReasons};
ghost use Rattle.roam_certify.specs.Making.{IsListed, IsPushed, IsCause, HasCauses, AreGrownReasons, AreWanted, IsQueue};

use address_flags::{end, flag, is_set};
use bintree_addr::Tri;
use certificate_laws::{Kind, Reason};
use mesh_defs::NoMemory;
use plain_mesh::falling_laws;
use std::alloc::Global;
use view_priority::Scene;

/// What is listed: at most `limit` triangles of a grid of level `n`, and all that a mesh with this worst wants.
#[derive(Drop)]
struct Wants<'a> {
    n: u32,
    limit: usize,
    scene: &'a Scene<'a>,
    worst: u64,
}

/// Reasons, and a flag for each of their triangles.
#[derive(Drop)]
struct Listing<'a> {
    flags: &'a mut [bool],
    reasons: Vec<Reason>,
}

/// Reasons for a mesh with this worst: one fewer than the budget, or all that there are.
///
/// The flags are those of no triangle at first, and at the end those of the reasons.
pub fn make_reasons(
    alloc: Global,
    n: u32,
    flags: &mut [bool],
    scene: &Scene<'_>,
    worst: u64,
    budget: u32,
) -> Result<Vec<Reason>, NoMemory>
    requires in_grid { (1 ≤ n) × (n ≤ GREATEST_LEVEL) }
    requires room { length flags.old ≡ 2 ^ (2 * n + 1) }
    requires grid { scene.now.grid.n ≡ n }
    requires empty { (a : ℕ) → is_flagged flags.old a ≡ false }
    requires budget { 2 ≤ budget }
    ensures reasoned { IfOk result (λ v. AreReasons n (priority_seen scene.now) worst [] v.items) }
    ensures few { IfOk result (λ v. length v.items + 1 ≤ budget) }
    ensures enough { IfOk result (λ v. (budget ≤ length v.items + 1)
        ⊎ AreAllReasons n (priority_seen scene.now) worst v.items) }
{
    let wants = Wants {
        n,
        limit: budget as usize - 1,
        scene,
        worst,
    };
    let mut listing = Listing {
        flags,
        reasons: Vec::new(alloc),
    };
    listing.push_wants(&wants)?;
    listing.follow(&wants)?;
    let Listing { flags: _, reasons } = listing;
    Ok(reasons)
}

impl Listing<'_> {
    /// Lists each triangle whose priority is at least the worst, until the list is full.
    ///
    /// A priority is asked only below what is listed: the others have less than the worst too.
    fn push_wants(&mut self, wants: &Wants<'_>) -> Result<(), NoMemory>
        requires listed { IsListed wants.now self.old }
        ensures listed { OnOk result (IsListed wants.now self.new) }
        ensures wanted { OnOk result (AreWanted wants.now (2 ^ (2 * wants.now.n + 1)) self.new.reasons.items) }
    {
        for number in 2..end(wants.n) {
            if self.reasons.len() >= wants.limit {
                return Ok(());
            }
            let t = Tri::at(number).unwrap();
            self.push_wanted(wants, t)?;
        }
        Ok(())
    }

    /// Lists a triangle if its priority is at least the worst, where those before it are listed.
    fn push_wanted(&mut self, wants: &Wants<'_>, t: Tri) -> Result<(), NoMemory>
        requires listed { IsListed wants.now self.old }
        requires splittable { IsSplittable wants.now.n t }
        requires before { AreWanted wants.now t self.old.reasons.items }
        ensures listed { OnOk result (IsListed wants.now self.new) }
        ensures grown { OnOk result (AreGrownReasons self.old.reasons.items self.new.reasons.items) }
        ensures wanted { OnOk result (length self.new.reasons.items < wants.now.limit →
            wants.now.worst ≤ priority_seen wants.now.scene.now t → IsTrue (named_in self.new.reasons.items t)) }
    {
        falling_laws();
        let flags = &mut *self.flags;
        if !may_be_wanted(flags, t) {
            return Ok(());
        }
        let priority = wants.scene.priority(t);
        if priority < wants.worst {
            return Ok(());
        }
        self.push_new(wants.limit, Kind::Want, t)?;
        Ok(())
    }

    /// Lists the causes of each listed triangle, those of the new ones too.
    fn follow(&mut self, wants: &Wants<'_>) -> Result<(), NoMemory>
        requires listed { IsListed wants.now self.old }
        ensures listed { OnOk result (IsListed wants.now self.new) }
        ensures grown { OnOk result (AreGrownReasons self.old.reasons.items self.new.reasons.items) }
        ensures queue { OnOk result (IsQueue wants.now (length self.new.reasons.items) self.new.reasons.items) }
    {
        let mut next = 0;
        while next < self.reasons.len() && self.reasons.len() < wants.limit {
            let t = self.reasons[next].triangle;
            self.push_causes(wants, t)?;
            next += 1;
        }
        Ok(())
    }

    /// Lists the parent and the mate of a listed triangle.
    fn push_causes(&mut self, wants: &Wants<'_>, t: Tri) -> Result<(), NoMemory>
        requires listed { IsListed wants.now self.old }
        requires named { IsTrue (named_in self.old.reasons.items t) }
        ensures listed { OnOk result (IsListed wants.now self.new) }
        ensures grown { OnOk result (AreGrownReasons self.old.reasons.items self.new.reasons.items) }
        ensures causes { OnOk result (length self.new.reasons.items < wants.now.limit →
            HasCauses wants.now.n self.new.reasons.items t) }
    {
        self.push_cause(wants, Kind::Parent, t.parent())?;
        self.push_cause(wants, Kind::Mate, t.mate(wants.n))?;
        Ok(())
    }

    /// Lists a cause of a listed triangle, where it has one.
    fn push_cause(
        &mut self,
        wants: &Wants<'_>,
        kind: Kind,
        cause: Option<Tri>,
    ) -> Result<(), NoMemory>
        requires listed { IsListed wants.now self.old }
        requires cause { IfSome cause (IsCause wants.now self.old.reasons.items kind) }
        ensures listed { OnOk result (IsListed wants.now self.new) }
        ensures grown { OnOk result (AreGrownReasons self.old.reasons.items self.new.reasons.items) }
        ensures named { OnOk result (length self.new.reasons.items < wants.now.limit →
            IfSome cause (λ a. IsTrue (named_in self.new.reasons.items a))) }
    {
        match cause {
            None => Ok(()),
            Some(t) => {
                self.push_new(wants.limit, kind, t)?;
                Ok(())
            }
        }
    }

    /// Lists a triangle, unless it is listed or the list is full.
    fn push_new(&mut self, limit: usize, kind: Kind, t: Tri) -> Result<(), NoMemory>
        requires room { t < length self.old.flags.now }
        ensures pushed { OnOk result (IsPushed limit kind t self.old self.new) }
    {
        let flags = &mut *self.flags;
        if self.reasons.len() < limit && !flags[t.number() as usize] {
            self.reasons.push(Reason { kind, triangle: t })?;
            flag(flags, t);
        }
        Ok(())
    }
}

/// Whether the triangle has no parent, or a flagged one.
fn may_be_wanted(flags: &[bool], t: Tri) -> bool
    ensures value { result ≡ false ↔ ((4 ≤ t) × (is_flagged flags.now (t / 2) ≡ false)) }
{
    match t.parent() {
        None => true,
        Some(parent) => is_set(flags, parent),
    }
}
