//! Splitting what is too far off, in any order, with a reason for each split.

ghost use Rattle.std.specs.Prelude.{◌≡◌, ◌+◌, ◌-◌, ◌*◌, ◌/◌, ◌^◌, ◌<◌, ◌≤◌, ◌||◌, true, false, IsTrue, All};
ghost use Rattle.std.specs.Prelude.{IfOk, OnOk, length};
ghost use Rattle.mesh_defs.specs.Triangle.{level_of, IsAddress, IsSplittable};
ghost use Rattle.mesh_defs.specs.ClosedSet.{IsClosed, leaves_under, leaves_of};
ghost use Rattle.mesh_defs.specs.Priority.{worst_of};
ghost use Rattle.mesh_defs.specs.declared.level.TheConstants.{GREATEST_FILE_LEVEL};
ghost use Rattle.mesh_laws.specs.Sweep.{is_flagged};
ghost use Rattle.fit_laws.specs.Error.{error_of};
ghost use Rattle.certificate_laws.specs.FitCertificate.{LeadsTo};
ghost use Rattle.certificate_laws.specs.declared.limits.TheConstants.{MOST_REASONS};
ghost use Rattle.fit_certify.specs.Settling.{AreKnown, IsReady, IsSame, IsPass, IsWithin, IsSettled};

use crate::force::force;
use crate::known::point_off;
use address_flags::is_set;
use bintree_addr::Tri;
use certificate_laws::Witness;
use mesh_defs::NoMemory;
use pgm_grid::Grid;
use std::alloc::Global;

/// A grid, how far off a leaf may be, and how far those are at most that are not measured again.
#[derive(Drop)]
struct Bounds<'a> {
    grid: &'a Grid,
    tolerance: u32,
    lower: u32,
}

/// What is split, which triangles are known to be within the lower bound, and the reasons so far.
#[derive(Drop)]
struct Settling<'a> {
    flags: &'a mut [bool],
    known: &'a mut [bool],
    reasons: &'a mut Vec<Witness>,
}

/// Splits each leaf that is off by more than the tolerance, with what that forces, until none is. Answers the reasons.
///
/// Leaves that are found to be off by no more than `lower` are known from then on, and are not measured again.
/// Cost (not proved): the error of each triangle that is split or a leaf, once; a few passes over the mesh, in each a
/// step for each triangle that is split or a leaf, and the errors of the leaves that are off by more than `lower`.
pub(crate) fn settle(
    alloc: Global,
    grid: &Grid,
    tolerance: u32,
    lower: u32,
    flags: &mut [bool],
    known: &mut [bool],
) -> Result<Vec<Witness>, NoMemory>
    requires file_level { grid.now.n ≤ GREATEST_FILE_LEVEL }
    requires lower { lower ≤ tolerance }
    requires flags { length flags.old ≡ 2 ^ (2 * grid.now.n + 1) }
    requires closed { IsClosed grid.now.n (is_flagged flags.old) }
    requires room { length known.old ≡ 2 ^ (2 * grid.now.n + 1) }
    requires known { AreKnown grid.now.n grid.now.heights lower known.old }
    ensures room { length known.new ≡ length known.old }
    ensures known { AreKnown grid.now.n grid.now.heights lower known.new }
    ensures flags { length flags.new ≡ length flags.old }
    ensures leads { IfOk result (λ v. LeadsTo grid.now.n grid.now.heights tolerance
        (is_flagged flags.old) v.items (is_flagged flags.new)) }
    ensures within { OnOk result (worst_of (error_of grid.now.n grid.now.heights)
        (leaves_of grid.now.n (is_flagged flags.new)) ≤ tolerance) }
    ensures few { IfOk result (λ v. length v.items ≤ MOST_REASONS) }
{
    let bounds = Bounds {
        grid,
        tolerance,
        lower,
    };
    let mut reasons = Vec::new(alloc);
    let mut settling = Settling {
        flags,
        known,
        reasons: &mut reasons,
    };
    let mut again = true;
    while again {
        again = settling.sweep(&bounds)?;
    }
    Ok(reasons)
}

impl Settling<'_> {
    /// Splits each of these leaves, and of what comes with that, depth first. Answers whether there was one.
    fn sweep(&mut self, bounds: &Bounds<'_>) -> Result<bool, NoMemory>
        requires ready { IsReady bounds.now self.old }
        ensures same { IsSame self.old self.new }
        ensures ready { IsReady bounds.now self.new }
        ensures pass { IfOk result (IsPass bounds.now self.old self.new) }
        ensures none { IfOk result (λ again. again ≡ false → IsSettled bounds.now self.new) }
    {
        let _level = bounds.grid.n();
        let below = self.sweep_under(bounds, Tri::LOWER)?;
        let above = self.sweep_under(bounds, Tri::UPPER)?;
        Ok(either(below, above))
    }

    /// Splits each of these leaves that is the triangle or lies in it. The triangle's parent is split.
    fn sweep_under(&mut self, bounds: &Bounds<'_>, t: Tri) -> Result<bool, NoMemory>
        requires address { IsAddress bounds.now.grid.now.n t }
        requires parent { 4 ≤ t → IsTrue (is_flagged self.old.flags.now (t / 2)) }
        requires ready { IsReady bounds.now self.old }
        ensures same { IsSame self.old self.new }
        ensures ready { IsReady bounds.now self.new }
        ensures pass { IfOk result (IsPass bounds.now self.old self.new) }
        ensures none { IfOk result (λ again. again ≡ false → All (IsWithin bounds.now)
            (leaves_under (2 * bounds.now.grid.now.n - level_of t) (is_flagged self.new.flags.now) t)) }
    {
        if t.level() >= 2 * bounds.grid.n() {
            return Ok(false);
        }
        let is_off = self.split_leaf(bounds, t)?;
        let flags = &mut *self.flags;
        if !is_set(flags, t) {
            return Ok(is_off);
        }
        let left = self.sweep_under(bounds, t.left())?;
        let right = self.sweep_under(bounds, t.right())?;
        Ok(either(is_off, either(left, right)))
    }

    /// Splits the triangle, if it is such a leaf. Its parent is split. Answers whether it is one.
    fn split_leaf(&mut self, bounds: &Bounds<'_>, t: Tri) -> Result<bool, NoMemory>
        requires splittable { IsSplittable bounds.now.grid.now.n t }
        requires parent { 4 ≤ t → IsTrue (is_flagged self.old.flags.now (t / 2)) }
        requires ready { IsReady bounds.now self.old }
        ensures same { IsSame self.old self.new }
        ensures ready { IsReady bounds.now self.new }
        ensures pass { IfOk result (IsPass bounds.now self.old self.new) }
        ensures none { IfOk result (λ is. is ≡ false →
            is_flagged self.new.flags.now t ≡ false → IsWithin bounds.now t) }
    {
        let flags = &mut *self.flags;
        if is_set(flags, t) {
            return Ok(false);
        }
        match point_off(bounds.grid, t, bounds.tolerance, bounds.lower, self.known) {
            None => Ok(false),
            Some(point) => {
                self.reasons.push(Witness {
                    triangle: t,
                    x: point.x,
                    y: point.y,
                })?;
                force(flags, bounds.grid.n(), t);
                Ok(true)
            }
        }
    }
}

/// Whether one of them is true.
fn either(one: bool, other: bool) -> bool
    ensures { result ≡ (one || other) }
{
    one || other
}
