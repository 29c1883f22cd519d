//! Worked examples of the definitions on the grid of 5 points a side: each was worked by hand, and the check computes
//! it.
//!
//! A function's clauses are the facts that its name tells; its body has nothing to do.

ghost use Rattle.std.specs.Prelude.{◌≡◌, ℕ, ◌+◌, ◌<◌, List, [], ◌∷◌, false, true, length, All, Some, None, pos};
ghost use Rattle.mesh_defs.specs.ClosedSet.{among};
ghost use Rattle.mesh_defs.specs.BoundingBox.{CameraAt};
ghost use Rattle.mesh_defs.specs.View.{View};
ghost use Rattle.mesh_defs.specs.Priority.{priority_of};
ghost use Rattle.mesh_laws.specs.Diamond.{CanMerge};
ghost use Rattle.mesh_laws.specs.Lead.{IsLead, IsLastLead};
ghost use Rattle.mesh_laws.specs.Steps.{leaf_count, DoesNotFit, IsSplitStep, IsMergeStep, IsFrameRun, AreLoose};
ghost use Rattle.mesh_laws.specs.Deferred.{LeafStraddles, DiamondStraddles};
ghost use Rattle.mesh_laws.specs.Stamps.{Stamp, Readings, is_due, counted_stamp};
ghost use Rattle.mesh_laws.specs.Table.{told_by};

/// Two peaks in file order, the first row the uppermost: height 10 at (3, 4) and at (1, 0).
const TWO_PEAKS: [u16; 25] = [
    0, 0, 0, 10, 0, 0, 0, 0, 0, 0, 0, 0, 0, 0, 0, 0, 0, 0, 0, 0, 0, 10, 0, 0, 0,
];
/// The splittable triangles of the grid.
const SPLITTABLE: [u32; 30] = [
    2, 3, 4, 5, 6, 7, 8, 9, 10, 11, 12, 13, 14, 15, 16, 17, 18, 19, 20, 21, 22, 23, 24, 25, 26, 27,
    28, 29, 30, 31,
];
/// The peaks seen from (4, 4, 0): the priority of each address below 26; the others have none.
const FROM_UPPER_RIGHT: [u32; 26] = [
    0, 0, 1310720, 1310720, 436906, 0, 1310720, 0, 436906, 0, 0, 0, 1310720, 0, 0, 0, 0, 327680, 0,
    0, 0, 0, 0, 0, 0, 1310720,
];
/// The ranking of the latter.
const RANKING: [u32; 8] = [2, 3, 6, 12, 25, 4, 8, 17];

/// The first frame's set, with (1, 0) as a vertex, and the sets after each step of the second frame.
const FIRST: [u32; 7] = [2, 3, 4, 5, 8, 11, 17];

const WITHOUT_17: [u32; 6] = [2, 3, 4, 5, 8, 11];

const WITH_6: [u32; 7] = [2, 3, 4, 5, 6, 8, 11];

const WITHOUT_8: [u32; 5] = [2, 3, 4, 5, 6];

const WITHOUT_5: [u32; 4] = [2, 3, 4, 6];

const WITH_12: [u32; 7] = [2, 3, 4, 6, 7, 12, 15];

const WITHOUT_4: [u32; 6] = [2, 3, 6, 7, 12, 15];

const SECOND: [u32; 7] = [2, 3, 6, 7, 12, 15, 25];

/// Priority 1 for 2, 5 and 10.
const LEFT_ALONE: [u32; 11] = [0, 0, 1, 0, 0, 1, 0, 0, 0, 0, 1];
/// A set with 4 and 6, and the sets after each step of the frame of 8 leaves.
const WITH_4_AND_6: [u32; 4] = [2, 3, 4, 6];

const AND_5: [u32; 5] = [2, 3, 4, 5, 6];

const LESS_6: [u32; 4] = [2, 3, 4, 5];

const LESS_4: [u32; 3] = [2, 3, 5];

const AND_10: [u32; 6] = [2, 3, 5, 6, 10, 13];

/// Priorities 3, 2 and 1 for 2, 4 and 5.
const FALLING: [u32; 6] = [0, 0, 3, 0, 2, 1];

/// The numbers of addresses that the second frame splits and merges.
const SECOND_SPLITS: u32 = 5;

const SECOND_MERGES: u32 = 5;
/// Those of the frame in which 6 is merged and comes back by force: one split more than addresses that are new.
const FORCED_SPLITS: u32 = 4;

const FORCED_MERGES: u32 = 2;

/// The second frame's priorities are those of the peaks seen from (4, 4, 0), with spacing 1 and no plane.
fn the_priorities_are_those_of_two_peaks()
    ensures { let camera : CameraAt = record { x = pos 4; y = pos 4; z = pos 0 } in
        let view : View = record { camera = camera; spacing = 1; planes = []; threshold = 0 } in
        All (λ a. told_by FROM_UPPER_RIGHT a ≡ priority_of 2 TWO_PEAKS view a) SPLITTABLE }
{}

fn the_second_frame_of_two_peaks_takes_these_steps()
    ensures merge_17 { (step : IsMergeStep 2 9 (told_by FROM_UPPER_RIGHT) FIRST WITHOUT_17) × (step.diamond ≡ 17) }
    ensures split_6 { (step : IsSplitStep 2 9 (told_by FROM_UPPER_RIGHT) WITHOUT_17 WITH_6) × (step.leaf ≡ 6) }
    ensures merge_8_with_11 { (step : IsMergeStep 2 9 (told_by FROM_UPPER_RIGHT) WITH_6 WITHOUT_8)
        × (step.diamond ≡ 8) }
    ensures merge_5 { (step : IsMergeStep 2 9 (told_by FROM_UPPER_RIGHT) WITHOUT_8 WITHOUT_5) × (step.diamond ≡ 5) }
    ensures split_12_with_15_and_7 { (step : IsSplitStep 2 9 (told_by FROM_UPPER_RIGHT) WITHOUT_5 WITH_12)
        × (step.leaf ≡ 12) }
    ensures merge_4 { (step : IsMergeStep 2 9 (told_by FROM_UPPER_RIGHT) WITH_12 WITHOUT_4) × (step.diamond ≡ 4) }
    ensures split_25 { (step : IsSplitStep 2 9 (told_by FROM_UPPER_RIGHT) WITHOUT_4 SECOND) × (step.leaf ≡ 25) }
    ensures blocked_by_4 { DoesNotFit 2 9 (told_by FROM_UPPER_RIGHT) SECOND 4 }
    ensures counts { IsFrameRun 2 9 (told_by FROM_UPPER_RIGHT) FIRST SECOND SECOND_SPLITS SECOND_MERGES }
{}

/// 5 is split, and then 10 needs room: 6 and 4 are merged, and 6 comes back with 13, the mate of 10.
fn a_merged_diamond_may_come_back_by_force()
    ensures split_5 { (step : IsSplitStep 2 8 (told_by LEFT_ALONE) WITH_4_AND_6 AND_5) × (step.leaf ≡ 5) }
    ensures merge_6 { (step : IsMergeStep 2 8 (told_by LEFT_ALONE) AND_5 LESS_6) × (step.diamond ≡ 6) }
    ensures merge_4 { (step : IsMergeStep 2 8 (told_by LEFT_ALONE) LESS_6 LESS_4) × (step.diamond ≡ 4) }
    ensures split_10_with_13_and_6 { (step : IsSplitStep 2 8 (told_by LEFT_ALONE) LESS_4 AND_10) × (step.leaf ≡ 10) }
    ensures counts { IsFrameRun 2 8 (told_by LEFT_ALONE) WITH_4_AND_6 AND_10 FORCED_SPLITS FORCED_MERGES }
{}

/// Six leaves and a budget of 5: the last diamond is merged, and then split no more.
fn a_frame_over_the_budget_merges_the_last_diamond()
    ensures too_many { leaf_count 2 LESS_6 ≡ 6 }
    ensures counts { IsFrameRun 2 5 (told_by FALLING) LESS_6 (2 ∷ 3 ∷ 4 ∷ []) 0 1 }
{}

/// Where nothing is wanted all is merged, 4 before 2 with 3.
fn a_frame_of_priorities_0_merges_all()
    ensures { IsFrameRun 2 9 (told_by []) (2 ∷ 3 ∷ 4 ∷ []) [] 0 3 }
{}

/// 8 and 11 are a diamond: where their priorities differ the greater leads, and else the lesser address.
fn the_better_triangle_leads()
    ensures lead { IsLead 2 (told_by FROM_UPPER_RIGHT) (among WITH_6) 8 }
    ensures other { IsLead 2 (told_by FROM_UPPER_RIGHT) (among WITH_6) 11 → ⊥ }
    ensures tie { IsLead 2 (told_by []) (among WITH_6) 8 }
    ensures last { IsLastLead 2 (told_by FROM_UPPER_RIGHT) (among FIRST) 17 }
    ensures not_mergeable { CanMerge 2 (among FIRST) 8 → ⊥ }
{}

/// Of the first frame's members all but 2 and 3 are loose in the second: 5 of them, as many as are merged.
fn members_without_a_chosen_triangle_are_loose()
    ensures { AreLoose 2 RANKING 5 FIRST (4 ∷ 5 ∷ 8 ∷ 11 ∷ 17 ∷ []) }
{}

/// A stamp that was taken at odometer 10 with slack 2.
fn a_stamp_is_due_past_its_slack()
    ensures within { let stamp : Stamp = record { odometer = 10; slack = 2; upper = 7; lower = 5; expired = false } in
        is_due 12 (Some stamp) ≡ false }
    ensures past { let stamp : Stamp = record { odometer = 10; slack = 2; upper = 7; lower = 5; expired = false } in
        is_due 13 (Some stamp) ≡ true }
    ensures expired { let stamp : Stamp = record { odometer = 10; slack = 2; upper = 7; lower = 5; expired = true } in
        is_due 12 (Some stamp) ≡ true }
    ensures absent { is_due 12 None ≡ true }
    ensures counted { let stamp : Stamp = record { odometer = 10; slack = 2; upper = 7; lower = 5; expired = false } in
        let readings : Readings = record { slack = λ a. 3; upper = λ a. 9; lower = λ a. 8 } in
        (counted_stamp readings 12 (λ a. Some stamp) 4).upper ≡ 7 }
    ensures renewed { let stamp : Stamp = record { odometer = 10; slack = 2; upper = 7; lower = 5; expired = false } in
        let readings : Readings = record { slack = λ a. 3; upper = λ a. 9; lower = λ a. 8 } in
        (counted_stamp readings 13 (λ a. Some stamp) 4).upper ≡ 9 }
{}

/// After the second frame nothing has moved: of its leaves only 4, which blocks, straddles by its priority; and a
/// leaf of priority 0 does by an upper bound of 436907. 17 is merged in that frame, so that its diamond straddles
/// there.
fn what_straddles_in_the_frames_of_two_peaks()
    ensures blocking { LeafStraddles (told_by FROM_UPPER_RIGHT) RANKING 5 (told_by FROM_UPPER_RIGHT) 4 }
    ensures behind { LeafStraddles (told_by FROM_UPPER_RIGHT) RANKING 5 (told_by FROM_UPPER_RIGHT) 5 → ⊥ }
    ensures wide { LeafStraddles (told_by FROM_UPPER_RIGHT) RANKING 5 (λ a. 436907) 5 }
    ensures merged { DiamondStraddles 2 9 (told_by FROM_UPPER_RIGHT) FIRST (told_by FROM_UPPER_RIGHT) 17 }
{}

#[test]
fn steps_are_as_worked_by_hand() {
    the_priorities_are_those_of_two_peaks();
    the_second_frame_of_two_peaks_takes_these_steps();
    a_merged_diamond_may_come_back_by_force();
    a_frame_over_the_budget_merges_the_last_diamond();
    a_frame_of_priorities_0_merges_all();
    the_better_triangle_leads();
    members_without_a_chosen_triangle_are_loose();
}

#[test]
fn bounds_are_as_worked_by_hand() {
    a_stamp_is_due_past_its_slack();
    what_straddles_in_the_frames_of_two_peaks();
}
