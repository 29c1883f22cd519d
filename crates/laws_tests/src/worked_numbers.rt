//! The values of the definitions on small grids, each worked by hand and then computed by the check.
//!
//! A function's clauses are the facts that its name tells; its body has nothing to do.

#![tactic(auto, unfolding(mesh_defs::specs::Triangle::level_of, mesh_defs::specs::Triangle::corners_of, mesh_defs::specs::ClosedSet::leaves_of, mesh_defs::specs::Thickness::thickness_of, mesh_defs::specs::BoundingBox::points_of, mesh_defs::specs::BoundingBox::low_of, mesh_defs::specs::BoundingBox::high_of, mesh_defs::specs::BoundingBox::box_of, mesh_defs::specs::BoundingBox::root_of, mesh_defs::specs::BoundingBox::distance_of, mesh_defs::specs::View::mark_of, mesh_defs::specs::Priority::priority_of, mesh_defs::specs::MeshText::vertices_of, mesh_defs::specs::MeshText::mesh_text,))]

ghost use Rattle.std.specs.Prelude.{◌≡◌, ℕ, ◌-◌, ◌^◌, List, [], ◌∷◌, pos, negsuc};
ghost use Rattle.mesh_defs.specs.HeightField.{height_at};
ghost use Rattle.mesh_defs.specs.Triangle.{level_of, corners_of, IsMate, HasBorderBase};
ghost use Rattle.mesh_defs.specs.ClosedSet.{IsClosed, IsLeastClosed, leaves_of, among};
ghost use Rattle.mesh_defs.specs.Thickness.{thickness_of};
ghost use Rattle.mesh_defs.specs.BoundingBox.{CameraAt, box_of, distance_of, low_of, high_of, point, root_of};
ghost use Rattle.mesh_defs.specs.View.{View, ViewPlane};
ghost use Rattle.mesh_defs.specs.Priority.{priority_of, worst_of};
ghost use Rattle.mesh_defs.specs.Ranking.{IsRanking, IsRankClosure, IsBlockedBy};
ghost use Rattle.mesh_defs.specs.Greedy.{IsGreedyEnd};
ghost use Rattle.mesh_defs.specs.MeshText.{mesh_text, vertices_of, triangle_mark};

use mesh_defs::Mark;

/// Three points a side in file order, the first the upper left one: all of height 0.
const FLAT: [u16; 9] = [0, 0, 0, 0, 0, 0, 0, 0, 0];
/// Height 10 in the middle, at (1, 1).
const MIDDLE: [u16; 9] = [0, 0, 0, 0, 10, 0, 0, 0, 0];
/// Height 10 in the middle of the lower side, at (1, 0).
const LOWER_SIDE: [u16; 9] = [0, 0, 0, 0, 0, 0, 0, 10, 0];
/// Height 1 in the lower left corner, at (0, 0).
const LOWER_LEFT: [u16; 9] = [0, 0, 0, 0, 0, 0, 1, 0, 0];
/// Height 5 in the upper left corner, at (0, 2).
const UPPER_LEFT: [u16; 9] = [5, 0, 0, 0, 0, 0, 0, 0, 0];
/// Heights that rise from sample to sample: the lower side has 9, 10 and 11.
const RISING: [u16; 9] = [3, 4, 5, 6, 7, 8, 9, 10, 11];

/// Five points a side: height 10 at (1, 0), near the lower left corner.
const CORNER: [u16; 25] = [
    0, 0, 0, 0, 0, 0, 0, 0, 0, 0, 0, 0, 0, 0, 0, 0, 0, 0, 0, 0, 0, 10, 0, 0, 0,
];
/// Height 10 at (1, 0) and in the middle, at (2, 2).
const CORNER_AND_MIDDLE: [u16; 25] = [
    0, 0, 0, 0, 0, 0, 0, 0, 0, 0, 0, 0, 10, 0, 0, 0, 0, 0, 0, 0, 0, 10, 0, 0, 0,
];
/// Height 10 at (1, 0) and at (3, 4).
const TWO_CORNERS: [u16; 25] = [
    0, 0, 0, 10, 0, 0, 0, 0, 0, 0, 0, 0, 0, 0, 0, 0, 0, 0, 0, 0, 0, 10, 0, 0, 0,
];

/// The triangles that are split so that (1, 0) is a vertex.
const SPLIT: [u32; 7] = [2, 3, 4, 5, 8, 11, 17];
/// The splittable triangles of positive priority in rank order, seen from (0, 0, 0).
const RANKING: [u32; 4] = [2, 4, 8, 17];
/// The leaves of the split triangles, depth first.
const LEAVES: [u32; 9] = [16, 34, 35, 9, 10, 22, 23, 6, 7];

/// The split triangles without 17, and their leaves.
const FORCED_BY_8: [u32; 6] = [2, 3, 4, 5, 8, 11];

const EIGHT_LEAVES: [u32; 8] = [16, 17, 9, 10, 22, 23, 6, 7];

/// The triangles that are split so that (3, 4) is a vertex, and their leaves.
const OTHER_SPLIT: [u32; 7] = [2, 3, 6, 7, 12, 15, 25];

const OTHER_LEAVES: [u32; 9] = [4, 5, 24, 50, 51, 13, 14, 30, 31];

const FLAT_TEXT: [u8; 48] = *b"v 0 0 0\nv 2 0 0\nv 0 2 0\nv 2 2 0\nf 1 2 3\nf 4 3 2\n";

const MIDDLE_TEXT: [u8; 73] =
    *b"v 0 0 0\nv 2 0 0\nv 1 1 10\nv 0 2 0\nv 2 2 0\nf 3 1 2\nf 3 4 1\nf 3 5 4\n\
      f 3 2 5\n";

const SPACED_TEXT: [u8; 52] = *b"v 0 0 0\nv 60 0 0\nv 0 60 0\nv 60 60 0\nf 1 2 3\nf 4 3 2\n";

const UPPER_LEFT_TEXT: [u8; 48] = *b"v 0 0 0\nv 2 0 0\nv 0 2 5\nv 2 2 0\nf 1 2 3\nf 4 3 2\n";

const CORNER_TEXT: [u8; 145] =
    *b"v 0 0 0\nv 1 0 10\nv 2 0 0\nv 4 0 0\nv 1 1 0\nv 0 2 0\nv 2 2 0\nv 0 4 0\n\
      v 4 4 0\nf 5 3 7\nf 2 5 1\nf 2 3 5\nf 3 4 7\nf 6 7 8\nf 5 6 1\nf 5 7 6\n\
      f 7 9 8\nf 7 4 9\n";

const MARKED_TEXT: [u8; 95] =
    *b"v 0 0 0\nv 2 0 0\nv 1 1 10\nv 0 2 0\nv 2 2 0\ng cut\nf 3 1 2\ng outside\n\
      f 3 4 1\ng cut\nf 3 5 4\nf 3 2 5\n";

const INSIDE_TEXT: [u8; 57] = *b"v 0 0 0\nv 2 0 0\nv 0 2 0\nv 2 2 0\ng inside\nf 1 2 3\nf 4 3 2\n";

fn a_child_is_one_level_below_its_parent()
    ensures level_2 { level_of 2 ≡ 0 }
    ensures level_3 { level_of 3 ≡ 0 }
    ensures level_4 { level_of 4 ≡ 1 }
    ensures level_7 { level_of 7 ≡ 1 }
    ensures level_8 { level_of 8 ≡ 2 }
    ensures level_15 { level_of 15 ≡ 2 }
    ensures level_17 { level_of 17 ≡ 3 }
    ensures level_35 { level_of 35 ≡ 4 }
    ensures level_last { level_of 16777215 ≡ 22 }
{}

fn the_first_sample_is_the_upper_left_point()
    ensures upper_left { height_at 1 UPPER_LEFT 0 2 ≡ 5 }
    ensures lower_side { height_at 1 LOWER_SIDE 1 0 ≡ 10 }
    ensures lower_left { height_at 1 LOWER_LEFT 0 0 ≡ 1 }
    ensures near_the_lower_left { height_at 2 TWO_CORNERS 1 0 ≡ 10 }
    ensures near_the_upper_right { height_at 2 TWO_CORNERS 3 4 ≡ 10 }
{}

fn base_triangles_and_their_children_have_these_corners()
    ensures corners_2 { corners_of 2 2 ≡ record { apex = point 0 0; v0 = point 4 0; v1 = point 0 4 } }
    ensures corners_3 { corners_of 2 3 ≡ record { apex = point 4 4; v0 = point 0 4; v1 = point 4 0 } }
    ensures corners_4 { corners_of 2 4 ≡ record { apex = point 2 2; v0 = point 0 0; v1 = point 4 0 } }
    ensures corners_5 { corners_of 2 5 ≡ record { apex = point 2 2; v0 = point 0 4; v1 = point 0 0 } }
    ensures corners_6 { corners_of 2 6 ≡ record { apex = point 2 2; v0 = point 4 4; v1 = point 0 4 } }
    ensures corners_7 { corners_of 2 7 ≡ record { apex = point 2 2; v0 = point 4 0; v1 = point 4 4 } }
{}

fn level_two_has_these_corners()
    ensures corners_8 { corners_of 2 8 ≡ record { apex = point 2 0; v0 = point 2 2; v1 = point 0 0 } }
    ensures corners_9 { corners_of 2 9 ≡ record { apex = point 2 0; v0 = point 4 0; v1 = point 2 2 } }
    ensures corners_10 { corners_of 2 10 ≡ record { apex = point 0 2; v0 = point 2 2; v1 = point 0 4 } }
    ensures corners_11 { corners_of 2 11 ≡ record { apex = point 0 2; v0 = point 0 0; v1 = point 2 2 } }
    ensures corners_12 { corners_of 2 12 ≡ record { apex = point 2 4; v0 = point 2 2; v1 = point 4 4 } }
    ensures corners_13 { corners_of 2 13 ≡ record { apex = point 2 4; v0 = point 0 4; v1 = point 2 2 } }
    ensures corners_14 { corners_of 2 14 ≡ record { apex = point 4 2; v0 = point 2 2; v1 = point 4 0 } }
    ensures corners_15 { corners_of 2 15 ≡ record { apex = point 4 2; v0 = point 4 4; v1 = point 2 2 } }
{}

fn deeper_triangles_have_these_corners()
    ensures corners_16 { corners_of 2 16 ≡ record { apex = point 1 1; v0 = point 2 0; v1 = point 2 2 } }
    ensures corners_17 { corners_of 2 17 ≡ record { apex = point 1 1; v0 = point 0 0; v1 = point 2 0 } }
    ensures corners_22 { corners_of 2 22 ≡ record { apex = point 1 1; v0 = point 0 2; v1 = point 0 0 } }
    ensures corners_23 { corners_of 2 23 ≡ record { apex = point 1 1; v0 = point 2 2; v1 = point 0 2 } }
    ensures corners_34 { corners_of 2 34 ≡ record { apex = point 1 0; v0 = point 1 1; v1 = point 0 0 } }
    ensures corners_35 { corners_of 2 35 ≡ record { apex = point 1 0; v0 = point 2 0; v1 = point 1 1 } }
{}

/// 34 and 45 are finest triangles: they have mates too.
fn mates_share_their_base()
    ensures mates_2_3 { IsMate 2 2 3 }
    ensures mates_3_2 { IsMate 2 3 2 }
    ensures mates_8_11 { IsMate 2 8 11 }
    ensures mates_11_8 { IsMate 2 11 8 }
    ensures mates_9_14 { IsMate 2 9 14 }
    ensures mates_10_13 { IsMate 2 10 13 }
    ensures mates_12_15 { IsMate 2 12 15 }
    ensures mates_16_19 { IsMate 2 16 19 }
    ensures mates_34_45 { IsMate 2 34 45 }
{}

fn bases_on_the_border()
    ensures border_4 { HasBorderBase 2 4 }
    ensures border_5 { HasBorderBase 2 5 }
    ensures border_6 { HasBorderBase 2 6 }
    ensures border_7 { HasBorderBase 2 7 }
    ensures border_17 { HasBorderBase 2 17 }
{}

fn thickness_adds_the_deviations_down_to_the_finest()
    ensures middle_2 { thickness_of 1 MIDDLE 2 ≡ 20 }
    ensures middle_3 { thickness_of 1 MIDDLE 3 ≡ 20 }
    ensures middle_4 { thickness_of 1 MIDDLE 4 ≡ 0 }
    ensures middle_8 { thickness_of 1 MIDDLE 8 ≡ 0 }
    ensures lower_side_2 { thickness_of 1 LOWER_SIDE 2 ≡ 20 }
    ensures lower_side_3 { thickness_of 1 LOWER_SIDE 3 ≡ 0 }
    ensures lower_side_4 { thickness_of 1 LOWER_SIDE 4 ≡ 20 }
    ensures upper_left_2 { thickness_of 1 UPPER_LEFT 2 ≡ 10 }
    ensures upper_left_3 { thickness_of 1 UPPER_LEFT 3 ≡ 10 }
    ensures upper_left_5 { thickness_of 1 UPPER_LEFT 5 ≡ 5 }
    ensures lower_left_2 { thickness_of 1 LOWER_LEFT 2 ≡ 1 }
    ensures lower_left_3 { thickness_of 1 LOWER_LEFT 3 ≡ 0 }
{}

fn thickness_of_five_points_a_side()
    ensures corner_17 { thickness_of 2 CORNER 17 ≡ 20 }
    ensures corner_8 { thickness_of 2 CORNER 8 ≡ 20 }
    ensures corner_4 { thickness_of 2 CORNER 4 ≡ 20 }
    ensures corner_2 { thickness_of 2 CORNER 2 ≡ 20 }
    ensures corner_3 { thickness_of 2 CORNER 3 ≡ 0 }
    ensures corner_11 { thickness_of 2 CORNER 11 ≡ 0 }
    ensures corner_and_middle_17 { thickness_of 2 CORNER_AND_MIDDLE 17 ≡ 20 }
    ensures corner_and_middle_8 { thickness_of 2 CORNER_AND_MIDDLE 8 ≡ 30 }
    ensures corner_and_middle_4 { thickness_of 2 CORNER_AND_MIDDLE 4 ≡ 30 }
    ensures corner_and_middle_2 { thickness_of 2 CORNER_AND_MIDDLE 2 ≡ 50 }
    ensures corner_and_middle_3 { thickness_of 2 CORNER_AND_MIDDLE 3 ≡ 40 }
{}

fn heights_of_the_border_count()
    ensures on_a_leg { high_of 2 CORNER 8 ≡ 10 }
    ensures at_a_corner { high_of 2 CORNER 34 ≡ 10 }
    ensures outside { high_of 2 CORNER 9 ≡ 0 }
    ensures across { high_of 2 CORNER 11 ≡ 0 }
    ensures least { low_of 1 RISING 7 ≡ 5 }
    ensures greatest { high_of 1 RISING 7 ≡ 11 }
{}

fn the_box_is_in_world_units()
    ensures spaced { box_of 2 CORNER 30 4
        ≡ record { x0 = pos 0; x1 = pos 120; y0 = pos 0; y1 = pos 60; z0 = pos 0; z1 = pos 10 } }
    ensures by_points { box_of 1 RISING 1 7
        ≡ record { x0 = pos 1; x1 = pos 2; y0 = pos 0; y1 = pos 2; z0 = pos 5; z1 = pos 11 } }
{}

fn distance_is_euclidean_and_rounded_down()
    ensures inside { let camera : CameraAt = record { x = pos 0; y = pos 0; z = pos 0 } in
        distance_of (box_of 1 MIDDLE 1 2) camera ≡ 0 }
    ensures three_and_four { let camera : CameraAt = record { x = negsuc 2; y = negsuc 3; z = pos 0 } in
        distance_of (box_of 1 MIDDLE 1 2) camera ≡ 5 }
    ensures three_four_twelve { let camera : CameraAt = record { x = negsuc 2; y = negsuc 3; z = negsuc 11 } in
        distance_of (box_of 1 MIDDLE 1 2) camera ≡ 13 }
    ensures above { let camera : CameraAt = record { x = pos 5; y = pos 1; z = pos 14 } in
        distance_of (box_of 1 MIDDLE 1 2) camera ≡ 5 }
    ensures root_of_two { let camera : CameraAt = record { x = pos 3; y = pos 3; z = pos 3 } in
        distance_of (box_of 1 MIDDLE 1 2) camera ≡ 1 }
    ensures on_the_upper_end { let camera : CameraAt = record { x = pos 2; y = pos 2; z = pos 10 } in
        distance_of (box_of 1 MIDDLE 1 2) camera ≡ 0 }
{}

fn roots_are_rounded_down()
    ensures root_0 { root_of 0 ≡ 0 }
    ensures root_1 { root_of 1 ≡ 1 }
    ensures root_3 { root_of 3 ≡ 1 }
    ensures root_4 { root_of 4 ≡ 2 }
    ensures root_15 { root_of 15 ≡ 3 }
    ensures root_16 { root_of 16 ≡ 4 }
    ensures root_last { root_of (2 ^ 62 - 1) ≡ 2147483647 }
    ensures root_next { root_of (2 ^ 62) ≡ 2147483648 }
{}

fn priority_is_thickness_over_distance()
    ensures in_the_box { let camera : CameraAt = record { x = pos 0; y = pos 0; z = pos 0 } in
        let view : View = record { camera = camera; spacing = 1; planes = []; threshold = 0 } in
        priority_of 1 MIDDLE view 2 ≡ 1310720 }
    ensures in_the_other_box { let camera : CameraAt = record { x = pos 0; y = pos 0; z = pos 0 } in
        let view : View = record { camera = camera; spacing = 1; planes = []; threshold = 0 } in
        priority_of 1 MIDDLE view 3 ≡ 1310720 }
    ensures finest { let camera : CameraAt = record { x = pos 0; y = pos 0; z = pos 0 } in
        let view : View = record { camera = camera; spacing = 1; planes = []; threshold = 0 } in
        priority_of 1 MIDDLE view 8 ≡ 0 }
    ensures five_away { let camera : CameraAt = record { x = negsuc 2; y = negsuc 3; z = pos 0 } in
        let view : View = record { camera = camera; spacing = 1; planes = []; threshold = 0 } in
        priority_of 1 MIDDLE view 2 ≡ 218453 }
    ensures thirteen_away { let camera : CameraAt = record { x = negsuc 2; y = negsuc 3; z = negsuc 11 } in
        let view : View = record { camera = camera; spacing = 1; planes = []; threshold = 0 } in
        priority_of 1 MIDDLE view 2 ≡ 93622 }
    ensures spaced { let camera : CameraAt = record { x = negsuc 28; y = pos 0; z = pos 0 } in
        let view : View = record { camera = camera; spacing = 30; planes = []; threshold = 0 } in
        priority_of 1 MIDDLE view 2 ≡ 43690 }
    ensures upper_half { let camera : CameraAt = record { x = pos 0; y = pos 0; z = pos 0 } in
        let view : View = record { camera = camera; spacing = 1; planes = []; threshold = 0 } in
        priority_of 2 TWO_CORNERS view 6 ≡ 436906 }
    ensures lower_half { let camera : CameraAt = record { x = pos 4; y = pos 4; z = pos 0 } in
        let view : View = record { camera = camera; spacing = 1; planes = []; threshold = 0 } in
        priority_of 2 TWO_CORNERS view 4 ≡ 436906 }
{}

/// One unit of height, seen from 65,536 and from 65,535 away: from there 2, 4 and 5 are worth a split.
/// 3 is split too, but by force alone.
fn a_small_priority_rounds_down_to_zero()
    ensures far_2 { let camera : CameraAt = record { x = negsuc 65535; y = pos 0; z = pos 0 } in
        let view : View = record { camera = camera; spacing = 1; planes = []; threshold = 0 } in
        priority_of 1 LOWER_LEFT view 2 ≡ 0 }
    ensures far_4 { let camera : CameraAt = record { x = negsuc 65535; y = pos 0; z = pos 0 } in
        let view : View = record { camera = camera; spacing = 1; planes = []; threshold = 0 } in
        priority_of 1 LOWER_LEFT view 4 ≡ 0 }
    ensures far_5 { let camera : CameraAt = record { x = negsuc 65535; y = pos 0; z = pos 0 } in
        let view : View = record { camera = camera; spacing = 1; planes = []; threshold = 0 } in
        priority_of 1 LOWER_LEFT view 5 ≡ 0 }
    ensures near_2 { let camera : CameraAt = record { x = negsuc 65534; y = pos 0; z = pos 0 } in
        let view : View = record { camera = camera; spacing = 1; planes = []; threshold = 0 } in
        priority_of 1 LOWER_LEFT view 2 ≡ 1 }
    ensures near_4 { let camera : CameraAt = record { x = negsuc 65534; y = pos 0; z = pos 0 } in
        let view : View = record { camera = camera; spacing = 1; planes = []; threshold = 0 } in
        priority_of 1 LOWER_LEFT view 4 ≡ 1 }
    ensures near_5 { let camera : CameraAt = record { x = negsuc 65534; y = pos 0; z = pos 0 } in
        let view : View = record { camera = camera; spacing = 1; planes = []; threshold = 0 } in
        priority_of 1 LOWER_LEFT view 5 ≡ 1 }
    ensures near_3 { let camera : CameraAt = record { x = negsuc 65534; y = pos 0; z = pos 0 } in
        let view : View = record { camera = camera; spacing = 1; planes = []; threshold = 0 } in
        priority_of 1 LOWER_LEFT view 3 ≡ 0 }
    ensures near_6 { let camera : CameraAt = record { x = negsuc 65534; y = pos 0; z = pos 0 } in
        let view : View = record { camera = camera; spacing = 1; planes = []; threshold = 0 } in
        priority_of 1 LOWER_LEFT view 6 ≡ 0 }
    ensures near_7 { let camera : CameraAt = record { x = negsuc 65534; y = pos 0; z = pos 0 } in
        let view : View = record { camera = camera; spacing = 1; planes = []; threshold = 0 } in
        priority_of 1 LOWER_LEFT view 7 ≡ 0 }
{}

fn worst_is_the_greatest_priority()
    ensures unsplit { let camera : CameraAt = record { x = pos 0; y = pos 0; z = pos 0 } in
        let view : View = record { camera = camera; spacing = 1; planes = []; threshold = 0 } in
        worst_of (priority_of 1 MIDDLE view) (2 ∷ 3 ∷ []) ≡ 1310720 }
    ensures split { let camera : CameraAt = record { x = pos 0; y = pos 0; z = pos 0 } in
        let view : View = record { camera = camera; spacing = 1; planes = []; threshold = 0 } in
        worst_of (priority_of 1 MIDDLE view) (4 ∷ 5 ∷ 6 ∷ 7 ∷ []) ≡ 0 }
    ensures one_short { let camera : CameraAt = record { x = pos 0; y = pos 0; z = pos 0 } in
        let view : View = record { camera = camera; spacing = 1; planes = []; threshold = 0 } in
        worst_of (priority_of 2 CORNER view) EIGHT_LEAVES ≡ 1310720 }
    ensures nine { let camera : CameraAt = record { x = pos 0; y = pos 0; z = pos 0 } in
        let view : View = record { camera = camera; spacing = 1; planes = []; threshold = 0 } in
        worst_of (priority_of 2 CORNER view) LEAVES ≡ 0 }
    ensures other_corner { let camera : CameraAt = record { x = pos 0; y = pos 0; z = pos 0 } in
        let view : View = record { camera = camera; spacing = 1; planes = []; threshold = 0 } in
        worst_of (priority_of 2 TWO_CORNERS view) LEAVES ≡ 436906 }
    ensures moved { let camera : CameraAt = record { x = pos 4; y = pos 4; z = pos 0 } in
        let view : View = record { camera = camera; spacing = 1; planes = []; threshold = 0 } in
        worst_of (priority_of 2 TWO_CORNERS view) OTHER_LEAVES ≡ 436906 }
{}

fn marks_are_decided_by_the_corners_of_the_box()
    ensures no_plane { let camera : CameraAt = record { x = pos 0; y = pos 0; z = pos 0 } in
        let view : View = record { camera = camera; spacing = 1; planes = []; threshold = 0 } in
        triangle_mark 1 MIDDLE view.spacing view.planes 2 ≡ Mark.Inside }
    ensures beyond_2 { let camera : CameraAt = record { x = pos 0; y = pos 0; z = pos 0 } in
        let planes : List ViewPlane = record { a = pos 1; b = pos 0; c = pos 0; d = negsuc 2 } ∷ [] in
        let view : View = record { camera = camera; spacing = 1; planes = planes; threshold = 0 } in
        triangle_mark 1 MIDDLE view.spacing view.planes 2 ≡ Mark.Outside }
    ensures beyond_3 { let camera : CameraAt = record { x = pos 0; y = pos 0; z = pos 0 } in
        let planes : List ViewPlane = record { a = pos 1; b = pos 0; c = pos 0; d = negsuc 2 } ∷ [] in
        let view : View = record { camera = camera; spacing = 1; planes = planes; threshold = 0 } in
        triangle_mark 1 MIDDLE view.spacing view.planes 3 ≡ Mark.Outside }
    ensures edge_4 { let camera : CameraAt = record { x = pos 0; y = pos 0; z = pos 0 } in
        let planes : List ViewPlane = record { a = pos 1; b = pos 0; c = pos 0; d = negsuc 1 } ∷ [] in
        let view : View = record { camera = camera; spacing = 1; planes = planes; threshold = 0 } in
        triangle_mark 1 MIDDLE view.spacing view.planes 4 ≡ Mark.Cut }
    ensures edge_5 { let camera : CameraAt = record { x = pos 0; y = pos 0; z = pos 0 } in
        let planes : List ViewPlane = record { a = pos 1; b = pos 0; c = pos 0; d = negsuc 1 } ∷ [] in
        let view : View = record { camera = camera; spacing = 1; planes = planes; threshold = 0 } in
        triangle_mark 1 MIDDLE view.spacing view.planes 5 ≡ Mark.Outside }
    ensures edge_6 { let camera : CameraAt = record { x = pos 0; y = pos 0; z = pos 0 } in
        let planes : List ViewPlane = record { a = pos 1; b = pos 0; c = pos 0; d = negsuc 1 } ∷ [] in
        let view : View = record { camera = camera; spacing = 1; planes = planes; threshold = 0 } in
        triangle_mark 1 MIDDLE view.spacing view.planes 6 ≡ Mark.Cut }
    ensures edge_7 { let camera : CameraAt = record { x = pos 0; y = pos 0; z = pos 0 } in
        let planes : List ViewPlane = record { a = pos 1; b = pos 0; c = pos 0; d = negsuc 1 } ∷ [] in
        let view : View = record { camera = camera; spacing = 1; planes = planes; threshold = 0 } in
        triangle_mark 1 MIDDLE view.spacing view.planes 7 ≡ Mark.Cut }
    ensures on_the_plane { let camera : CameraAt = record { x = pos 0; y = pos 0; z = pos 0 } in
        let planes : List ViewPlane = record { a = pos 1; b = pos 0; c = pos 0; d = pos 0 } ∷ [] in
        let view : View = record { camera = camera; spacing = 1; planes = planes; threshold = 0 } in
        triangle_mark 1 MIDDLE view.spacing view.planes 2 ≡ Mark.Inside }
    ensures one_of_two { let camera : CameraAt = record { x = pos 0; y = pos 0; z = pos 0 } in
        let here : ViewPlane = record { a = pos 1; b = pos 0; c = pos 0; d = pos 0 } in
        let beyond : ViewPlane = record { a = pos 1; b = pos 0; c = pos 0; d = negsuc 2 } in
        let planes : List ViewPlane = here ∷ beyond ∷ [] in
        let view : View = record { camera = camera; spacing = 1; planes = planes; threshold = 0 } in
        triangle_mark 1 MIDDLE view.spacing view.planes 2 ≡ Mark.Outside }
    ensures height_counts { let camera : CameraAt = record { x = pos 0; y = pos 0; z = pos 0 } in
        let planes : List ViewPlane = record { a = pos 0; b = pos 0; c = negsuc 0; d = pos 9 } ∷ [] in
        let view : View = record { camera = camera; spacing = 1; planes = planes; threshold = 0 } in
        triangle_mark 1 MIDDLE view.spacing view.planes 2 ≡ Mark.Cut }
{}

fn what_is_outside_has_priority_zero()
    ensures outside { let camera : CameraAt = record { x = pos 0; y = pos 0; z = pos 0 } in
        let planes : List ViewPlane = record { a = pos 1; b = pos 0; c = pos 0; d = negsuc 2 } ∷ [] in
        let view : View = record { camera = camera; spacing = 1; planes = planes; threshold = 0 } in
        priority_of 1 MIDDLE view 2 ≡ 0 }
    ensures cut { let camera : CameraAt = record { x = pos 0; y = pos 0; z = pos 0 } in
        let planes : List ViewPlane = record { a = pos 1; b = pos 0; c = pos 0; d = negsuc 1 } ∷ [] in
        let view : View = record { camera = camera; spacing = 1; planes = planes; threshold = 0 } in
        priority_of 1 MIDDLE view 2 ≡ 1310720 }
    ensures lower_side { let camera : CameraAt = record { x = pos 0; y = pos 0; z = pos 0 } in
        let planes : List ViewPlane = record { a = pos 0; b = pos 1; c = pos 0; d = negsuc 1 } ∷ [] in
        let view : View = record { camera = camera; spacing = 1; planes = planes; threshold = 0 } in
        priority_of 1 LOWER_SIDE view 4 ≡ 0 }
    ensures lower_half { let camera : CameraAt = record { x = pos 0; y = pos 0; z = pos 0 } in
        let planes : List ViewPlane = record { a = pos 0; b = pos 1; c = pos 0; d = negsuc 1 } ∷ [] in
        let view : View = record { camera = camera; spacing = 1; planes = planes; threshold = 0 } in
        priority_of 1 LOWER_SIDE view 2 ≡ 1310720 }
{}

fn leaves_are_listed_depth_first()
    ensures of_none { leaves_of 2 (among []) ≡ 2 ∷ 3 ∷ [] }
    ensures of_two { leaves_of 1 (among (2 ∷ 3 ∷ [])) ≡ 4 ∷ 5 ∷ 6 ∷ 7 ∷ [] }
    ensures of_six { leaves_of 2 (among FORCED_BY_8) ≡ EIGHT_LEAVES }
    ensures of_seven { leaves_of 2 (among SPLIT) ≡ LEAVES }
    ensures of_the_others { leaves_of 2 (among OTHER_SPLIT) ≡ OTHER_LEAVES }
{}

fn vertices_go_by_row_and_then_by_column()
    ensures base { vertices_of 1 (2 ∷ 3 ∷ [])
        ≡ point 0 0 ∷ point 2 0 ∷ point 0 2 ∷ point 2 2 ∷ [] }
    ensures nine { vertices_of 2 LEAVES
        ≡ point 0 0 ∷ point 1 0 ∷ point 2 0 ∷ point 4 0 ∷ point 1 1
        ∷ point 0 2 ∷ point 2 2 ∷ point 0 4 ∷ point 4 4 ∷ [] }
{}

fn mesh_texts_have_these_bytes()
    ensures flat { let camera : CameraAt = record { x = pos 0; y = pos 0; z = pos 0 } in
        let view : View = record { camera = camera; spacing = 1; planes = []; threshold = 0 } in
        mesh_text 1 FLAT view.spacing view.planes (2 ∷ 3 ∷ []) ≡ FLAT_TEXT }
    ensures middle { let camera : CameraAt = record { x = pos 0; y = pos 0; z = pos 0 } in
        let view : View = record { camera = camera; spacing = 1; planes = []; threshold = 0 } in
        mesh_text 1 MIDDLE view.spacing view.planes (4 ∷ 5 ∷ 6 ∷ 7 ∷ []) ≡ MIDDLE_TEXT }
    ensures spaced { let camera : CameraAt = record { x = negsuc 28; y = pos 0; z = pos 0 } in
        let view : View = record { camera = camera; spacing = 30; planes = []; threshold = 0 } in
        mesh_text 1 MIDDLE view.spacing view.planes (2 ∷ 3 ∷ []) ≡ SPACED_TEXT }
    ensures upper_left { let camera : CameraAt = record { x = pos 0; y = pos 0; z = pos 0 } in
        let view : View = record { camera = camera; spacing = 1; planes = []; threshold = 0 } in
        mesh_text 1 UPPER_LEFT view.spacing view.planes (2 ∷ 3 ∷ []) ≡ UPPER_LEFT_TEXT }
    ensures corner { let camera : CameraAt = record { x = pos 0; y = pos 0; z = pos 0 } in
        let view : View = record { camera = camera; spacing = 1; planes = []; threshold = 0 } in
        mesh_text 2 CORNER view.spacing view.planes LEAVES ≡ CORNER_TEXT }
{}

fn marks_group_the_faces()
    ensures three_groups { let camera : CameraAt = record { x = pos 0; y = pos 0; z = pos 0 } in
        let planes : List ViewPlane = record { a = pos 1; b = pos 0; c = pos 0; d = negsuc 1 } ∷ [] in
        let view : View = record { camera = camera; spacing = 1; planes = planes; threshold = 0 } in
        mesh_text 1 MIDDLE view.spacing view.planes (4 ∷ 5 ∷ 6 ∷ 7 ∷ []) ≡ MARKED_TEXT }
    ensures one_group { let camera : CameraAt = record { x = pos 0; y = pos 0; z = pos 0 } in
        let planes : List ViewPlane = record { a = pos 1; b = pos 0; c = pos 0; d = pos 0 } ∷ [] in
        let view : View = record { camera = camera; spacing = 1; planes = planes; threshold = 0 } in
        mesh_text 1 FLAT view.spacing view.planes (2 ∷ 3 ∷ []) ≡ INSIDE_TEXT }
{}

fn a_border_base_has_no_mate()
    ensures lower { (b : ℕ) → IsMate 2 4 b → ⊥ }
    ensures left { (b : ℕ) → IsMate 2 5 b → ⊥ }
    ensures half_of_the_lower { (b : ℕ) → IsMate 2 17 b → ⊥ }
    ensures within { (b : ℕ) → IsMate 2 8 b → b ≡ 11 }
{}

fn these_lists_are_closed()
    ensures none { IsClosed 2 (among []) }
    ensures six { IsClosed 2 (among FORCED_BY_8) }
    ensures seven { IsClosed 2 (among SPLIT) }
    ensures others { IsClosed 2 (among OTHER_SPLIT) }
{}

fn a_list_without_a_mate_or_a_parent_is_not_closed()
    ensures mate { IsClosed 2 (among (2 ∷ [])) → ⊥ }
    ensures parent { IsClosed 2 (among (2 ∷ 3 ∷ 8 ∷ 11 ∷ [])) → ⊥ }
    ensures finest { IsClosed 1 (among (2 ∷ 3 ∷ 4 ∷ 8 ∷ [])) → ⊥ }
{}

fn force_adds_no_more_than_parents_and_mates()
    ensures by_8 { IsLeastClosed 2 (among (8 ∷ [])) (among FORCED_BY_8) }
    ensures by_four { IsLeastClosed 2 (among (2 ∷ 4 ∷ 8 ∷ 17 ∷ [])) (among SPLIT) }
{}

fn equal_priorities_rank_by_address()
    ensures ranking { let camera : CameraAt = record { x = pos 0; y = pos 0; z = pos 0 } in
        let view : View = record { camera = camera; spacing = 1; planes = []; threshold = 0 } in
        IsRanking 2 (priority_of 2 CORNER view) RANKING }
{}

fn the_budget_decides_the_chosen()
    ensures nine { IsRankClosure 2 9 RANKING 4 (among SPLIT) }
    ensures eight { IsRankClosure 2 8 RANKING 3 (among FORCED_BY_8) }
    ensures seven { IsRankClosure 2 7 RANKING 2 (among (2 ∷ 3 ∷ 4 ∷ [])) }
    ensures eight_blocked { IsBlockedBy 2 RANKING 3 17 9 }
    ensures seven_blocked { IsBlockedBy 2 RANKING 2 8 8 }
{}

fn greedy_refinement_stops_before_the_jump()
    ensures seven { let camera : CameraAt = record { x = pos 0; y = pos 0; z = pos 0 } in
        let view : View = record { camera = camera; spacing = 1; planes = []; threshold = 0 } in
        IsGreedyEnd 2 7 (priority_of 2 CORNER view) (among (2 ∷ 3 ∷ 4 ∷ [])) }
{}

#[test]
fn triangles_are_as_worked_by_hand() {
    a_child_is_one_level_below_its_parent();
    the_first_sample_is_the_upper_left_point();
    base_triangles_and_their_children_have_these_corners();
    level_two_has_these_corners();
    deeper_triangles_have_these_corners();
    mates_share_their_base();
    bases_on_the_border();
    a_border_base_has_no_mate();
}

#[test]
fn priorities_are_as_worked_by_hand() {
    thickness_adds_the_deviations_down_to_the_finest();
    thickness_of_five_points_a_side();
    heights_of_the_border_count();
    the_box_is_in_world_units();
    distance_is_euclidean_and_rounded_down();
    roots_are_rounded_down();
    priority_is_thickness_over_distance();
    a_small_priority_rounds_down_to_zero();
    worst_is_the_greatest_priority();
    marks_are_decided_by_the_corners_of_the_box();
    what_is_outside_has_priority_zero();
}

#[test]
fn meshes_are_as_worked_by_hand() {
    leaves_are_listed_depth_first();
    vertices_go_by_row_and_then_by_column();
    mesh_texts_have_these_bytes();
    marks_group_the_faces();
    these_lists_are_closed();
    a_list_without_a_mate_or_a_parent_is_not_closed();
    force_adds_no_more_than_parents_and_mates();
    equal_priorities_rank_by_address();
    the_budget_decides_the_chosen();
    greedy_refinement_stops_before_the_jump();
}
