// Corners and length estimates, after `is_corner`, `estimate_edge_length` and `identify_corners` of coloring/mod.rs.
ghost use Rattle.std.specs.Prelude.{◌≡◌, ◌≤◌, ◌*◌, length};
ghost use Rattle.math.specs.Vector2.{length_of};
ghost use Rattle.coloring.specs.Limits.{max_edges};
ghost use Rattle.coloring.specs.Places.{total};
ghost use Rattle.coloring.specs.Corners.{is_corner, estimate_edge_length, flags_between, found_in, find_corners, cornered, corner_count, first_corner};
ghost use Rattle.coloring.specs.Directions.{decode_ends, all_flags};
ghost use Rattle.coloring.specs.Outline.{cut};
ghost use Rattle.coloring.specs.Contours.{stored_edges};

use crate::contour::StoredEdges;
use crate::directions::{count_marks, ends_at, unit_directions};
use crate::limits::{
    FEW_DIRECTION_PLACES, FEW_EDGES, FEW_STAND_INS, MAX_DIRECTION_PLACES, MAX_STAND_INS,
};
use geometry::edge_segment::EdgeSegment;
use math::vector2::{Vector2, cross, dot};

// Whether a joint of two unit directions is a corner.
#[tactic(auto, unfolding(crate::specs::Corners::is_corner))]
pub(crate) fn is_corner(a: Vector2, b: Vector2, threshold: f64) -> bool
    ensures { result ≡ is_corner a b threshold }
{
    dot(a, b) <= 0.0 || threshold < cross(a, b).abs()
}

// The length of a vector, given that of the one before: the same where they are equal.
#[tactic(auto, using(crate::proofs::corners::LengthLaws::length_same), unfolding(math::specs::Vector2::eq))]
fn next_length(v: Vector2, before: Vector2, length: f64) -> f64
    requires { length ≡ length_of before }
    ensures { result ≡ length_of v }
{
    if v == before {
        return length;
    }
    v.length()
}

// The estimated length of an edge: four chords. A line's are often equal, as they are where its points have few digits.
#[tactic(auto, unfolding(crate::specs::Corners::chord, crate::specs::Corners::estimate_edge_length))]
pub(crate) fn estimate_edge_length(e: EdgeSegment) -> f64
    ensures { result ≡ estimate_edge_length e }
{
    let p0 = e.point(0.0);
    let p1 = e.point(0.25);
    let p2 = e.point(0.5);
    let p3 = e.point(0.75);
    let p4 = e.point(1.0);
    let a = p1 - p0;
    let first = a.length();
    let b = p2 - p1;
    let second = next_length(b, a, first);
    let c = p3 - p2;
    let third = next_length(c, b, second);
    let d = p4 - p3;
    let fourth = next_length(d, c, third);
    0.0 + first + second + third + fourth
}

// A flag for each edge of a contour, by its directions: true where it starts at a corner. The edge before the first is
// the last. By place, since a flag has four places of the directions.
fn identify_corners(directions: &[f64], threshold: f64, flags: &mut [bool])
    requires { (length directions.now ≡ 4 * length flags.old) × (length flags.old ≤ max_edges) }
    ensures { flags.new ≡ flags_between threshold (decode_ends (length flags.old) directions.now) }
{
    let m = flags.len();
    if m == 0 {
        return;
    }
    let mut prev = ends_at(directions, m - 1).end;
    for (i, flag) in flags.iter_mut().enumerate() {
        let d = ends_at(directions, i);
        *flag = is_corner(prev, d.start, threshold);
        prev = d.end;
    }
}

// The corners of all contours, a flag an edge, by the directions of all edges. The flags stay apart from the lengths
// and edges until they are written; Contours then holds them all. `at` as in
// count_shape of shape.rt.
fn compare_neighbors(lengths: &[u16], directions: &[f64], threshold: f64, flags: &mut [bool])
    requires { (length directions.now ≡ 4 * length flags.old) × (length flags.old ≤ max_edges) × (total lengths.now ≡ length flags.old) }
    ensures { flags.new ≡ all_flags threshold lengths.now
        (decode_ends (length flags.old) directions.now) }
{
    let mut at: usize = 0;
    for length in lengths {
        let end = at + *length as usize;
        let first = 4 * at;
        let last = 4 * end;
        identify_corners(&directions[first..last], threshold, &mut flags[at..end]);
        at = end;
    }
}

// The directions of all edges, in arrays of their own, then the corners of all contours. The answer is how many
// directions are stand-ins. Two flat arrays, since one function fills these and the buffers of C: an array of structs
// would need a second one. Two sizes, since an array's length is no product of a const parameter. Out of line, so that
// the arrays are off the stack when the colours are found.
#[inline(never)]
fn search_corners<const PLACES: usize, const STAND_INS: usize>(
    lengths: &[u16],
    edges: StoredEdges,
    threshold: f64,
    flags: &mut [bool],
) -> usize
    requires places { (4 * length edges.kinds.now ≤ PLACES) × (PLACES ≤ 4 * max_edges) }
    requires stand_ins { (2 * length edges.kinds.now ≤ STAND_INS) × (STAND_INS ≤ 2 * max_edges) }
    requires sizes { (total lengths.now ≡ length edges.kinds.now) × (length flags.old ≡ length edges.kinds.now) }
    ensures { found_in (cornered lengths.now (stored_edges edges.entry) flags.new) result
        ≡ find_corners threshold (cut lengths.now (stored_edges edges.entry)) }
{
    let n = edges.len();
    let mut places = [0.0; PLACES];
    let mut ends = [0u8; STAND_INS];
    let directions = &mut places[..4 * n];
    let marks = &mut ends[..2 * n];
    unit_directions(lengths, edges, directions, marks);
    compare_neighbors(lengths, directions, threshold, flags);
    count_marks(marks)
}

// The same, in small arrays for the outlines of most glyphs, since they are cleared whole.
pub(crate) fn find_corners(
    lengths: &[u16],
    edges: StoredEdges,
    threshold: f64,
    flags: &mut [bool],
) -> usize
    requires { (total lengths.now ≡ length edges.kinds.now) × (length flags.old ≡ length edges.kinds.now) }
    ensures { found_in (cornered lengths.now (stored_edges edges.entry) flags.new) result
        ≡ find_corners threshold (cut lengths.now (stored_edges edges.entry)) }
{
    if edges.len() <= FEW_EDGES {
        search_corners::<FEW_DIRECTION_PLACES, FEW_STAND_INS>(lengths, edges, threshold, flags)
    } else {
        search_corners::<MAX_DIRECTION_PLACES, MAX_STAND_INS>(lengths, edges, threshold, flags)
    }
}

// ---- what the flags of a contour say

// How many corners there are. No `filter` and `count`: without a branch on a flag it goes over many at a time.
pub(crate) fn count_corners(flags: &[bool]) -> usize
    ensures { result ≡ corner_count flags.now }
{
    let mut count = 0;
    for flag in flags {
        count += usize::from(*flag);
    }
    count
}

// Where the first is; 0 where there is none.
pub(crate) fn first_corner(flags: &[bool]) -> usize
    ensures { result ≡ first_corner flags.now }
{
    flags.iter().position(|flag| *flag).unwrap_or(0)
}
