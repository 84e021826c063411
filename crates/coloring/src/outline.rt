// The buffers of an outline and of a result, flat as C hands them in: contour lengths, the kind of each edge, eight
// point places an edge, and for a result a byte an edge. An outline's checks, and an edge written.
ghost use Rattle.std.specs.Prelude.{◌≡◌, true, [], ◌∷◌, ◌+◌, ◌≤◌, ◌*◌, length, take};
ghost use Rattle.std.specs.List.{list_all};
ghost use Rattle.coloring.specs.Answers.{checked_answer, first_refusal};
ghost use Rattle.coloring.specs.Outline.{known_kind, between, in_range, used_places, coordinates_fit, check_outline, check};
ghost use Rattle.coloring.specs.Outline.{outline_in, result_in, has_room, EdgesFit, StoredFrom};
ghost use Rattle.coloring.specs.Limits.{max_contours, max_result_edges};
ghost use Rattle.coloring.specs.Lists.{over_from};
ghost use Rattle.coloring.specs.Places.{total};

use crate::limits::{MAX_CONTOURS, MAX_COORDINATE, MAX_EDGES};
use crate::refusal::Refusal;
use geometry::edge_segment::EdgeSegment;

// The buffers of an outline.
#[derive(Clone, Copy)]
pub struct OutlineBuffers<'a> {
    pub lengths: &'a [u16],
    pub kinds: &'a [u8],
    pub points: &'a [f64],
}

// The buffers that a result goes to.
#[derive(Drop)]
pub struct ResultBuffers<'a> {
    pub lengths: &'a mut [u16],
    pub kinds: &'a mut [u8],
    pub points: &'a mut [f64],
    pub colors: &'a mut [u8],
}

// What a colouring wrote, how many contours and edges, and how many splines they have; and how many of the directions
// of the outline's edges, two an edge, had no length, so that (0, 1) stands in for them.
#[derive(Clone, Copy)]
pub struct Counts {
    pub contours: usize,
    pub edges: usize,
    pub splines: usize,
    pub stand_ins: usize,
}

// The sum of the contour lengths.
fn total(lengths: &[u16]) -> usize
    requires { length lengths.now ≤ max_contours }
    ensures { result ≡ total lengths.now }
{
    lengths.iter().map(|length| *length as usize).sum()
}

fn between(low: f64, x: f64, high: f64) -> bool
    ensures { result ≡ between low x high }
{
    low <= x && x <= high
}

// Whether a coordinate is within its range.
fn in_range(x: f64) -> bool
    ensures { result ≡ in_range x }
{
    between(-MAX_COORDINATE, x, MAX_COORDINATE)
}

// 1 line, 2 quadratic, 3 cubic. A byte of the C interface, which may be none of these.
fn known_kind(kind: u8) -> bool
    ensures { result ≡ known_kind kind }
{
    matches!(kind, 1..=3)
}

fn kinds_known(kinds: &[u8]) -> bool
    ensures { result ≡ list_all known_kind kinds.now }
{
    kinds.iter().all(|kind| known_kind(*kind))
}

// Whether all of these places are coordinates within the range.
fn places_fit(points: &[f64]) -> bool
    ensures { result ≡ list_all in_range points.now }
{
    points.iter().all(|x| in_range(*x))
}

// How many places an edge of a known kind uses. A byte here too, since no edge is decoded for the checks.
fn used_places(kind: u8) -> usize
    ensures { result ≡ used_places kind }
{
    2 * (kind as usize + 1)
}

// Those places. The kind is a byte of C's buffer, which nothing decodes before the checks.
fn used(kind: u8, places: &[f64]) -> &[f64]
    ensures { result.now ≡ take (used_places kind) places.now }
{
    &places[..used_places(kind).min(places.len())]
}

// Whether the used places of each edge are coordinates within the range.
fn coordinates_fit(kinds: &[u8], points: &[f64]) -> bool
    requires { (length points.now ≡ 8 * length kinds.now) × (list_all known_kind kinds.now ≡ true) }
    ensures { result ≡ coordinates_fit kinds.now points.now }
{
    let (chunks, _) = points.as_chunks::<8>();
    kinds
        .iter()
        .zip(chunks)
        .all(|(kind, places)| places_fit(used(*kind, places)))
}

// Values, written from place `at` on into a longer buffer. In line, since a few places of a known number are no call.
#[inline(always)]
#[tactic(auto, unfolding(crate::specs::Lists::over_from, crate::specs::Lists::over))]
pub(crate) fn write_from<T: Copy>(values: &[T], at: usize, out: &mut [T])
    requires { at + length values.now ≤ length out.old }
    ensures { out.new ≡ over_from at values.now out.old }
{
    let end = at + values.len();
    out[at..end].copy_from_slice(values);
}

impl OutlineBuffers<'_> {
    // The first refusal of an outline.
    #[tactic(auto, unfolding(crate::specs::Outline::check_outline, crate::specs::Answers::first_refusal, crate::specs::Answers::in_order))]
    pub(crate) fn check_outline(self) -> Result<(), Refusal>
        ensures { checked_answer result ≡ first_refusal (check_outline (outline_in self.entry)) }
    {
        let OutlineBuffers {
            lengths,
            kinds,
            points,
        } = self;
        if lengths.len() > MAX_CONTOURS {
            return Err(Refusal::TooMany);
        }
        let edges = total(lengths);
        if edges > MAX_EDGES {
            return Err(Refusal::TooMany);
        }
        if kinds.len() != edges || points.len() != 8 * edges {
            return Err(Refusal::LengthMismatch);
        }
        if !kinds_known(kinds) {
            return Err(Refusal::UnknownKind);
        }
        if !coordinates_fit(kinds, points) {
            return Err(Refusal::BadCoordinate);
        }
        Ok(())
    }

    // The first refusal of an outline and a threshold.
    #[tactic(auto, unfolding(crate::specs::Outline::check, crate::specs::Answers::first_refusal), using(crate::specs::Answers::passed_on))]
    pub fn check(self, threshold: f64) -> Result<(), Refusal>
        ensures { checked_answer result ≡ first_refusal (check (outline_in self.entry) threshold) }
    {
        self.check_outline()?;
        if !between(-1.0, threshold, 1.0) {
            return Err(Refusal::BadThreshold);
        }
        Ok(())
    }
}

impl ResultBuffers<'_> {
    // Whether what was counted has room.
    pub(crate) fn have_room(&self, counts: Counts) -> bool
        requires { counts.edges ≤ max_result_edges }
        ensures { result ≡ has_room counts.contours counts.edges (result_in self.now) }
    {
        counts.contours <= self.lengths.len()
            && counts.edges <= self.kinds.len()
            && 8 * counts.edges <= self.points.len()
            && counts.edges <= self.colors.len()
    }

    // An edge, written at place i: its kind, and its places, unused ones +0.
    pub(crate) fn write_edge(&mut self, i: usize, e: EdgeSegment)
        requires { EdgesFit i 1 self.old }
        ensures { StoredFrom i (e ∷ []) self.old self.new }
    {
        let stored = e.to_stored();
        self.kinds[i] = stored.kind;
        write_from(&stored.points, 8 * i, self.points);
    }
}
