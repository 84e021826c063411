// Edges in their stored form, contours with their corners, and the contours of an outline one after the other.
ghost use Rattle.std.specs.Prelude.{◌≡◌, ◌≤◌, ◌<◌, ◌*◌, length};
ghost use Rattle.coloring.specs.Limits.{max_contours, max_edges};
ghost use Rattle.coloring.specs.Places.{total};

use geometry::edge_segment::EdgeSegment;
use math::vector2::Vector2;

// The kind of each edge, and eight point places an edge.
#[derive(Clone, Copy)]
pub(crate) struct StoredEdges<'a> {
    pub(crate) kinds: &'a [u8],
    pub(crate) points: &'a [f64],
    ghost places: { length points.now ≡ 8 * length kinds.now },
    ghost few: { length kinds.now ≤ max_edges },
}

impl<'a> StoredEdges<'a> {
    ghost use Rattle.std.specs.Prelude.{◌-◌, get_or, take, drop};
    ghost use Rattle.coloring.specs.Outline.{any_edge};
    ghost use Rattle.coloring.specs.Contours.{stored_edges};

    pub(crate) fn len(self) -> usize
        ensures { result ≡ length self.entry.kinds.now }
    {
        self.kinds.len()
    }

    // The edge at place i.
    pub(crate) fn at(self, i: usize) -> EdgeSegment
        requires { i < length self.kinds.now }
        ensures { result ≡ get_or (stored_edges self.entry) i any_edge }
    {
        let at = 8 * i;
        let end = at + 8;
        let mut places = [0.0; 8];
        places.copy_from_slice(&self.points[at..end]);
        // the checks leave only known kinds
        let none = EdgeSegment::Line(Vector2::ZERO, Vector2::ZERO);
        EdgeSegment::from_stored(self.kinds[i], places).unwrap_or(none)
    }

    // Those from place `at` up to place `end`.
    pub(crate) fn part(self, at: usize, end: usize) -> StoredEdges<'a>
        requires { (at ≤ end) × (end ≤ length self.kinds.now) }
        ensures edges { stored_edges result ≡ take (end - at) (drop at (stored_edges self.entry)) }
        ensures long { length result.kinds.now ≡ end - at }
    {
        let from = 8 * at;
        let to = 8 * end;
        StoredEdges {
            kinds: &self.kinds[at..end],
            points: &self.points[from..to],
        }
    }
}

// The edges of a contour, or of several one after the other, and a flag for each: true where it starts at a corner.
#[derive(Clone, Copy)]
pub(crate) struct Contour<'a> {
    pub(crate) edges: StoredEdges<'a>,
    pub(crate) flags: &'a [bool],
    ghost flagged: { length flags.now ≡ length edges.kinds.now },
}

impl<'a> Contour<'a> {
    ghost use Rattle.coloring.specs.Contours.{stored_edges, contour_in, part};

    pub(crate) fn new(edges: StoredEdges<'a>, flags: &'a [bool]) -> Contour<'a>
        requires { length flags.now ≡ length edges.kinds.now }
        ensures { contour_in result ≡ record { edges = stored_edges edges.entry; corners = flags.now } }
    {
        Contour { edges, flags }
    }

    // The contour of the edges from `at` up to `end`.
    pub(crate) fn part(self, at: usize, end: usize) -> Contour<'a>
        requires { (at ≤ end) × (end ≤ length self.flags.now) }
        ensures { contour_in result ≡ part (contour_in self.entry) at end }
    {
        Contour {
            edges: self.edges.part(at, end),
            flags: &self.flags[at..end],
        }
    }
}

// The contours of an outline: how many edges each has, and all of them as one.
#[derive(Clone, Copy)]
pub(crate) struct Contours<'a> {
    pub(crate) lengths: &'a [u16],
    pub(crate) all: Contour<'a>,
    ghost whole: { total lengths.now ≡ length all.edges.kinds.now },
    ghost contours_few: { length lengths.now ≤ max_contours },
}
