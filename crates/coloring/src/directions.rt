// The unit directions of edges, in a buffer of four places an edge: x and y of the direction in which it starts, x and
// y of that in which it ends; and in another of two bytes an edge, 1 where (0, 1) stands in for such a direction, since
// its length is 0. The corners follow from the first (corners.rt).
ghost use Rattle.std.specs.Prelude.{◌≡◌, ◌≤◌, ◌+◌, ◌*◌, length, drop};
ghost use Rattle.coloring.specs.Limits.{max_edges};
ghost use Rattle.coloring.specs.Places.{total};
ghost use Rattle.coloring.specs.Fill.{fill_outcome};
ghost use Rattle.coloring.specs.Corners.{directions_of, stand_in_marks, marks_of};
ghost use Rattle.coloring.specs.Outline.{outline_in};
ghost use Rattle.coloring.specs.Contours.{stored_edges};
ghost use Rattle.coloring.specs.Directions.{direction_places, encode_directions, ends_at, directed_answer, edge_directions, buffers_at_entry, buffers_at_exit};

use crate::contour::StoredEdges;
use crate::outline::{OutlineBuffers, write_from};
use crate::refusal::Refusal;
use geometry::edge_segment::Directions;
use math::vector2::Vector2;

// The vectors of the two unit directions of an edge. Kept apart from geometry's Directions, which have the flags of
// stand-ins too.
#[derive(Clone, Copy)]
pub(crate) struct Ends {
    pub(crate) start: Vector2,
    pub(crate) end: Vector2,
}

// Those of the edge at place i of a flat buffer.
pub(crate) fn ends_at(directions: &[f64], i: usize) -> Ends
    requires { 4 * i + 4 ≤ length directions.now }
    ensures { result ≡ ends_at (drop (4 * i) directions.now) }
{
    let at = 4 * i;
    Ends {
        start: Vector2::new(directions[at], directions[at + 1]),
        end: Vector2::new(directions[at + 2], directions[at + 3]),
    }
}

// The four places of the directions of an edge.
fn direction_places(d: Directions) -> [f64; 4]
    ensures { result ≡ direction_places d }
{
    let start = d.start.vector;
    let end = d.end.vector;
    [start.x, start.y, end.x, end.y]
}

// Whether they are stand-ins.
fn stand_in_marks(d: Directions) -> [u8; 2]
    ensures { result ≡ stand_in_marks d }
{
    [u8::from(d.start.zero_length), u8::from(d.end.zero_length)]
}

// How many stand-ins are marked. Kept apart from the sum of contour lengths: one for bytes and u16 would need a bound
// that says what the cast gives, and be no plainer.
pub(crate) fn count_marks(marks: &[u8]) -> usize
    requires { length marks.now ≤ 2 * max_edges }
    ensures { result ≡ total marks.now }
{
    marks.iter().map(|mark| *mark as usize).sum()
}

// The directions of all edges, and whether they are stand-ins. Contour by contour, since the compiler puts the root in
// its place only in two loops; by place, since an edge has places of its own in two buffers. `at` as in count_shape of
// shape.rt.
pub(crate) fn unit_directions(
    lengths: &[u16],
    edges: StoredEdges,
    out: &mut [f64],
    marks: &mut [u8],
)
    requires sizes { total lengths.now ≡ length edges.kinds.now }
    requires out_len { (length out.old ≡ 4 * length edges.kinds.now) × (length marks.old ≡ 2 * length edges.kinds.now) }
    ensures out_after { out.new ≡ encode_directions (directions_of (stored_edges edges.entry)) }
    ensures marks_after { marks.new ≡ marks_of (directions_of (stored_edges edges.entry)) }
{
    let mut at: usize = 0;
    for length in lengths {
        let end = at + *length as usize;
        for i in at..end {
            let d = edges.at(i).unit_directions();
            write_from(&direction_places(d), 4 * i, out);
            write_from(&stand_in_marks(d), 2 * i, marks);
        }
        at = end;
    }
}

// The directions of an outline's edges, contour by contour, for a host that reads edge by edge, and whether they are
// stand-ins.
pub fn edge_directions(
    outline: OutlineBuffers,
    out_directions: &mut [f64],
    out_stand_ins: &mut [u8],
) -> Result<usize, Refusal>
    ensures { fill_outcome (directed_answer result) (buffers_at_exit out_directions out_stand_ins)
        ≡ edge_directions (outline_in outline.entry) (buffers_at_entry out_directions out_stand_ins) }
{
    outline.check_outline()?;
    let kinds = outline.kinds;
    let points = outline.points;
    let edges = StoredEdges { kinds, points };
    let places = 4 * kinds.len();
    let marks = 2 * kinds.len();
    if places > out_directions.len() || marks > out_stand_ins.len() {
        return Err(Refusal::ResultTooShort);
    }
    unit_directions(
        outline.lengths,
        edges,
        &mut out_directions[..places],
        &mut out_stand_ins[..marks],
    );
    Ok(kinds.len())
}
