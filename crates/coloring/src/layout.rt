// The edges that a contour comes to in the result: one of one edge or two with one corner is split in thirds, any other
// is copied. After the split in `color_teardrop` of coloring/mod.rs.
ghost use Rattle.std.specs.Prelude.{◌≡◌, ◌*◌, ◌≤◌, ◌<◌, length};
ghost use mathlib.Core.List.{map, flatten};
ghost use Rattle.coloring.specs.Limits.{max_edges};
ghost use Rattle.coloring.specs.Places.{rotate};
ghost use Rattle.coloring.specs.Layout.{thirds, splits, result_edges};
ghost use Rattle.coloring.specs.Outline.{EdgesFit, StoredFrom};
ghost use Rattle.coloring.specs.Contours.{stored_edges};

use crate::contour::StoredEdges;
use crate::corners::count_corners;
use crate::outline::ResultBuffers;
use geometry::edge_segment::EdgeSegment;

// Whether a contour is split.
#[tactic(auto, unfolding(crate::specs::Layout::splits))]
pub(crate) fn splits(flags: &[bool]) -> bool
    ensures { result ≡ splits flags.now }
{
    flags.len() <= 2 && count_corners(flags) == 1
}

// How many edges a contour comes to.
#[tactic(auto, unfolding(crate::specs::Layout::result_edges))]
pub(crate) fn result_edges(flags: &[bool]) -> usize
    requires { length flags.now ≤ max_edges }
    ensures { result ≡ result_edges flags.now }
{
    if splits(flags) {
        return 3 * flags.len();
    }
    flags.len()
}

// The thirds of an edge, written from place i on.
fn write_thirds(e: EdgeSegment, i: usize, out: &mut ResultBuffers)
    requires { EdgesFit i 3 out.old }
    ensures { StoredFrom i (thirds e) out.old out.new }
{
    let parts = e.split_in_thirds();
    let first = parts.first;
    let second = parts.second;
    let third = parts.third;
    out.write_edge(i, first);
    out.write_edge(i + 1, second);
    out.write_edge(i + 2, third);
}

// A contour of one edge or two, split from the corner on, written from place `to` on.
pub(crate) fn split_edges(edges: StoredEdges, corner: usize, to: usize, out: &mut ResultBuffers)
    requires contour { (length edges.kinds.now ≤ 2) × (corner < length edges.kinds.now) }
    requires room { EdgesFit to (3 * length edges.kinds.now) out.old }
    ensures { StoredFrom to (flatten (map thirds (rotate corner (stored_edges edges.entry)))) out.old out.new }
{
    let m = edges.len();
    for i in 0..m {
        write_thirds(edges.at((corner + i) % m), to + 3 * i, out);
    }
}

// The edges of a contour as they are, written from place `to` on. One by one, since unused places become +0.
pub(crate) fn copy_edges(edges: StoredEdges, to: usize, out: &mut ResultBuffers)
    requires { EdgesFit to (length edges.kinds.now) out.old }
    ensures { StoredFrom to (stored_edges edges.entry) out.old out.new }
{
    for i in 0..edges.len() {
        out.write_edge(to + i, edges.at(i));
    }
}
