// The recolouring behind an offer, after coloring/by_distance.rs: the free colours of a spline, the
// queue of splines that lost their colour, and the walk that gives them others. A colour is 0, 1 or
// 2; 3 stands for the source's -1, a spline without a colour.
ghost use Rattle.std.specs.Prelude.{◌≡◌, cond, ◌-◌, ◌^◌, ◌<◌, ◌≤◌, length};
ghost use Rattle.coloring.specs.Recolor as defined;
ghost use Rattle.coloring.specs.Recolor.{vertex_possible_colors, first_possible_color, uncolor_one, uncolor_from, uncolor_same_neighbors};
ghost use Rattle.coloring.specs.Recolor.{Uncoloring, Walking, Offerable, recoloring, walk_from, ended};

use crate::edge_matrix::EdgeMatrix;
use crate::queue::Queue;
use crate::spline_table::Offer;

// A fourth byte beside the colours 0 to 2 of the caller's table, which are bytes.
const UNCOLORED: u8 = 3;

const MAX_RECOLOR_STEPS: u8 = 16;

const FIRST_POSSIBLE_COLOR: [u8; 8] = [3, 0, 1, 0, 2, 2, 1, 0];

// Whether some spline that the row joins has the colour c. A loop and not `any`: with no early end it runs on
// many bytes at a time. One place serves both slices, which are as long as each other.
fn uses(coloring: &[u8], entries: &[u8], c: u8) -> bool
    requires { length coloring.now ≡ length entries.now }
    ensures { result ≡ defined.uses c coloring.now entries.now }
{
    let mut found = false;
    for (i, color) in coloring.iter().enumerate() {
        found |= (entries[i] != 0) & (*color == c);
    }
    found
}

// The colour as a set of one, or the empty set where it is used.
fn unless_used(used: bool, set: u8) -> u8
    ensures { result ≡ cond used 0 set }
{
    if used { 0 } else { set }
}

// The colours that no neighbour has, as a set: 1 for the colour 0, 2 for 1, 4 for 2.
pub(crate) fn vertex_possible_colors(coloring: &[u8], entries: &[u8]) -> u8
    requires { length coloring.now ≡ length entries.now }
    ensures { result ≡ vertex_possible_colors coloring.now entries.now }
{
    let first = unless_used(uses(coloring, entries, 0), 1);
    let second = unless_used(uses(coloring, entries, 1), 2);
    let third = unless_used(uses(coloring, entries, 2), 4);
    first + second + third
}

// The colour taken of a set: the source's table.
pub(crate) fn first_possible_color(possible: u8) -> u8
    requires { possible < 8 }
    ensures { result ≡ first_possible_color possible }
{
    FIRST_POSSIBLE_COLOR[possible as usize]
}

// The colours while a walk goes on, and the splines that wait for one.
#[derive(Drop)]
struct Walker<'a> {
    coloring: &'a mut [u8],
    queue: Queue,
}

// `Uncoloring` asks that the queue has room, that the row has an entry for each spline, and that c is a colour. It is
// a clause and not a type: it ties a walker, which changes, to two values that do not.
impl Walker<'_> {
    // Spline i loses its colour and waits at the end of the queue, where the row joins it and its
    // colour is c.
    fn uncolor_one(&mut self, entries: &[u8], c: u8, i: usize)
        requires { Uncoloring (recoloring self.old) entries.now c × (i < length self.old.coloring.now) }
        ensures after { recoloring self.new ≡ uncolor_one entries.now c i (recoloring self.old) }
        ensures same { self.new.coloring.ghost_name ≡ self.old.coloring.ghost_name }
    {
        if entries[i] != 0 && self.coloring[i] == c {
            self.coloring[i] = UNCOLORED;
            self.queue.push_back(i as u8);
        }
    }

    // The same for the splines from..to, in order: a row has two runs of them around v.
    fn uncolor_from(&mut self, entries: &[u8], c: u8, from: usize, to: usize)
        requires { Uncoloring (recoloring self.old) entries.now c × (to ≤ length self.old.coloring.now) }
        ensures after { recoloring self.new ≡ uncolor_from entries.now c from (to - from) (recoloring self.old) }
        ensures same { self.new.coloring.ghost_name ≡ self.old.coloring.ghost_name }
    {
        for i in from..to {
            self.uncolor_one(entries, c, i);
        }
    }

    // The same for the neighbours of v: the upper places first, then the lower.
    fn uncolor_same_neighbors(&mut self, entries: &[u8], c: u8, v: usize)
        requires { Uncoloring (recoloring self.old) entries.now c × (v < length self.old.coloring.now) }
        ensures after { recoloring self.new ≡ uncolor_same_neighbors entries.now c v (recoloring self.old) }
        ensures same { self.new.coloring.ghost_name ≡ self.old.coloring.ghost_name }
    {
        let n = self.coloring.len();
        self.uncolor_from(entries, c, v + 1, n);
        self.uncolor_from(entries, c, 0, v);
    }

    // Takes the splines off the queue, first come first served, until it is empty, or the counter is 16
    // or more when one is taken. A spline takes a free colour; where it has none, the colour step mod 3,
    // at the first step that does not meet the colour c of a, and its neighbours lose that colour.
    fn walk(&mut self, edge_matrix: EdgeMatrix, a: usize, c: u8) -> Offer
        requires { Walking (recoloring self.old) edge_matrix.n a }
        ensures end { ended result self.new.coloring.now ≡ walk_from edge_matrix.entry.entries.now a c (recoloring self.old) }
        ensures same { self.new.coloring.ghost_name ≡ self.old.coloring.ghost_name }
    {
        let mut step: u8 = 0;
        // The source's loops: the label ends the walk, and the inner one is left by `break`.
        'walk: loop {
            let Some(spline) = self.queue.pop_front() else {
                break 'walk Offer::Kept(step);
            };
            if MAX_RECOLOR_STEPS <= step {
                break 'walk Offer::Declined(step);
            }
            let i = spline as usize;
            let entries = edge_matrix.row(i);
            let coloring = &mut *self.coloring;
            let possible = vertex_possible_colors(coloring, entries);
            if possible != 0 {
                coloring[i] = first_possible_color(possible);
                continue 'walk;
            }
            let joined = entries[a] != 0;
            let mut color: u8;
            loop {
                color = step % 3;
                step += 1;
                let met = joined && color == c;
                if !met {
                    break;
                }
            }
            coloring[i] = color;
            self.uncolor_same_neighbors(entries, color, i);
        }
    }
}

// The set of the two other colours.
fn other_colors(c: u8) -> u8
    requires { c < 3 }
    ensures { result ≡ 7 - 2 ^ c }
{
    7 - (1 << c)
}

// The walk of an offer, on a copy of the colours: b takes the first of the two colours that a has
// not, and each neighbour that then has b's colour waits for another.
pub(crate) fn recolor(
    buffer: &mut [u8],
    coloring: &[u8],
    edge_matrix: EdgeMatrix,
    a: usize,
    b: usize,
) -> Offer
    requires offerable { Offerable coloring.now edge_matrix.entries.now a b }
    requires size { edge_matrix.n ≡ length coloring.now }
    requires room { length buffer.old ≡ length coloring.now }
    ensures { ended result buffer.new ≡ defined.recolor coloring.now edge_matrix.entry.entries.now a b }
{
    buffer.copy_from_slice(coloring);
    let c = coloring[a];
    let d = first_possible_color(other_colors(c));
    buffer[b] = d;
    let entries = edge_matrix.row(b);
    let mut walker = Walker {
        coloring: buffer,
        queue: Queue::new(),
    };
    walker.uncolor_same_neighbors(entries, d, b);
    walker.walk(edge_matrix, a, c)
}
