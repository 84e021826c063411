// The spline table of coloring/by_distance.rs: one offer of a pair of splines.
ghost use Rattle.std.specs.Prelude.{◌≡◌, ◌+◌, ◌*◌, ◌<◌, length};
ghost use Rattle.coloring.specs.Answers.{checked_answer, first_refusal};
ghost use Rattle.coloring.specs.Recolor.{Offerable};
ghost use Rattle.coloring.specs.SplineTable.{rule_answer, offer_answer, table_of, table_in, offered, SameTable, walked_on, enter_pair, try_add_edge};
ghost use Rattle.coloring.specs.SplineTable.{at_most, sound, check_offer, offer};

use crate::edge_matrix::EdgeMatrix;
use crate::limits::MAX_SPLINES;
use crate::recolor::{first_possible_color, recolor, vertex_possible_colors};
use crate::refusal::Refusal;

// A spline table is two buffers: the colour of each of n splines, and n × n entries by rows, 1 where a pair is kept.
#[derive(Drop)]
pub struct SplineTable<'a> {
    pub coloring: &'a mut [u8],
    pub edge_matrix: &'a mut [u8],
}

// What became of an offer that is not refused. The number is the counter of the walk, 0 where there was none.
// No Result: a declined offer is no error, and `Result<Result<u8, u8>, Refusal>` would be no plainer.
#[derive(Clone, Copy)]
pub enum Offer {
    Kept(u8),
    Declined(u8),
}

// Whether no number is above `most`. A loop and not `all`: with no early end it runs on many bytes at a time.
fn at_most(values: &[u8], most: u8) -> bool
    ensures { result ≡ at_most most values.now }
{
    let mut good = true;
    for value in values {
        good &= *value <= most;
    }
    good
}

// Whether a table is sound: its numbers one after the other, and each pair once, both ways round. The colours are
// another buffer, so a clause ties the side of the entries to them.
fn is_sound(coloring: &[u8], edge_matrix: EdgeMatrix) -> bool
    requires { edge_matrix.n ≡ length coloring.now }
    ensures { result ≡ sound (table_of coloring.now edge_matrix.entry.entries.now) }
{
    let colors = at_most(coloring, 2);
    let entries = at_most(edge_matrix.entries, 1);
    colors & entries & edge_matrix.is_symmetric()
}

impl SplineTable<'_> {
    // Sets both entries of a pair to e.
    pub(crate) fn enter_pair(&mut self, a: usize, b: usize, e: u8)
        requires { (a * length self.old.coloring.now + b < length self.old.edge_matrix.now)
            × (b * length self.old.coloring.now + a < length self.old.edge_matrix.now) }
        ensures entered { self.new.edge_matrix.now ≡ enter_pair (length self.old.coloring.now) self.old.edge_matrix.now a b e }
        ensures colors { self.new.coloring.now ≡ self.old.coloring.now }
        ensures same { SameTable self.old self.new }
    {
        let n = self.coloring.len();
        self.edge_matrix[a * n + b] = e;
        self.edge_matrix[b * n + a] = e;
    }

    // The first refusal of an offer of the splines a and b.
    fn check_offer(&self, a: usize, b: usize) -> Result<(), Refusal>
        ensures { checked_answer result ≡ first_refusal (check_offer (table_in self.now) a b) }
    {
        let n = self.coloring.len();
        if n > MAX_SPLINES {
            return Err(Refusal::TooMany);
        }
        if self.edge_matrix.len() != n * n {
            return Err(Refusal::LengthMismatch);
        }
        let edge_matrix = EdgeMatrix {
            entries: self.edge_matrix,
            n,
        };
        if !is_sound(self.coloring, edge_matrix) {
            return Err(Refusal::BadTable);
        }
        if n <= a || n <= b || a == b {
            return Err(Refusal::BadTable);
        }
        Ok(())
    }

    // The offer of a pair that is entered, where b has no free colour: the colours of a walk on a copy, or
    // the colours as they were, without the pair.
    fn add_edge_by_walk(&mut self, a: usize, b: usize) -> Offer
        requires { Offerable self.old.coloring.now self.old.edge_matrix.now a b }
        ensures answer { offered (rule_answer result) self.new ≡ walked_on self.old.coloring.now self.old.edge_matrix.now a b }
        ensures same { SameTable self.old self.new }
    {
        let coloring = &mut *self.coloring;
        let edge_matrix = &mut *self.edge_matrix;
        let n = coloring.len();
        let mut buffer = [0u8; MAX_SPLINES];
        let entered = EdgeMatrix {
            entries: edge_matrix,
            n,
        };
        let offer = recolor(&mut buffer[..n], coloring, entered, a, b);
        match offer {
            Offer::Kept(_) => coloring.copy_from_slice(&buffer[..n]),
            Offer::Declined(_) => self.enter_pair(a, b, 0),
        }
        offer
    }

    // The rule of an offer, without the checks.
    pub(crate) fn try_add_edge_unchecked(&mut self, a: usize, b: usize) -> Offer
        requires { Offerable self.old.coloring.now self.old.edge_matrix.now a b }
        ensures answer { offered (rule_answer result) self.new ≡ try_add_edge (table_in self.old) a b }
        ensures same { SameTable self.old self.new }
    {
        self.enter_pair(a, b, 1);
        let coloring = &mut *self.coloring;
        let edge_matrix = &mut *self.edge_matrix;
        if coloring[a] != coloring[b] {
            return Offer::Kept(0); // the colours differ
        }
        let entered = EdgeMatrix {
            entries: edge_matrix,
            n: coloring.len(),
        };
        let possible = vertex_possible_colors(coloring, entered.row(b));
        if possible != 0 {
            coloring[b] = first_possible_color(possible);
            return Offer::Kept(0); // b has a free colour
        }
        self.add_edge_by_walk(a, b)
    }

    // Offers the pair of splines a and b.
    pub fn try_add_edge(&mut self, a: usize, b: usize) -> Result<Offer, Refusal>
        ensures answer { offered (offer_answer result) self.new ≡ offer (table_in self.old) a b }
        ensures same { SameTable self.old self.new }
    {
        self.check_offer(a, b)?;
        Ok(self.try_add_edge_unchecked(a, b))
    }
}
