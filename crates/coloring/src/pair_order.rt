// The order in which by-distance colouring takes the pairs of splines, after "Sorted list of graph
// edges" of coloring/by_distance.rs: by distance, and equal ones by (i, j).
ghost use Rattle.std.specs.Prelude.{◌≡◌, map, length};
ghost use Rattle.coloring.specs.PairOrder.{valid_distance, distances_valid, ValidDistances, pairs_from, with_distances, pair_order};
ghost use Rattle.coloring.specs.Pairs.{spline_pair};

use std::cmp::OrderedFloat;

// A pair of splines a < b, and how far apart they are. The order of the fields is that of the pairs.
#[derive(Clone, Copy, Default, PartialEq, Eq, PartialOrd, Ord)]
pub(crate) struct GraphEdge {
    pub(crate) distance: OrderedFloat<f64>,
    pub(crate) a: u8,
    pub(crate) b: u8,
}

// Whether a distance is finite and not below zero; -0 passes.
fn valid_distance(d: f64) -> bool
    ensures { result ≡ valid_distance d }
{
    0.0 <= d && d < 1.0 / 0.0
}

// Whether each distance is finite and not below zero.
pub(crate) fn distances_valid(distances: &[f64]) -> bool
    ensures { result ≡ distances_valid distances.now }
{
    distances.iter().all(|d| valid_distance(*d))
}

// The pairs of n splines with their distances, by the first spline and then by the second. Place k is counted by hand:
// it runs on over both loops. The slices have a place for each pair, so n is not their length.
fn fill_pairs(edges: &mut [GraphEdge], distances: &[f64], n: usize)
    requires { ValidDistances n distances.now × (length edges.old ≡ length distances.now) }
    ensures { map spline_pair edges.new ≡ with_distances (pairs_from 0 n) distances.now }
{
    let mut k = 0;
    for a in 0..n {
        for b in a + 1..n {
            let distance = OrderedFloat(distances[k]);
            edges[k] = GraphEdge {
                distance,
                a: a as u8,
                b: b as u8,
            };
            k += 1;
        }
    }
}

// The pairs of n splines, nearest first. Here too n counts splines, and is not the length of the slices.
pub(crate) fn order_pairs(edges: &mut [GraphEdge], distances: &[f64], n: usize)
    requires { ValidDistances n distances.now × (length edges.old ≡ length distances.now) }
    ensures { map spline_pair edges.new ≡ pair_order n distances.now }
{
    fill_pairs(edges, distances, n);
    edges.sort_unstable();
}
