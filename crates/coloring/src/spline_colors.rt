// By-distance colouring without outlines, after coloring/by_distance.rs from "Sorted list of graph
// edges" to the end of the offers: from the distances between splines and a seed to their colours.
ghost use Rattle.std.specs.Prelude.{◌≡◌, ◌≤◌, map, ◌*◌, ◌-◌, ◌/◌, length, position, not};
ghost use Rattle.coloring.specs.Limits.{max_distances};
ghost use Rattle.coloring.specs.SplineTable.{table_in, SameTable};
ghost use Rattle.coloring.specs.Sequence.{run};
ghost use Rattle.coloring.specs.PairOrder.{ValidDistances};
ghost use Rattle.coloring.specs.Pairs.{spline_pair, pair_of, TwoEach};
ghost use Rattle.coloring.specs.Answers.{checked_answer, first_refusal};
ghost use Rattle.coloring.specs.SplineColors.{is_zero, enter_pairs, color_in_order, color_splines, OfferableAll, Ordered};
ghost use Rattle.coloring.specs.SplineColors.{check_splines, splines_colored, color_splines_into};

use crate::edge_matrix::EdgeMatrix;
use crate::limits::{FEW_DISTANCES, MAX_DISTANCES, MAX_ENTRIES, MAX_SPLINES};
use crate::pair_order::{GraphEdge, distances_valid, order_pairs};
use crate::refusal::Refusal;
use crate::second_degree::color_second_degree_graph;
use crate::spline_table::SplineTable;

// Whether a pair is at distance zero; -0 is zero.
fn is_zero(edge: &GraphEdge) -> bool
    ensures { result ≡ is_zero (spline_pair edge.now) }
{
    edge.distance.0 == 0.0
}

// The place of the first pair that is not at distance zero.
fn first_not_zero(order: &[GraphEdge]) -> Option<usize>
    ensures { result ≡ position (λ e. not (is_zero (spline_pair e))) order.now }
{
    order.iter().position(|edge| !is_zero(edge))
}

// Enters each pair.
fn enter_pairs(table: &mut SplineTable, edges: &[GraphEdge])
    requires size { length table.old.edge_matrix.now ≡ length table.old.coloring.now * length table.old.coloring.now }
    requires pairs { TwoEach (length table.old.coloring.now) edges.now }
    ensures entered { table.new.edge_matrix.now ≡ enter_pairs (length table.old.coloring.now) (map pair_of edges.now) table.old.edge_matrix.now }
    ensures colors { table.new.coloring.now ≡ table.old.coloring.now }
    ensures same { SameTable table.old table.new }
{
    for edge in edges {
        table.enter_pair(edge.a as usize, edge.b as usize, 1);
    }
}

// Offers each pair.
fn offer_pairs(table: &mut SplineTable, edges: &[GraphEdge])
    requires { OfferableAll table.old.coloring.now table.old.edge_matrix.now edges.now }
    ensures offered { table_in table.new ≡ (run (table_in table.old) (map pair_of edges.now)).table }
    ensures same { SameTable table.old table.new }
{
    for edge in edges {
        table.try_add_edge_unchecked(edge.a as usize, edge.b as usize);
    }
}

// The colours of the splines, with the pairs in order and none entered yet.
fn color_in_order(table: &mut SplineTable, order: &[GraphEdge], seed: u64)
    requires { Ordered (length table.old.coloring.now) table.old.edge_matrix.now order.now }
    ensures colored { table.new.coloring.now ≡ color_in_order (length table.old.coloring.now) (map spline_pair order.now) seed }
    ensures same { SameTable table.old table.new }
{
    let zero_count = first_not_zero(order).unwrap_or(order.len());
    let (zeros, others) = order.split_at(zero_count);
    enter_pairs(table, zeros);
    let coloring = &mut *table.coloring;
    let edge_matrix = &mut *table.edge_matrix;
    let entered = EdgeMatrix {
        entries: edge_matrix,
        n: coloring.len(),
    };
    color_second_degree_graph(coloring, entered, seed);
    offer_pairs(table, others);
}

// The colours of splines whose distances passed the checks, with places for so many pairs. Out of line, so that no
// other colouring has these places on its stack.
#[inline(never)]
fn color_with_room<const PAIRS: usize>(distances: &[f64], seed: u64, coloring: &mut [u8])
    requires valid { ValidDistances (length coloring.old) distances.now }
    requires room { (length distances.now ≤ PAIRS) × (PAIRS ≤ max_distances) }
    ensures { coloring.new ≡ color_splines (length coloring.old) distances.now seed }
{
    let n = coloring.len();
    let m = distances.len();
    let size = n * n;
    let mut edges = [GraphEdge::default(); PAIRS];
    let mut edge_matrix = [0u8; MAX_ENTRIES];
    order_pairs(&mut edges[..m], distances, n);
    let mut table = SplineTable {
        coloring,
        edge_matrix: &mut edge_matrix[..size],
    };
    color_in_order(&mut table, &edges[..m], seed);
}

// The same, in few places where there are few pairs, since they are filled whole.
#[tactic(auto, using(crate::proofs::pair_order::PairLaws::pairs_most))]
fn color_valid(distances: &[f64], seed: u64, coloring: &mut [u8])
    requires { ValidDistances (length coloring.old) distances.now }
    ensures { coloring.new ≡ color_splines (length coloring.old) distances.now seed }
{
    if distances.len() <= FEW_DISTANCES {
        color_with_room::<FEW_DISTANCES>(distances, seed, coloring)
    } else {
        color_with_room::<MAX_DISTANCES>(distances, seed, coloring)
    }
}

// How many pairs so many splines have.
pub fn pair_count(splines: u32) -> usize
    ensures { result ≡ splines * (splines - 1) / 2 }
{
    let n = splines as usize;
    n * n.saturating_sub(1) / 2
}

// The first refusal of so many splines and their distances.
fn check_splines(splines: usize, distances: &[f64]) -> Result<(), Refusal>
    ensures { checked_answer result ≡ first_refusal (check_splines splines distances.now) }
{
    if splines > MAX_SPLINES || distances.len() > MAX_DISTANCES {
        return Err(Refusal::TooMany);
    }
    if distances.len() != pair_count(splines as u32) {
        return Err(Refusal::LengthMismatch);
    }
    if !distances_valid(distances) {
        return Err(Refusal::BadDistance);
    }
    Ok(())
}

// The colours 0 to 2 of as many splines as `coloring` has places, from the distance of each pair i < j, by i then j.
pub fn color_splines(distances: &[f64], seed: u64, coloring: &mut [u8]) -> Result<(), Refusal>
    ensures { splines_colored (checked_answer result) coloring.new ≡ color_splines_into distances.now seed coloring.old }
{
    check_splines(coloring.len(), distances)?;
    color_valid(distances, seed, coloring);
    Ok(())
}
