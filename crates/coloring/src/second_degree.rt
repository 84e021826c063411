// The starting colours of by-distance colouring: `color_second_degree_graph` of coloring/by_distance.rs.
ghost use Rattle.std.specs.Prelude.{◌≡◌, ◌<◌, length};
ghost use Rattle.coloring.specs.SecondDegree.{starting_color, color_second_degree_graph};

use crate::edge_matrix::EdgeMatrix;
use crate::recolor::vertex_possible_colors;
use crate::seed::{Draw, seed_extract};

// The colour of spline i by the set of its free colours, and the seed that is left.
fn starting_color(possible: u8, i: usize, seed: u64) -> Draw
    requires { (possible < 8) × (i < 64) }
    ensures { result ≡ starting_color possible i seed }
{
    match possible {
        1 => Draw { value: 0, seed },
        2 => Draw { value: 1, seed },
        3 => seed_extract::<2>(seed),
        4 => Draw { value: 2, seed },
        5 => {
            let draw = seed_extract::<2>(seed);
            let value = if draw.value == 0 { 2 } else { 0 };
            Draw { value, ..draw }
        }
        6 => {
            let draw = seed_extract::<2>(seed);
            let value = draw.value + 1;
            Draw { value, ..draw }
        }
        7 => {
            let draw = seed_extract::<3>(seed);
            let value = (draw.value + i as u64) % 3;
            Draw { value, ..draw }
        }
        _ => Draw { value: 0, seed },
    }
}

// Gives each spline in turn a colour that no neighbour before it has, where there is one.
pub(crate) fn color_second_degree_graph(coloring: &mut [u8], edge_matrix: EdgeMatrix, seed: u64)
    requires { edge_matrix.n ≡ length coloring.old }
    ensures { coloring.new ≡ color_second_degree_graph edge_matrix.entry.n edge_matrix.entry.entries.now seed }
{
    let mut rest = seed;
    for i in 0..edge_matrix.n {
        let entries = edge_matrix.row(i);
        let possible = vertex_possible_colors(&coloring[..i], &entries[..i]);
        let draw = starting_color(possible, i, rest);
        coloring[i] = draw.value as u8;
        rest = draw.seed;
    }
}
