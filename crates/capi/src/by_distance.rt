// The collecting pass, and by-distance colouring of an outline. The buffers are parameters of their own, as the C
// interface has them (lib.rt).
ghost use Rattle.std.specs.Prelude.{◌≡◌};
ghost use Rattle.coloring.specs.Outline.{given, at_entry, at_exit};
ghost use Rattle.coloring.specs.EdgeColoring.{collect_splines, edge_coloring_by_distance};
ghost use Rattle.capi.specs.EdgeColoring.{collected_code, colored_code, handed, hand_out};

use crate::answers::{collected_code, colored_code};
use coloring::by_distance::{collect_splines, edge_coloring_by_distance};
use coloring::outline::{OutlineBuffers, ResultBuffers};

pub fn merelsplum_collect_splines(
    lengths: &[u16],
    kinds: &[u8],
    points: &[f64],
    threshold: f64,
    out_lengths: &mut [u16],
    out_kinds: &mut [u8],
    out_points: &mut [f64],
    out_splines: &mut [u8],
) -> u64
    ensures { handed result (at_exit out_lengths out_kinds out_points out_splines)
        ≡ hand_out collected_code (collect_splines (given lengths kinds points) threshold
        (at_entry out_lengths out_kinds out_points out_splines)) }
{
    let outline = OutlineBuffers {
        lengths,
        kinds,
        points,
    };
    let mut out = ResultBuffers {
        lengths: out_lengths,
        kinds: out_kinds,
        points: out_points,
        colors: out_splines,
    };
    collected_code(collect_splines(outline, threshold, &mut out))
}

pub fn merelsplum_edge_coloring_by_distance(
    lengths: &[u16],
    kinds: &[u8],
    points: &[f64],
    threshold: f64,
    seed: u64,
    distances: &[f64],
    out_lengths: &mut [u16],
    out_kinds: &mut [u8],
    out_points: &mut [f64],
    out_colors: &mut [u8],
) -> u64
    ensures { handed result (at_exit out_lengths out_kinds out_points out_colors)
        ≡ hand_out colored_code (edge_coloring_by_distance (given lengths kinds points) threshold seed
        distances.now
        (at_entry out_lengths out_kinds out_points out_colors)) }
{
    let outline = OutlineBuffers {
        lengths,
        kinds,
        points,
    };
    let mut out = ResultBuffers {
        lengths: out_lengths,
        kinds: out_kinds,
        points: out_points,
        colors: out_colors,
    };
    colored_code(edge_coloring_by_distance(outline, threshold, seed, distances, &mut out))
}
