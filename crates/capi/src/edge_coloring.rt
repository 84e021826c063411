// Simple and ink-trap colouring of an outline. The buffers are parameters of their own, as the C interface has them
// (lib.rt).
ghost use Rattle.std.specs.Prelude.{◌≡◌};
ghost use Rattle.coloring.specs.Outline.{given, at_entry, at_exit};
ghost use Rattle.coloring.specs.EdgeColoring.{edge_coloring_simple, edge_coloring_ink_trap};
ghost use Rattle.capi.specs.EdgeColoring.{colored_code, handed, hand_out};

use crate::answers::colored_code;
use coloring::edge_coloring::{edge_coloring_ink_trap, edge_coloring_simple};
use coloring::outline::{OutlineBuffers, ResultBuffers};

pub fn merelsplum_edge_coloring_simple(
    lengths: &[u16],
    kinds: &[u8],
    points: &[f64],
    threshold: f64,
    seed: u64,
    out_lengths: &mut [u16],
    out_kinds: &mut [u8],
    out_points: &mut [f64],
    out_colors: &mut [u8],
) -> u64
    ensures { handed result (at_exit out_lengths out_kinds out_points out_colors)
        ≡ hand_out colored_code (edge_coloring_simple (given lengths kinds points) threshold seed
        (at_entry out_lengths out_kinds out_points out_colors)) }
{
    let outline = OutlineBuffers {
        lengths,
        kinds,
        points,
    };
    let mut out = ResultBuffers {
        lengths: out_lengths,
        kinds: out_kinds,
        points: out_points,
        colors: out_colors,
    };
    colored_code(edge_coloring_simple(outline, threshold, seed, &mut out))
}

pub fn merelsplum_edge_coloring_ink_trap(
    lengths: &[u16],
    kinds: &[u8],
    points: &[f64],
    threshold: f64,
    seed: u64,
    out_lengths: &mut [u16],
    out_kinds: &mut [u8],
    out_points: &mut [f64],
    out_colors: &mut [u8],
) -> u64
    ensures { handed result (at_exit out_lengths out_kinds out_points out_colors)
        ≡ hand_out colored_code (edge_coloring_ink_trap (given lengths kinds points) threshold seed
        (at_entry out_lengths out_kinds out_points out_colors)) }
{
    let outline = OutlineBuffers {
        lengths,
        kinds,
        points,
    };
    let mut out = ResultBuffers {
        lengths: out_lengths,
        kinds: out_kinds,
        points: out_points,
        colors: out_colors,
    };
    colored_code(edge_coloring_ink_trap(outline, threshold, seed, &mut out))
}
