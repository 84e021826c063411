// The colourings of an outline and the collecting pass, with balanced teardrops.
// The buffers are parameters of their own, as the C interface has them (lib.rt).
ghost use Rattle.std.specs.Prelude.{◌≡◌, []};
ghost use Rattle.coloring.specs.declared.settings.Strategy.TheVariants.{Simple, InkTrap};
ghost use Rattle.coloring.specs.declared.settings.Marking.TheVariants.{Colors, Numbers, Distances};
ghost use Rattle.coloring.specs.declared.settings.Division.TheVariants.{Balanced};
ghost use Rattle.coloring.specs.Outline.{given, at_entry, at_exit};
ghost use Rattle.coloring.specs.EdgeColoring.{edge_coloring, settings_of};
ghost use Rattle.capi.specs.EdgeColoring.{collected_code, colored_code, handed, hand_out};

use crate::answers::{collected_code, colored_code};
use coloring::edge_coloring::edge_coloring;
use coloring::outline::{OutlineBuffers, ResultBuffers};
use coloring::settings::{Division, Marking, Settings, Strategy};

pub fn merelsplum_edge_coloring_simple_balanced(
    lengths: &[u16],
    kinds: &[u8],
    points: &[f64],
    threshold: f64,
    seed: u64,
    out_lengths: &mut [u16],
    out_kinds: &mut [u8],
    out_points: &mut [f64],
    out_colors: &mut [u8],
) -> u64
    ensures { handed result (at_exit out_lengths out_kinds out_points out_colors)
        ≡ hand_out colored_code (edge_coloring (settings_of Balanced (Colors Simple seed) threshold) (given lengths kinds points) []
        (at_entry out_lengths out_kinds out_points out_colors)) }
{
    let outline = OutlineBuffers {
        lengths,
        kinds,
        points,
    };
    let mut out = ResultBuffers {
        lengths: out_lengths,
        kinds: out_kinds,
        points: out_points,
        colors: out_colors,
    };
    let marking = Marking::Colors(Strategy::Simple, seed);
    let settings = Settings::new(Division::Balanced, marking, threshold);
    colored_code(edge_coloring(settings, outline, &[], &mut out))
}

pub fn merelsplum_edge_coloring_ink_trap_balanced(
    lengths: &[u16],
    kinds: &[u8],
    points: &[f64],
    threshold: f64,
    seed: u64,
    out_lengths: &mut [u16],
    out_kinds: &mut [u8],
    out_points: &mut [f64],
    out_colors: &mut [u8],
) -> u64
    ensures { handed result (at_exit out_lengths out_kinds out_points out_colors)
        ≡ hand_out colored_code (edge_coloring (settings_of Balanced (Colors InkTrap seed) threshold) (given lengths kinds points) []
        (at_entry out_lengths out_kinds out_points out_colors)) }
{
    let outline = OutlineBuffers {
        lengths,
        kinds,
        points,
    };
    let mut out = ResultBuffers {
        lengths: out_lengths,
        kinds: out_kinds,
        points: out_points,
        colors: out_colors,
    };
    let marking = Marking::Colors(Strategy::InkTrap, seed);
    let settings = Settings::new(Division::Balanced, marking, threshold);
    colored_code(edge_coloring(settings, outline, &[], &mut out))
}

pub fn merelsplum_collect_splines_balanced(
    lengths: &[u16],
    kinds: &[u8],
    points: &[f64],
    threshold: f64,
    out_lengths: &mut [u16],
    out_kinds: &mut [u8],
    out_points: &mut [f64],
    out_splines: &mut [u8],
) -> u64
    ensures { handed result (at_exit out_lengths out_kinds out_points out_splines)
        ≡ hand_out collected_code (edge_coloring (settings_of Balanced Numbers threshold) (given lengths kinds points) []
        (at_entry out_lengths out_kinds out_points out_splines)) }
{
    let outline = OutlineBuffers {
        lengths,
        kinds,
        points,
    };
    let mut out = ResultBuffers {
        lengths: out_lengths,
        kinds: out_kinds,
        points: out_points,
        colors: out_splines,
    };
    let settings = Settings::new(Division::Balanced, Marking::Numbers, threshold);
    collected_code(edge_coloring(settings, outline, &[], &mut out))
}

pub fn merelsplum_edge_coloring_by_distance_balanced(
    lengths: &[u16],
    kinds: &[u8],
    points: &[f64],
    threshold: f64,
    seed: u64,
    distances: &[f64],
    out_lengths: &mut [u16],
    out_kinds: &mut [u8],
    out_points: &mut [f64],
    out_colors: &mut [u8],
) -> u64
    ensures { handed result (at_exit out_lengths out_kinds out_points out_colors)
        ≡ hand_out colored_code (edge_coloring (settings_of Balanced (Distances seed) threshold) (given lengths kinds points) distances.now
        (at_entry out_lengths out_kinds out_points out_colors)) }
{
    let outline = OutlineBuffers {
        lengths,
        kinds,
        points,
    };
    let mut out = ResultBuffers {
        lengths: out_lengths,
        kinds: out_kinds,
        points: out_points,
        colors: out_colors,
    };
    let settings = Settings::new(Division::Balanced, Marking::Distances(seed), threshold);
    colored_code(edge_coloring(settings, outline, distances, &mut out))
}
