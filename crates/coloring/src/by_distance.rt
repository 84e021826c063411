// By-distance colouring of an outline, after coloring/by_distance.rs with its distances given, and the collecting pass
// that numbers the splines.
ghost use Rattle.std.specs.Prelude.{◌≡◌};
ghost use Rattle.coloring.specs.Outline.{outline_in, result_in, colored_answer, outcome, SameBuffers};
ghost use Rattle.coloring.specs.EdgeColoring.{collect_splines, edge_coloring_by_distance};

use crate::edge_coloring::edge_coloring;
use crate::outline::{Counts, OutlineBuffers, ResultBuffers};
use crate::refusal::Refusal;
use crate::settings::{Division, Marking, Settings};

// The split outline, each edge with the number of its spline, or 255 where it is White.
pub fn collect_splines(
    outline: OutlineBuffers,
    threshold: f64,
    out: &mut ResultBuffers,
) -> Result<Counts, Refusal>
    ensures same_buffers { SameBuffers out.old out.new }
    ensures colored { outcome (colored_answer result) (result_in out.new)
        ≡ collect_splines (outline_in outline.entry) threshold (result_in out.old) }
{
    let settings = Settings::new(Division::Source, Marking::Numbers, threshold);
    edge_coloring(settings, outline, &[], out)
}

// By-distance colouring of an outline, with a distance for each pair of splines i < j, by i then j. The distances are
// read and `out` is written, so they stay apart.
pub fn edge_coloring_by_distance(
    outline: OutlineBuffers,
    threshold: f64,
    seed: u64,
    distances: &[f64],
    out: &mut ResultBuffers,
) -> Result<Counts, Refusal>
    ensures same_buffers { SameBuffers out.old out.new }
    ensures colored { outcome (colored_answer result) (result_in out.new)
        ≡ edge_coloring_by_distance (outline_in outline.entry) threshold seed distances.now (result_in out.old) }
{
    let settings = Settings::new(Division::Source, Marking::Distances(seed), threshold);
    edge_coloring(settings, outline, distances, out)
}
