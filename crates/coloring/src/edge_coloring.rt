// The one function behind every colouring; simple and ink-trap colouring of an outline as the source has them, after
// `edge_coloring_simple` and `edge_coloring_ink_trap` of coloring/mod.rs.
ghost use Rattle.std.specs.Prelude.{◌≡◌};
ghost use Rattle.coloring.specs.Outline.{outline_in, result_in, colored_answer, outcome, SameBuffers};
ghost use Rattle.coloring.specs.EdgeColoring.{edge_coloring, edge_coloring_simple, edge_coloring_ink_trap};

use crate::contour::{Contour, Contours, StoredEdges};
use crate::corners::find_corners;
use crate::limits::{MAX_DISTANCES, MAX_EDGES};
use crate::outline::{Counts, OutlineBuffers, ResultBuffers};
use crate::refusal::Refusal;
use crate::settings::{Division, Marking, Settings, Strategy};
use crate::shape::color_shape;

// The outline coloured, or its splines numbered, as the settings ask: the checks; the corners and the stand-ins, once;
// then the values of the splines, the edges of the result and the byte of each.
pub fn edge_coloring(
    settings: Settings,
    outline: OutlineBuffers,
    distances: &[f64],
    out: &mut ResultBuffers,
) -> Result<Counts, Refusal>
    ensures same_buffers { SameBuffers out.old out.new }
    ensures colored { outcome (colored_answer result) (result_in out.new)
        ≡ edge_coloring settings (outline_in outline.entry) distances.now (result_in out.old) }
{
    if distances.len() > MAX_DISTANCES {
        return Err(Refusal::TooMany);
    }
    outline.check(settings.threshold)?;
    let lengths = outline.lengths;
    let kinds = outline.kinds;
    let points = outline.points;
    let edges = StoredEdges { kinds, points };
    let n = edges.len();
    let mut flags = [false; MAX_EDGES];
    let stand_ins = find_corners(lengths, edges, settings.threshold, &mut flags[..n]);
    let all = Contour::new(edges, &flags[..n]);
    color_shape(
        settings,
        Contours { lengths, all },
        stand_ins,
        distances,
        out,
    )
}

// Simple colouring of an outline, with the given seed and corner threshold. Kept apart from ink-trap colouring: two
// names of the source, which C calls.
pub fn edge_coloring_simple(
    outline: OutlineBuffers,
    threshold: f64,
    seed: u64,
    out: &mut ResultBuffers,
) -> Result<Counts, Refusal>
    ensures same_buffers { SameBuffers out.old out.new }
    ensures colored { outcome (colored_answer result) (result_in out.new)
        ≡ edge_coloring_simple (outline_in outline.entry) threshold seed (result_in out.old) }
{
    let marking = Marking::Colors(Strategy::Simple, seed);
    let settings = Settings::new(Division::Source, marking, threshold);
    edge_coloring(settings, outline, &[], out)
}

// Ink-trap colouring of an outline, with the given seed and corner threshold.
pub fn edge_coloring_ink_trap(
    outline: OutlineBuffers,
    threshold: f64,
    seed: u64,
    out: &mut ResultBuffers,
) -> Result<Counts, Refusal>
    ensures same_buffers { SameBuffers out.old out.new }
    ensures colored { outcome (colored_answer result) (result_in out.new)
        ≡ edge_coloring_ink_trap (outline_in outline.entry) threshold seed (result_in out.old) }
{
    let marking = Marking::Colors(Strategy::InkTrap, seed);
    let settings = Settings::new(Division::Source, marking, threshold);
    edge_coloring(settings, outline, &[], out)
}
