// The result of a whole shape: how long it is, its edges, and a byte for each of them.
ghost use Rattle.std.specs.Prelude.{◌≡◌, ◌≤◌, [], map, length};
ghost use Rattle.coloring.specs.Places.{total};
ghost use Rattle.coloring.specs.Corners.{found_in};
ghost use Rattle.coloring.specs.Layout.{layout, result_edges};
ghost use Rattle.coloring.specs.Splines.{spline_count, paint};
ghost use Rattle.coloring.specs.Values.{middle_value};
ghost use Rattle.coloring.specs.Outline.{cut, result_in, over_result, colored_answer, outcome, SameBuffers, RoomFrom, WrittenFrom};
ghost use Rattle.coloring.specs.Contours.{contour_in, contours_in};
ghost use Rattle.coloring.specs.Shape.{painted, deliver_found, Counted};

use crate::contour::{Contour, Contours};
use crate::corners::first_corner;
use crate::layout::{copy_edges, result_edges, split_edges, splits};
use crate::limits::MAX_SHAPE_SPLINES;
use crate::outline::{Counts, ResultBuffers};
use crate::refusal::Refusal;
use crate::settings::Settings;
use crate::splines::{paint, spline_count};
use crate::teardrop::paint_runs;
use crate::values::{middle_value, spline_values};

// How many contours and edges the result has, and how many splines; and the stand-ins of the outline. `at` is summed by
// hand, here and below: each contour begins where the one before ends, and no iterator of slices has such steps.
fn count_shape(contours: Contours, stand_ins: usize) -> Counts
    ensures { Counted contours.entry.lengths.now contours.entry.all.flags.now result × (result.stand_ins ≡ stand_ins) }
{
    let mut edges: usize = 0;
    let mut splines: usize = 0;
    let mut at: usize = 0;
    for length in contours.lengths {
        let end = at + *length as usize;
        let flags = &contours.all.flags[at..end];
        edges += result_edges(flags);
        splines += spline_count(flags);
        at = end;
    }
    Counts {
        contours: contours.lengths.len(),
        edges,
        splines,
        stand_ins,
    }
}

// A contour with the values of its splines, written from place `to` on: the edges that it comes to, and the byte of
// each. Values and result stay apart: the ones are read, the other is written.
fn write_contour(
    settings: Settings,
    contour: Contour,
    values: &[u8],
    to: usize,
    out: &mut ResultBuffers,
)
    requires valued { length values.now ≡ spline_count contour.flags.now }
    requires room { RoomFrom to (result_edges contour.flags.now) out.old }
    ensures { let laid = layout (contour_in contour.entry) in
        WrittenFrom to laid (paint settings.division (middle_value settings.marking) values.now laid.corners) out.old out.new }
{
    let division = settings.division;
    let middle = middle_value(settings.marking);
    let next = to + result_edges(contour.flags);
    if splits(contour.flags) {
        split_edges(contour.edges, first_corner(contour.flags), to, out);
        // the corner is now the start of the first edge
        let colors = &mut out.colors[to..next];
        paint_runs(division, 0, values[0], middle, values[1], colors);
    } else {
        copy_edges(contour.edges, to, out);
        let colors = &mut out.colors[to..next];
        paint(division, contour.flags, middle, values, colors);
    }
}

// All contours, one after the other, each with its own part of the values.
fn write_contours(settings: Settings, contours: Contours, values: &[u8], out: &mut ResultBuffers)
    requires valued { length values.now ≡ total (map spline_count (cut contours.lengths.now contours.all.flags.now)) }
    requires lengths_room { length contours.lengths.now ≤ length out.old.lengths.now }
    requires room { RoomFrom 0 (total (map result_edges (cut contours.lengths.now contours.all.flags.now))) out.old }
    ensures same_buffers { SameBuffers out.old out.new }
    ensures written { result_in out.new ≡ over_result
        (painted settings.division (middle_value settings.marking) values.now (map layout (contours_in contours.entry))) (result_in out.old) }
{
    let mut at: usize = 0;
    let mut from: usize = 0;
    let mut to: usize = 0;
    for (i, length) in contours.lengths.iter().enumerate() {
        let end = at + *length as usize;
        let contour = contours.all.part(at, end);
        let edges = result_edges(contour.flags);
        let up_to = from + spline_count(contour.flags);
        out.lengths[i] = edges as u16;
        write_contour(settings, contour, &values[from..up_to], to, out);
        at = end;
        from = up_to;
        to += edges;
    }
}

// Contours with their corners, and the stand-ins of the outline: a value for each spline, or the refusal; 11 where the
// counted result is longer than a buffer; then the result.
pub(crate) fn color_shape(
    settings: Settings,
    contours: Contours,
    stand_ins: usize,
    distances: &[f64],
    out: &mut ResultBuffers,
) -> Result<Counts, Refusal>
    ensures same_buffers { SameBuffers out.old out.new }
    ensures delivered { outcome (colored_answer result) (result_in out.new)
        ≡ deliver_found [] settings distances.now (found_in (contours_in contours.entry) stand_ins) (result_in out.old) }
{
    let counts = count_shape(contours, stand_ins);
    let splines = counts.splines;
    let mut values = [0u8; MAX_SHAPE_SPLINES];
    spline_values(
        settings.marking,
        distances,
        contours,
        &mut values[..splines],
    )?;
    if !out.have_room(counts) {
        return Err(Refusal::ResultTooShort);
    }
    write_contours(settings, contours, &values[..splines], out);
    Ok(counts)
}
