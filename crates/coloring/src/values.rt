// What the splines of a shape get, a byte each, contour after contour: colours drawn with a pen, numbers, or the
// colours that their distances give.
ghost use Rattle.std.specs.Prelude.{◌≡◌, map, ◌≤◌, length};
ghost use Rattle.geometry.specs.EdgeColor.{bits_of};
ghost use Rattle.coloring.specs.Answers.{checked_answer, first_refusal};
ghost use Rattle.coloring.specs.Lists.{range};
ghost use Rattle.coloring.specs.Limits.{max_splines};
ghost use Rattle.coloring.specs.Places.{total};
ghost use Rattle.coloring.specs.Switching.{init_color, ColorsHeld};
ghost use Rattle.coloring.specs.Splines.{spline_count};
ghost use Rattle.coloring.specs.Values.{spline_colors, shape_colors, spline_color, spline_values, middle_value, check_marking};
ghost use Rattle.coloring.specs.Outline.{cut};
ghost use Rattle.coloring.specs.Contours.{contour_in, contours_in};

use crate::contour::{Contour, Contours};
use crate::corners::count_corners;
use crate::ink_trap::ink_trap_colors;
use crate::limits::MAX_SPLINES;
use crate::refusal::Refusal;
use crate::settings::{Marking, Strategy};
use crate::simple::simple_colors;
use crate::spline_colors::color_splines;
use crate::splines::spline_count;
use crate::switching::{Pen, init_color, switch_each};
use geometry::edge_color::EdgeColor;

// In the place of a spline's number: the edge is White. No Option: C gets this byte.
const NO_SPLINE: u8 = 255;

// ---- colours

// The colours of a contour's splines, and the pen after them.
fn spline_colors(strategy: Strategy, contour: Contour, pen: Pen, colors: &mut [u8]) -> Pen
    requires { length colors.old ≡ spline_count contour.flags.now }
    ensures { ColorsHeld (spline_colors strategy pen (contour_in contour.entry)) colors.new result }
{
    if count_corners(contour.flags) < 2 {
        return switch_each(pen, colors);
    }
    // no closure: the strategy is one of the settings, plain data that specs/ reads too
    match strategy {
        Strategy::Simple => simple_colors(pen, colors),
        Strategy::InkTrap => ink_trap_colors(contour, pen, colors),
    }
}

// All contours, one after the other, each with the pen that the one before left. `at` as in count_shape of shape.rt.
fn shape_colors(strategy: Strategy, contours: Contours, seed: u64, colors: &mut [u8])
    requires { length colors.old ≡ total (map spline_count (cut contours.lengths.now contours.all.flags.now)) }
    ensures { colors.new ≡ map bits_of (shape_colors strategy (init_color seed) (contours_in contours.entry)) }
{
    let mut pen = init_color(seed);
    let mut at: usize = 0;
    let mut to: usize = 0;
    for length in contours.lengths {
        let end = at + *length as usize;
        let contour = contours.all.part(at, end);
        let next = to + spline_count(contour.flags);
        pen = spline_colors(strategy, contour, pen, &mut colors[to..next]);
        at = end;
        to = next;
    }
}

// ---- numbers

// The numbers from 0 on.
fn count_up(numbers: &mut [u8])
    requires { length numbers.old ≤ max_splines }
    ensures { numbers.new ≡ range 0 (length numbers.old) }
{
    for (i, number) in numbers.iter_mut().enumerate() {
        *number = i as u8;
    }
}

// ---- colours by distance

// The colour of a spline by its number, as the colours of a spline table stand in bytes of the C interface.
fn spline_color(color: u8) -> EdgeColor
    ensures { result ≡ spline_color color }
{
    match color {
        1 => EdgeColor::Cyan,
        2 => EdgeColor::Magenta,
        _ => EdgeColor::Yellow,
    }
}

// The bytes of colours in the place of their numbers.
fn color_numbers(colors: &mut [u8])
    ensures { colors.new ≡ map (λ color. bits_of (spline_color color)) colors.old }
{
    for color in colors.iter_mut() {
        *color = spline_color(*color).bits();
    }
}

// ---- the bytes

// What the middle run of a teardrop gets.
pub(crate) fn middle_value(marking: Marking) -> u8
    ensures { result ≡ middle_value marking }
{
    match marking {
        Marking::Colors(_, _) | Marking::Distances(_) => EdgeColor::White.bits(),
        Marking::Numbers => NO_SPLINE,
    }
}

// A byte for each spline; or the refusal, where the splines cannot be marked.
pub(crate) fn spline_values(
    marking: Marking,
    distances: &[f64],
    contours: Contours,
    values: &mut [u8],
) -> Result<(), Refusal>
    requires { length values.old ≡ total (map spline_count (cut contours.lengths.now contours.all.flags.now)) }
    ensures answer { checked_answer result ≡ first_refusal (check_marking marking (length values.old) distances.now) }
    ensures bytes { result ≡ Ok tt → values.new ≡ spline_values marking distances.now (contours_in contours.entry) }
{
    match marking {
        Marking::Colors(strategy, seed) => {
            shape_colors(strategy, contours, seed, values);
            Ok(())
        }
        Marking::Numbers => {
            if values.len() > MAX_SPLINES {
                return Err(Refusal::TooMany);
            }
            count_up(values);
            Ok(())
        }
        Marking::Distances(seed) => {
            color_splines(distances, seed, values)?;
            color_numbers(values);
            Ok(())
        }
    }
}
