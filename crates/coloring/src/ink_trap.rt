// The colours of a contour's splines in ink-trap colouring, after `edge_coloring_ink_trap` of coloring/mod.rs, as
// bytes. The corner records stand in an array of the function that has the loops over it.
ghost use Rattle.std.specs.Prelude.{◌≡◌, ◌&&◌, ◌<◌, length};
ghost use Rattle.std.specs.Float.Ieee as Ieee;
ghost use Rattle.coloring.specs.Switching.{ColorsHeld};
ghost use Rattle.coloring.specs.Corners.{corner_count};
ghost use Rattle.coloring.specs.Contours.{contour_in};
ghost use Rattle.coloring.specs.InkTrap.{corner_at, ink_trap_colors};

use crate::contour::Contour;
use crate::corners::estimate_edge_length;
use crate::limits::MAX_EDGES;
use crate::simple::simple_colors;
use crate::switching::{Pen, banned_before, switch_color_banned, unshared};
use geometry::edge_color::EdgeColor;

// A corner of the ink-trap colouring: its place, the estimated length of the spline before it, whether it is minor, its
// colour. The fields are the source's.
#[derive(Clone, Copy)]
pub struct InkTrapCorner {
    pub index: usize,
    pub prev_edge_length_estimate: f64,
    pub minor: bool,
    pub color: EdgeColor,
}

// A corner before it is marked and coloured.
fn corner_at(index: usize, spline_length: f64) -> InkTrapCorner
    ensures { result ≡ corner_at index spline_length }
{
    InkTrapCorner {
        index,
        prev_edge_length_estimate: spline_length,
        minor: false,
        color: EdgeColor::Black,
    }
}

// Whether the next estimate is below this one and below the one after it.
fn is_minor(this: f64, next: f64, third: f64) -> bool
    ensures { result ≡ (Ieee.lt next this && Ieee.lt next third) }
{
    this > next && next < third
}

// Four splines or more: minor corners by the estimated lengths. Out of line, so that no other colouring has the array
// on its stack.
#[inline(never)]
fn colors_by_length(contour: Contour, pen: Pen, colors: &mut [u8]) -> Pen
    requires { (3 < corner_count contour.flags.now) × (length colors.old ≡ corner_count contour.flags.now) }
    ensures { ColorsHeld (ink_trap_colors (contour_in contour.entry) pen) colors.new result }
{
    // the corners, each with the estimated length since the one before; they are counted, since an array takes no push
    let mut array = [corner_at(0, 0.0); MAX_EDGES];
    let mut spline_length = 0.0;
    let mut count = 0;
    'measure: for (index, flag) in contour.flags.iter().enumerate() {
        if *flag {
            array[count] = corner_at(index, spline_length);
            count += 1;
            spline_length = 0.0;
        }
        spline_length += estimate_edge_length(contour.edges.at(index));
    }
    let corners = &mut array[..count];
    // minor corners
    corners[0].prev_edge_length_estimate += spline_length;
    let mut left = count;
    'mark: for i in 0..count {
        let minor = is_minor(
            corners[i].prev_edge_length_estimate,
            corners[(i + 1) % count].prev_edge_length_estimate,
            corners[(i + 2) % count].prev_edge_length_estimate,
        );
        corners[i].minor = minor;
        if minor {
            left -= 1;
        }
    }
    // each major corner switches the colour; the last of them may not take the first one's
    let mut ink = pen;
    let mut initial_color = EdgeColor::Black; // none yet; no Option, as in the source, which tests for Black
    'majors: for corner in corners.iter_mut() {
        if !corner.minor {
            left -= 1;
            ink = switch_color_banned(ink, banned_before(initial_color, left));
            corner.color = ink.color;
            if initial_color == EdgeColor::Black {
                initial_color = ink.color;
            }
        }
    }
    // each minor corner takes its colour from its neighbours'
    let mut color = ink.color;
    'minors: for i in 0..count {
        if corners[i].minor {
            corners[i].color = unshared(color, corners[(i + 1) % count].color);
        } else {
            color = corners[i].color;
        }
        colors[i] = corners[i].color.bits();
    }
    Pen {
        color: corners[count - 1].color,
        ..ink
    }
}

// Two splines or more. Only with more than three are there minor corners; else no length is asked for, and the colours
// are those of simple colouring.
pub(crate) fn ink_trap_colors(contour: Contour, pen: Pen, colors: &mut [u8]) -> Pen
    requires { (1 < corner_count contour.flags.now) × (length colors.old ≡ corner_count contour.flags.now) }
    ensures { ColorsHeld (ink_trap_colors (contour_in contour.entry) pen) colors.new result }
{
    if colors.len() <= 3 {
        return simple_colors(pen, colors);
    }
    colors_by_length(contour, pen, colors)
}
