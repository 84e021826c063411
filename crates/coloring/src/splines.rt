// A contour's corners cut it into splines. What a colouring gives to the splines, a byte each, is spread over the edges
// in one way.
ghost use Rattle.std.specs.Prelude.{◌≡◌, ◌-◌, ◌<◌, length, get_or};
ghost use Rattle.coloring.specs.Splines.{spline_count, spread, paint, Paintable};

use crate::corners::{count_corners, first_corner};
use crate::settings::Division;
use crate::teardrop::paint_runs;

// How many splines a contour has.
#[tactic(auto, unfolding(crate::specs::Splines::spline_count))]
pub(crate) fn spline_count(flags: &[bool]) -> usize
    ensures { result ≡ spline_count flags.now }
{
    if flags.is_empty() {
        return 0;
    }
    let corners = count_corners(flags);
    if corners < 2 {
        return corners + 1;
    }
    corners
}

// Each edge takes its spline's value. What stands before the first corner belongs to the last spline. One place serves
// the flags and what is written, which are as long as each other.
fn spread(flags: &[bool], values: &[u8], out: &mut [u8])
    requires { (0 < length values.now) × (length out.old ≡ length flags.now) }
    ensures { out.new ≡
        spread (get_or values.now (length values.now - 1) 0) values.now flags.now }
{
    let mut value = values[values.len() - 1];
    let mut rest = values.iter();
    for (i, flag) in flags.iter().enumerate() {
        if *flag {
            value = rest.next().copied().unwrap_or(value);
        }
        out[i] = value;
    }
}

// The values of a contour's edges, from those of its splines.
pub(crate) fn paint(division: Division, flags: &[bool], middle: u8, values: &[u8], out: &mut [u8])
    requires { Paintable flags.now values.now out.old }
    ensures { out.new ≡ paint division middle values.now flags.now }
{
    if flags.is_empty() {
        return;
    }
    if count_corners(flags) == 1 {
        paint_runs(
            division,
            first_corner(flags),
            values[0],
            middle,
            values[1],
            out,
        );
        return;
    }
    spread(flags, values, out);
}
