// The three runs of a contour with one corner, after `color_teardrop` of coloring/mod.rs. What the edges get stands in
// a slice of bytes.
ghost use Rattle.std.specs.Prelude.{◌≡◌, ◌≤◌, ◌<◌, length};
ghost use Rattle.coloring.specs.Limits.{max_result_edges};
ghost use Rattle.coloring.specs.Places.{by_place};
ghost use Rattle.coloring.specs.Teardrop.{third_of, runs};
ghost use Rattle.coloring.specs.Trichotomy.{number_of};

use crate::settings::Division;
use crate::trichotomy::{Third, third_by};

// What a third gets: a byte of the result's buffer, which the C interface hands over.
fn third_of(first: u8, middle: u8, last: u8, third: Third) -> u8
    ensures { result ≡ third_of first middle last (number_of third) }
{
    match third {
        Third::First => first,
        Third::Middle => middle,
        Third::Last => last,
    }
}

// The runs, from the corner on.
pub(crate) fn paint_runs(
    division: Division,
    corner: usize,
    first: u8,
    middle: u8,
    last: u8,
    out: &mut [u8],
)
    requires { (corner < length out.old) × (length out.old ≤ max_result_edges) }
    ensures { out.new ≡ by_place corner (runs division first middle last (length out.old)) }
{
    let m = out.len();
    for i in 0..m {
        out[(corner + i) % m] = third_of(first, middle, last, third_by(division, i, m));
    }
}
