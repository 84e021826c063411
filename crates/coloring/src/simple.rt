// The colours of a contour's splines in simple colouring, after `edge_coloring_simple` of coloring/mod.rs, as bytes.
ghost use Rattle.std.specs.Prelude.{◌-◌, ◌<◌, length};
ghost use Rattle.coloring.specs.Switching.{ColorsHeld};
ghost use Rattle.coloring.specs.Simple.{simple_colors};

use crate::switching::{Pen, banned_before, switch_color, switch_color_banned};

// Two splines or more. The first colour is drawn apart; each other one asks how many are left.
pub(crate) fn simple_colors(mut pen: Pen, colors: &mut [u8]) -> Pen
    requires { 0 < length colors.old }
    ensures { ColorsHeld (simple_colors (length colors.old - 1) pen) colors.new result }
{
    let k = colors.len();
    pen = switch_color(pen);
    let initial_color = pen.color;
    colors[0] = initial_color.bits();
    for i in 1..k {
        pen = switch_color_banned(pen, banned_before(initial_color, k - 1 - i));
        colors[i] = pen.color.bits();
    }
    pen
}
