// Colour switching of coloring/mod.rs. Colour and seed pass through by value, as one `Pen`.
ghost use Rattle.std.specs.Prelude.{◌≡◌, ◌-◌, length};
ghost use Rattle.geometry.specs.EdgeColor.{from_bits};
ghost use Rattle.coloring.specs.Switching.{init_color, switch_color, shared, one_channel, switch_color_banned, banned_before, switch_each, ColorsHeld};

use crate::seed::seed_extract;
use geometry::edge_color::EdgeColor;

// The colour that is being drawn with, and the seed that is left.
#[derive(Clone, Copy)]
pub struct Pen {
    pub color: EdgeColor,
    pub seed: u64,
}

#[tactic(auto, unfolding(crate::specs::Switching::init_color))]
pub(crate) fn init_color(seed: u64) -> Pen
    ensures { result ≡ init_color seed }
{
    let draw = seed_extract::<3>(seed);
    let color = match draw.value {
        0 => EdgeColor::Cyan,
        1 => EdgeColor::Magenta,
        _ => EdgeColor::Yellow,
    };
    Pen {
        color,
        seed: draw.seed,
    }
}

pub(crate) fn switch_color(pen: Pen) -> Pen
    ensures { result ≡ switch_color pen }
{
    let draw = seed_extract::<2>(pen.seed);
    let shifted = pen.color.bits() << (1 + draw.value);
    Pen {
        color: EdgeColor::from_bits((shifted | (shifted >> 3)) & 7),
        seed: draw.seed,
    }
}

// The channels that two colours share.
#[tactic(auto, using(crate::proofs::ChannelLaws::and_shared))]
fn shared(a: EdgeColor, b: EdgeColor) -> u8
    ensures { result ≡ shared a b }
{
    a.bits() & b.bits()
}

// The colour of the channels that two colours do not share.
#[tactic(auto, using(crate::proofs::ChannelLaws::xor_shared))]
pub(crate) fn unshared(a: EdgeColor, b: EdgeColor) -> EdgeColor
    ensures { result ≡ from_bits (7 - shared a b) }
{
    EdgeColor::from_bits(shared(a, b) ^ 7)
}

// A set of channels has one member.
fn one_channel(channels: u8) -> bool
    ensures { result ≡ one_channel channels }
{
    matches!(channels, 1 | 2 | 4)
}

// With a banned colour that shares exactly one channel: the two other channels, and no draw.
#[tactic(auto, unfolding(crate::specs::Switching::switch_color_banned))]
pub(crate) fn switch_color_banned(pen: Pen, banned: EdgeColor) -> Pen
    ensures { result ≡ switch_color_banned banned pen }
{
    if one_channel(shared(pen.color, banned)) {
        return Pen {
            color: unshared(pen.color, banned),
            ..pen
        };
    }
    switch_color(pen)
}

// The colour that may not be taken with so many still to be coloured: the first one's, for the last of them; else
// Black, the source's word for none: it shares no channel.
pub(crate) fn banned_before(initial: EdgeColor, left: usize) -> EdgeColor
    ensures { result ≡ banned_before initial left }
{
    if left == 0 { initial } else { EdgeColor::Black }
}

// A colour for each spline, switched from the one before.
pub(crate) fn switch_each(mut pen: Pen, colors: &mut [u8]) -> Pen
    ensures { ColorsHeld (switch_each (length colors.old) pen) colors.new result }
{
    for color in colors.iter_mut() {
        pen = switch_color(pen);
        *color = pen.color.bits();
    }
    pen
}
