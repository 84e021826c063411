// The unit directions of an outline's edges, and which of them are stand-ins.
// The buffers are parameters of their own, as the C interface has them (lib.rt).
ghost use Rattle.std.specs.Prelude.{◌≡◌};
ghost use Rattle.coloring.specs.Outline.{given};
ghost use Rattle.coloring.specs.Directions.{edge_directions, buffers_at_entry, buffers_at_exit};
ghost use Rattle.capi.specs.Answers.{handed_buffer, hand_out_buffer};

use crate::answers::code;
use coloring::directions::edge_directions;
use coloring::outline::OutlineBuffers;

pub fn merelsplum_edge_directions(
    lengths: &[u16],
    kinds: &[u8],
    points: &[f64],
    out_directions: &mut [f64],
    out_stand_ins: &mut [u8],
) -> u64
    ensures { handed_buffer result (buffers_at_exit out_directions out_stand_ins)
        ≡ hand_out_buffer (edge_directions (given lengths kinds points) (buffers_at_entry out_directions out_stand_ins)) }
{
    let outline = OutlineBuffers {
        lengths,
        kinds,
        points,
    };
    let answer = edge_directions(outline, out_directions, out_stand_ins);
    code(answer.map(|edges| edges as u64))
}
