// Offers to a spline table.
// The buffers are parameters of their own, as the C interface has them (lib.rt).
ghost use Rattle.std.specs.Prelude.{◌≡◌};
ghost use Rattle.coloring.specs.SplineTable.{offer_answer, offer, table_of};
ghost use Rattle.capi.specs.SplineTable.{answer_code};

use coloring::refusal::Refusal;
use coloring::spline_table::{Offer, SplineTable};

// The counter and 256 where the pair is kept, 512 where it is declined; or 768 and the number of the refusal.
fn code(answer: Result<Offer, Refusal>) -> u64
    ensures { result ≡ answer_code (offer_answer answer) }
{
    match answer {
        Ok(Offer::Kept(steps)) => 256 + u64::from(steps),
        Ok(Offer::Declined(steps)) => 512 + u64::from(steps),
        Err(refusal) => 768 + u64::from(u8::from(refusal)),
    }
}

pub fn merelsplum_try_add_edge(
    coloring: &mut [u8],
    edge_matrix: &mut [u8],
    a: usize,
    b: usize,
) -> u64
    ensures answer { result ≡ answer_code (offer (table_of coloring.old edge_matrix.old) a b).answer }
    ensures buffers { table_of coloring.new edge_matrix.new
        ≡ (offer (table_of coloring.old edge_matrix.old) a b).table }
{
    let mut table = SplineTable {
        coloring,
        edge_matrix,
    };
    code(table.try_add_edge(a, b))
}
