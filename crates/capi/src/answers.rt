// An answer as C sees it, one number.
ghost use Rattle.std.specs.Prelude.{◌≡◌};
ghost use Rattle.coloring.specs.Outline.{colored_answer};
ghost use Rattle.capi.specs.Answers.{number_code};
ghost use Rattle.capi.specs.EdgeColoring.{packed, colored_code, collected_code};

use coloring::outline::Counts;
use coloring::refusal::Refusal;

// What the number of a refusal is added to.
pub const REFUSED: u64 = 1 << 32;

// Each count of a colouring is below COUNT. That of splines is multiplied by SPLINES, and that of stand-ins by
// STAND_INS, so all three have room in one number.
pub const COUNT: u64 = 1 << 16;

const SPLINES: u64 = 1 << 16;

const STAND_INS: u64 = 1 << 48;

// A number, or 2^32 and the number of the refusal.
pub(crate) fn code(answer: Result<u64, Refusal>) -> u64
    ensures { result ≡ number_code answer }
{
    answer.unwrap_or_else(|refusal| REFUSED + u64::from(u8::from(refusal)))
}

// Edges, splines and stand-ins in one number, 16 bits each.
fn packed(edges: usize, splines: usize, stand_ins: usize) -> u64
    ensures { result ≡ packed edges splines stand_ins }
{
    edges as u64 % COUNT
        + SPLINES * (splines as u64 % COUNT)
        + STAND_INS * (stand_ins as u64 % COUNT)
}

// The edges and the stand-ins, or 2^32 and the number of the refusal.
pub(crate) fn colored_code(answer: Result<Counts, Refusal>) -> u64
    ensures { result ≡ colored_code (colored_answer answer) }
{
    code(answer.map(|counts| packed(counts.edges, 0, counts.stand_ins)))
}

// The same with the splines.
pub(crate) fn collected_code(answer: Result<Counts, Refusal>) -> u64
    ensures { result ≡ collected_code (colored_answer answer) }
{
    code(answer.map(|counts| packed(counts.edges, counts.splines, counts.stand_ins)))
}
