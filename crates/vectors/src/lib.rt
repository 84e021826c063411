// Recorded calls of the library, and whether it answers as recorded. A record begins with the number of a function:
// 0 to 28 are those of math, 32 to 46 those of geometry, 64 a run of offers to a spline table, 65 to 68 the colourings,
// 69 a job file that is checked, listed and parted, 70 one that is read, 71 one that is coloured, 72 the directions of
// an outline, 73 to 76 the colourings by the balanced division. Numbers are words of eight bytes, the lowest byte
// first. The program `replay` reads records; the comparison with the Rust makes them one by one.
#![tactic(auto)]

mod edges;
mod function;
mod jobs;
mod leaves;
mod reading;
mod shapes;
mod tables;
mod words;

ghost use Rattle.std.specs.Prelude.{◌≡◌, cond, ◌≤◌};
ghost use Rattle.vectors.specs.Words.{headed};
ghost use Rattle.vectors.specs.Records.{record_bytes, is_record};

use function::Function;
use words::word;

// Whether a heading stands at the start of s.
pub fn is_heading(s: &[u8]) -> bool
    ensures { result ≡ headed s.now }
{
    word(s, 0) == u64::MAX
}

// How many bytes the heading or the record at the start of s has.
#[tactic(auto, unfolding(crate::specs::Records::record_bytes))]
pub fn record_bytes(s: &[u8]) -> u64
    ensures { result ≡ record_bytes s.now }
{
    match word(s, 0) {
        u64::MAX => 24,
        0..=31 => 64,
        32..=63 => 160,
        _ => word(s, 8),
    }
}

// Whether s is a record, and nothing else.
#[tactic(auto, unfolding(crate::specs::Records::is_record))]
fn is_record(s: &[u8]) -> bool
    ensures { result ≡ is_record s.now }
{
    Function::try_from(word(s, 0)).is_ok() && s.len() as u64 == record_bytes(s)
}

// Whether the call of a record is answered as recorded.
fn is_right(s: &[u8]) -> bool {
    match Function::try_from(word(s, 0)) {
        Ok(Function::Leaf(f)) => leaves::is_right(s, f),
        Ok(Function::Edge(f)) => edges::is_right(s, f),
        Ok(Function::Offers) => tables::is_right(s),
        Ok(Function::Job) => jobs::is_right(s),
        Ok(Function::ReadJob) => reading::is_right(s),
        Ok(Function::Color(call)) => shapes::is_right(s, call),
        Err(_) => false,
    }
}

// 1 where the call of a record is answered as recorded, and else 0. What is no record is never right.
pub fn vectors_right(s: &[u8]) -> u64
    ensures { result ≤ cond (is_record s.now) 1 0 }
{
    u64::from(is_record(s) && is_right(s))
}
