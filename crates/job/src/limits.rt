// What follows from the limits (coloring's limits.rt) for a job file, its buffers and its text; specs/Limits.antt has
// the same.

use coloring::limits::{MAX_EDGES, MAX_RESULT_EDGES};

// Eight places for each edge of a job, and of a result.
pub(crate) const MAX_PLACES: usize = 8 * MAX_EDGES;

pub(crate) const MAX_RESULT_PLACES: usize = 8 * MAX_RESULT_EDGES;

// The first bytes of a file that decide how it is read, and a few to spare.
pub const DECIDING_BYTES: usize = 34000;

// Bytes of a text.
pub const MAX_TEXT: usize = 5611;
