// The proved functions that a host calls, from C or Rust, over numbers and slices only. An answer is one number. Each
// writes out its buffers, and those with balanced teardrops are functions of their own: so the C interface has it.
#![tactic(auto)]

pub mod answers;
pub mod balanced;
pub mod by_distance;
pub mod directions;
pub mod edge_coloring;
pub mod job_file;
pub mod spline_table;
