// The job file: its records, the reader, the part of one contour, and the text of an answer.
#![tactic(auto)]

pub mod buffers;
pub mod color;
pub mod limits;
pub mod listing;
pub mod part;
mod patterns;
pub mod progress;
pub mod reader;
pub mod records;
