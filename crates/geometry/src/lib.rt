// Geometry: edge colours and edge segments.
#![tactic(auto)]

pub mod edge_color;
pub mod edge_segment;
