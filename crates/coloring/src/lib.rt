// The colouring itself, after the source's coloring/: simple, ink-trap and by-distance colouring of outlines, and the
// spline table with its offers.
#![tactic(auto)]

pub mod by_distance;
mod contour;
mod corners;
pub mod directions;
pub mod edge_coloring;
mod edge_matrix;
mod ink_trap;
mod layout;
pub mod limits;
pub mod outline;
mod pair_order;
mod queue;
mod recolor;
pub mod refusal;
mod second_degree;
pub mod seed;
pub mod settings;
mod shape;
mod simple;
pub mod spline_colors;
pub mod spline_table;
mod splines;
mod switching;
mod teardrop;
mod trichotomy;
mod values;
