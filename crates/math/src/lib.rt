// The number leaves: floats by their bit patterns, the correctly rounded root, scalar helpers, the plane vector.
#![tactic(auto)]

pub mod bits;
pub mod scalar;
pub mod sqrt;
pub mod vector2;
