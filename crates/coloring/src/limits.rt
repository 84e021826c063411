// The limits (SCOPE, Limits), and what follows from them; specs/Limits.antt has the same.

pub const MAX_CONTOURS: usize = 64;

pub const MAX_EDGES: usize = 256;

// Few glyphs have more.
pub(crate) const FEW_EDGES: usize = 64;

// Places of directions, four an edge: of the most edges, and of few.
pub(crate) const MAX_DIRECTION_PLACES: usize = 4 * MAX_EDGES;

pub(crate) const FEW_DIRECTION_PLACES: usize = 4 * FEW_EDGES;

// Marks of stand-ins, two an edge: of the most edges, and of few.
pub(crate) const MAX_STAND_INS: usize = 2 * MAX_EDGES;

pub(crate) const FEW_STAND_INS: usize = 2 * FEW_EDGES;

// Edges of a result.
pub const MAX_RESULT_EDGES: usize = 508;

// Splines of a shape that is coloured with a pen.
pub(crate) const MAX_SHAPE_SPLINES: usize = 320;

// Splines of a table, and of a shape whose splines are numbered.
pub const MAX_SPLINES: usize = 64;

// One distance for each pair of as many splines.
pub const MAX_DISTANCES: usize = MAX_SPLINES * (MAX_SPLINES - 1) / 2;

// Few pairs: those of 16 splines.
pub(crate) const FEW_DISTANCES: usize = 120;

// The entries of the largest table.
pub(crate) const MAX_ENTRIES: usize = MAX_SPLINES * MAX_SPLINES;

pub(crate) const MAX_COORDINATE: f64 = 1048576.0;
