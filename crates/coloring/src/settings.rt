// The settings of a colouring.
ghost use Rattle.std.specs.Prelude.{◌≡◌};
ghost use Rattle.coloring.specs.EdgeColoring.{settings_of};

// A colouring that goes round the contours with a pen.
#[derive(Clone, Copy, PartialEq, Eq)]
pub enum Strategy {
    Simple,
    InkTrap,
}

// The byte of each edge: its colour, by a strategy that goes round the contours with a seed; the number of its spline;
// or its colour by the distances of the splines, with a seed.
#[derive(Clone, Copy, PartialEq, Eq)]
pub enum Marking {
    Colors(Strategy, u64),
    Numbers,
    Distances(u64),
}

// How the edges of a contour with one corner are divided into three runs.
#[derive(Clone, Copy, PartialEq, Eq)]
pub enum Division {
    // the source's rule, by which the last run can have an edge more than the first
    Source,
    // the first run and the last are equally long (record BL)
    Balanced,
}

// What an entry asks for: what each edge is marked with, the threshold of a corner, and how a teardrop is divided.
#[derive(Clone, Copy, PartialEq)]
pub struct Settings {
    pub marking: Marking,
    pub threshold: f64,
    pub division: Division,
}

impl Settings {
    pub fn new(division: Division, marking: Marking, threshold: f64) -> Settings
        ensures { result ≡ settings_of division marking threshold }
    {
        Settings {
            marking,
            threshold,
            division,
        }
    }
}
