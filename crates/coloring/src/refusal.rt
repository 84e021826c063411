// Why a call is refused. One enum for all crates; `refusal_number` of specs/Refusal.antt gives the number of each case
// (SCOPE, Refusals).
ghost use Rattle.std.specs.Prelude.{◌≡◌};
ghost use Rattle.coloring.specs.Refusal.{refusal_number};

#[derive(Clone, Copy, PartialEq, Eq, Debug)]
pub enum Refusal {
    // 1, "torn": the file ends inside a record or before its end mark
    Truncated = 1,
    // 2, "unmarked"
    UnknownMark = 2,
    // 3, "stray": a known mark where it may not stand
    MisplacedMark = 3,
    // 4, "overfull": contours, edges, splines or distances above the maximum
    TooMany = 4,
    // 5, "no such kind": strategy or edge kind
    UnknownKind = 5,
    // 6, "bad threshold"
    BadThreshold = 6,
    // 7, "off the sheet": a coordinate beyond its range or not finite
    BadCoordinate = 7,
    // 8, "miscounted": lengths that disagree
    LengthMismatch = 8,
    // 9, "bad distance"
    BadDistance = 9,
    // 10, "bad table"
    BadTable = 10,
    // 11, "short tray": the result would not fit
    ResultTooShort = 11,
}

// The number of the refusal (SCOPE, Refusals).
impl From<Refusal> for u8 {
    ghost from_gives = { λ refusal number. number ≡ refusal_number refusal };

    fn from(refusal: Refusal) -> u8 {
        refusal as u8
    }
}
