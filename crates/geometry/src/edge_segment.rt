// Edge segments of geometry/edge_segment.rs: a line, a quadratic or a cubic Bezier curve.
ghost use Rattle.std.specs.Prelude.{◌≡◌};
ghost use Rattle.math.specs.Vector2.{cross, sub};
ghost use Rattle.geometry.specs.EdgeSegment.{vmix, line, colinear, control, quadratic, cubic, order};
ghost use Rattle.geometry.specs.EdgeSegment.{quadratic_point, cubic_point, point, quadratic_tangent, cubic_tangent};
ghost use Rattle.geometry.specs.EdgeSegment.{quadratic_direction, cubic_direction, direction, unit_directions, split_line, split_quadratic};
ghost use Rattle.geometry.specs.EdgeSegment.{control_between, split_cubic, split_in_thirds, to_stored, decoded_answer, from_stored};

use math::vector2::{Normalized, Vector2, cross};

// An edge with its control points: 2 of a line, 3 of a quadratic, 4 of a cubic.
#[derive(Clone, Copy)]
pub enum EdgeSegment {
    Line(Vector2, Vector2),
    Quadratic(Vector2, Vector2, Vector2),
    Cubic(Vector2, Vector2, Vector2, Vector2),
}

// The unit directions in which an edge starts and ends, each with whether it is a stand-in.
#[derive(Clone, Copy)]
pub struct Directions {
    pub start: Normalized,
    pub end: Normalized,
}

// The three edges of a split.
#[derive(Clone, Copy)]
pub struct Thirds {
    pub first: EdgeSegment,
    pub second: EdgeSegment,
    pub third: EdgeSegment,
}

// The stored form of an edge: its kind, 1 line, 2 quadratic, 3 cubic, and its control points, x then y. The kind is a
// number, since this is what a buffer of C holds.
#[derive(Clone, Copy)]
pub struct Stored {
    pub kind: u8,
    pub points: [f64; 8],
}

// a * (1 - t) + b * t
#[tactic(auto, unfolding(crate::specs::EdgeSegment::vmix))]
pub fn vmix(a: Vector2, b: Vector2, t: f64) -> Vector2
    ensures { result ≡ vmix a b t }
{
    a * (1.0 - t) + b * t
}

// The cross product of p0 to p1 and p1 to p2.
fn turn(p0: Vector2, p1: Vector2, p2: Vector2) -> f64
    ensures { result ≡ cross (sub p1 p0) (sub p2 p1) }
{
    cross(p1 - p0, p2 - p1)
}

// A cubic's control points lie on one line.
#[tactic(auto, unfolding(crate::specs::EdgeSegment::colinear))]
fn colinear(p0: Vector2, p1: Vector2, p2: Vector2, p3: Vector2) -> bool
    ensures { result ≡ colinear p0 p1 p2 p3 }
{
    turn(p0, p1, p2) == 0.0 && turn(p1, p2, p3) == 0.0
}

// The control point of a quadratic, from the two control points at one end of a cubic: the inner one p, the end q.
#[tactic(auto, unfolding(crate::specs::EdgeSegment::control))]
fn control(p: Vector2, q: Vector2) -> Vector2
    ensures { result ≡ control p q }
{
    1.5 * p - 0.5 * q
}

// The point of a quadratic at t.
#[tactic(auto, unfolding(crate::specs::EdgeSegment::quadratic_point))]
fn quadratic_point(p0: Vector2, p1: Vector2, p2: Vector2, t: f64) -> Vector2
    ensures { result ≡ quadratic_point p0 p1 p2 t }
{
    vmix(vmix(p0, p1, t), vmix(p1, p2, t), t)
}

#[tactic(auto, unfolding(crate::specs::EdgeSegment::cubic_point))]
fn cubic_point(p0: Vector2, p1: Vector2, p2: Vector2, p3: Vector2, t: f64) -> Vector2
    ensures { result ≡ cubic_point p0 p1 p2 p3 t }
{
    let p12 = vmix(p1, p2, t);
    vmix(
        vmix(vmix(p0, p1, t), p12, t),
        vmix(p12, vmix(p2, p3, t), t),
        t,
    )
}

#[tactic(auto, unfolding(crate::specs::EdgeSegment::quadratic_tangent))]
fn quadratic_tangent(p0: Vector2, p1: Vector2, p2: Vector2, t: f64) -> Vector2
    ensures { result ≡ quadratic_tangent p0 p1 p2 t }
{
    vmix(p1 - p0, p2 - p1, t)
}

#[tactic(auto, unfolding(crate::specs::EdgeSegment::cubic_tangent))]
fn cubic_tangent(p0: Vector2, p1: Vector2, p2: Vector2, p3: Vector2, t: f64) -> Vector2
    ensures { result ≡ cubic_tangent p0 p1 p2 p3 t }
{
    vmix(
        quadratic_tangent(p0, p1, p2, t),
        quadratic_tangent(p1, p2, p3, t),
        t,
    )
}

// A tangent without a nonzero component is replaced by a difference of control points.
#[tactic(auto, unfolding(crate::specs::EdgeSegment::quadratic_direction))]
fn quadratic_direction(p0: Vector2, p1: Vector2, p2: Vector2, t: f64) -> Vector2
    ensures { result ≡ quadratic_direction p0 p1 p2 t }
{
    let tangent = quadratic_tangent(p0, p1, p2, t);
    if tangent.is_nonzero() {
        return tangent;
    }
    p2 - p0
}

#[tactic(auto, unfolding(crate::specs::EdgeSegment::cubic_direction))]
fn cubic_direction(p0: Vector2, p1: Vector2, p2: Vector2, p3: Vector2, t: f64) -> Vector2
    ensures { result ≡ cubic_direction p0 p1 p2 p3 t }
{
    let tangent = cubic_tangent(p0, p1, p2, p3, t);
    if tangent.is_nonzero() {
        return tangent;
    }
    if t == 0.0 {
        return p2 - p0;
    }
    if t == 1.0 {
        return p3 - p1;
    }
    tangent
}

// A line is split at its points at 0, 1/3, 2/3 and 1: its ends are computed too.
#[tactic(auto, unfolding(crate::specs::EdgeSegment::split_line))]
fn split_line(p0: Vector2, p1: Vector2) -> Thirds
    ensures { result ≡ split_line p0 p1 }
{
    let a = vmix(p0, p1, 0.0);
    let b = vmix(p0, p1, 1.0 / 3.0);
    let c = vmix(p0, p1, 2.0 / 3.0);
    let d = vmix(p0, p1, 1.0);
    Thirds {
        first: EdgeSegment::Line(a, b),
        second: EdgeSegment::Line(b, c),
        third: EdgeSegment::Line(c, d),
    }
}

#[tactic(auto, unfolding(crate::specs::EdgeSegment::split_quadratic))]
fn split_quadratic(p0: Vector2, p1: Vector2, p2: Vector2) -> Thirds
    ensures { result ≡ split_quadratic p0 p1 p2 }
{
    let a = quadratic_point(p0, p1, p2, 1.0 / 3.0);
    let b = quadratic_point(p0, p1, p2, 2.0 / 3.0);
    let first = vmix(p0, p1, 1.0 / 3.0);
    let middle = vmix(vmix(p0, p1, 5.0 / 9.0), vmix(p1, p2, 4.0 / 9.0), 0.5);
    let last = vmix(p1, p2, 2.0 / 3.0);
    Thirds {
        first: EdgeSegment::Quadratic(p0, first, a),
        second: EdgeSegment::Quadratic(a, middle, b),
        third: EdgeSegment::Quadratic(b, last, p2),
    }
}

// The control point between p and q at t or, where they are equal, the end of the edge, which is one of the two.
#[tactic(auto, unfolding(crate::specs::EdgeSegment::control_between, math::specs::Vector2::eq))]
fn control_between(p: Vector2, q: Vector2, t: f64, end: Vector2) -> Vector2
    ensures { result ≡ control_between p q t end }
{
    if p == q {
        return end;
    }
    vmix(p, q, t)
}

#[tactic(auto, unfolding(crate::specs::EdgeSegment::split_cubic))]
fn split_cubic(p0: Vector2, p1: Vector2, p2: Vector2, p3: Vector2) -> Thirds
    ensures { result ≡ split_cubic p0 p1 p2 p3 }
{
    let a = cubic_point(p0, p1, p2, p3, 1.0 / 3.0);
    let b = cubic_point(p0, p1, p2, p3, 2.0 / 3.0);
    let l1 = quadratic_point(p0, p1, p2, 1.0 / 3.0);
    let r1 = quadratic_point(p1, p2, p3, 1.0 / 3.0);
    let l2 = quadratic_point(p0, p1, p2, 2.0 / 3.0);
    let r2 = quadratic_point(p1, p2, p3, 2.0 / 3.0);
    let start = control_between(p0, p1, 1.0 / 3.0, p0);
    let m1 = vmix(l1, r1, 2.0 / 3.0);
    let m2 = vmix(l2, r2, 1.0 / 3.0);
    let end = control_between(p2, p3, 2.0 / 3.0, p3);
    Thirds {
        first: EdgeSegment::Cubic(p0, start, l1, a),
        second: EdgeSegment::Cubic(a, m1, m2, b),
        third: EdgeSegment::Cubic(b, r2, end, p3),
    }
}

impl EdgeSegment {
    pub fn line(p0: Vector2, p1: Vector2) -> EdgeSegment
        ensures { result ≡ line p0 p1 }
    {
        EdgeSegment::Line(p0, p1)
    }

    // A quadratic, or a line where the control point is colinear.
    #[tactic(auto, unfolding(crate::specs::EdgeSegment::quadratic))]
    pub fn quadratic(p0: Vector2, p1: Vector2, p2: Vector2) -> EdgeSegment
        ensures { result ≡ quadratic p0 p1 p2 }
    {
        if turn(p0, p1, p2) == 0.0 {
            EdgeSegment::Line(p0, p2)
        } else {
            EdgeSegment::Quadratic(p0, p1, p2)
        }
    }

    // A cubic, or a line or a quadratic where it is degenerate.
    #[tactic(auto, unfolding(crate::specs::EdgeSegment::cubic, math::specs::Vector2::eq))]
    pub fn cubic(p0: Vector2, p1: Vector2, p2: Vector2, p3: Vector2) -> EdgeSegment
        ensures { result ≡ cubic p0 p1 p2 p3 }
    {
        if colinear(p0, p1, p2, p3) {
            return EdgeSegment::Line(p0, p3);
        }
        let q = control(p1, p0);
        if q == control(p2, p3) {
            return EdgeSegment::Quadratic(p0, q, p3);
        }
        EdgeSegment::Cubic(p0, p1, p2, p3)
    }

    // The source's number: 1 of a line, 2 of a quadratic, 3 of a cubic.
    pub fn order(self) -> usize
        ensures { result ≡ order self }
    {
        match self {
            EdgeSegment::Line(_, _) => 1,
            EdgeSegment::Quadratic(_, _, _) => 2,
            EdgeSegment::Cubic(_, _, _, _) => 3,
        }
    }

    // The point at t.
    #[tactic(auto, unfolding(crate::specs::EdgeSegment::point))]
    pub fn point(self, t: f64) -> Vector2
        ensures { result ≡ point self t }
    {
        match self {
            EdgeSegment::Line(p0, p1) => vmix(p0, p1, t),
            EdgeSegment::Quadratic(p0, p1, p2) => quadratic_point(p0, p1, p2, t),
            EdgeSegment::Cubic(p0, p1, p2, p3) => cubic_point(p0, p1, p2, p3, t),
        }
    }

    // The tangent at t, not normalized.
    #[tactic(auto, unfolding(crate::specs::EdgeSegment::direction))]
    pub fn direction(self, t: f64) -> Vector2
        ensures { result ≡ direction self t }
    {
        match self {
            EdgeSegment::Line(p0, p1) => p1 - p0,
            EdgeSegment::Quadratic(p0, p1, p2) => quadratic_direction(p0, p1, p2, t),
            EdgeSegment::Cubic(p0, p1, p2, p3) => cubic_direction(p0, p1, p2, p3, t),
        }
    }

    // The unit directions at 0 and at 1. A line has one, so it takes one root.
    #[tactic(auto, unfolding(crate::specs::EdgeSegment::unit_directions, crate::specs::EdgeSegment::direction))]
    pub fn unit_directions(self) -> Directions
        ensures { result ≡ unit_directions self }
    {
        let start = self.direction(0.0).normalize(false);
        if let EdgeSegment::Line(_, _) = self {
            return Directions { start, end: start };
        }
        Directions {
            start,
            end: self.direction(1.0).normalize(false),
        }
    }

    // Three edges, each a third of the parameter's range.
    #[tactic(auto, unfolding(crate::specs::EdgeSegment::split_in_thirds))]
    pub fn split_in_thirds(self) -> Thirds
        ensures { result ≡ split_in_thirds self }
    {
        match self {
            EdgeSegment::Line(p0, p1) => split_line(p0, p1),
            EdgeSegment::Quadratic(p0, p1, p2) => split_quadratic(p0, p1, p2),
            EdgeSegment::Cubic(p0, p1, p2, p3) => split_cubic(p0, p1, p2, p3),
        }
    }

    // The kind number and the control points, unused places +0.
    #[tactic(auto, unfolding(crate::specs::EdgeSegment::to_stored))]
    pub fn to_stored(self) -> Stored
        ensures { result ≡ to_stored self }
    {
        match self {
            EdgeSegment::Line(p0, p1) => {
                let points = [p0.x, p0.y, p1.x, p1.y, 0.0, 0.0, 0.0, 0.0];
                Stored { kind: 1, points }
            }
            EdgeSegment::Quadratic(p0, p1, p2) => {
                let points = [p0.x, p0.y, p1.x, p1.y, p2.x, p2.y, 0.0, 0.0];
                Stored { kind: 2, points }
            }
            EdgeSegment::Cubic(p0, p1, p2, p3) => {
                let points = [p0.x, p0.y, p1.x, p1.y, p2.x, p2.y, p3.x, p3.y];
                Stored { kind: 3, points }
            }
        }
    }

    // The edge of a kind number and eight places, those beyond its control points ignored; none where the kind is none
    // of 1, 2, 3. The kind is kept; it is a number, as in a buffer of C.
    #[tactic(auto, unfolding(crate::specs::EdgeSegment::from_stored))]
    pub fn from_stored(kind: u8, points: [f64; 8]) -> Option<EdgeSegment>
        ensures { decoded_answer result ≡ from_stored kind points }
    {
        let [x0, y0, x1, y1, x2, y2, x3, y3] = points;
        let p0 = Vector2::new(x0, y0);
        let p1 = Vector2::new(x1, y1);
        let p2 = Vector2::new(x2, y2);
        let p3 = Vector2::new(x3, y3);
        match kind {
            1 => Some(EdgeSegment::Line(p0, p1)),
            2 => Some(EdgeSegment::Quadratic(p0, p1, p2)),
            3 => Some(EdgeSegment::Cubic(p0, p1, p2, p3)),
            _ => None,
        }
    }
}
