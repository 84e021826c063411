// The plane vector of math/vector2.rs, by value, with the source's operators.
ghost use Rattle.std.specs.Prelude.{◌≡◌};
ghost use Rattle.math.specs.Vector2.{zero_vector, new, splat, squared_length, length_of, normalize, orthogonal, orthonormal, is_nonzero};
ghost use Rattle.math.specs.Vector2.{dot, cross, add, sub, neg, mul, div, mul_scalar, div_scalar, scale};

use crate::sqrt::sqrt_near;
use std::ops::{Add, Div, Mul, Neg, Sub};

// A vector, or a point, of the plane.
#[derive(Clone, Copy, PartialEq)]
pub struct Vector2 {
    pub x: f64,
    pub y: f64,
}

// A vector by its length, and whether that was 0, so that another stands in for it. No Option: there is a vector in
// both cases, which callers use alike, and the flag says which it is.
#[derive(Clone, Copy)]
pub struct Normalized {
    pub vector: Vector2,
    pub zero_length: bool,
}

impl Vector2 {
    pub const ZERO: Vector2 = Vector2 { x: 0.0, y: 0.0 };

    // The same by a function, whose contract says which vector it is.
    pub fn zero() -> Vector2
        ensures { result ≡ zero_vector }
    {
        Vector2::ZERO
    }

    pub fn new(x: f64, y: f64) -> Vector2
        ensures { result ≡ new x y }
    {
        Vector2 { x, y }
    }

    // Both components set to the same value.
    pub fn splat(v: f64) -> Vector2
        ensures { result ≡ splat v }
    {
        Vector2 { x: v, y: v }
    }

    #[tactic(auto, unfolding(crate::specs::Vector2::squared_length))]
    pub fn squared_length(self) -> f64
        ensures { result ≡ squared_length self }
    {
        self.x * self.x + self.y * self.y
    }

    // Where one component is 0, their sum may be the length.
    #[tactic(auto, unfolding(crate::specs::Vector2::length_of))]
    pub fn length(self) -> f64
        ensures { result ≡ length_of self }
    {
        sqrt_near(self.squared_length(), self.x + self.y)
    }

    // The vector divided by its length. Of length 0 it is (0, 0) where `allow_zero` is true, else (0, 1), and the
    // answer says so.
    #[tactic(auto, unfolding(crate::specs::Vector2::normalize, crate::specs::Vector2::div_scalar))]
    pub fn normalize(self, allow_zero: bool) -> Normalized
        ensures { result ≡ normalize self allow_zero }
    {
        let len = self.length();
        if len != 0.0 {
            return Normalized {
                vector: Vector2 {
                    x: self.x / len,
                    y: self.y / len,
                },
                zero_length: false,
            };
        }
        let y = if allow_zero { 0.0 } else { 1.0 };
        Normalized {
            vector: Vector2 { x: 0.0, y },
            zero_length: true,
        }
    }

    // A vector of the same length orthogonal to this one.
    #[tactic(auto, unfolding(crate::specs::Vector2::orthogonal))]
    pub fn orthogonal(self, polarity: bool) -> Vector2
        ensures { result ≡ orthogonal self polarity }
    {
        if polarity {
            Vector2 {
                x: -self.y,
                y: self.x,
            }
        } else {
            Vector2 {
                x: self.y,
                y: -self.x,
            }
        }
    }

    // A unit-length vector orthogonal to this one.
    #[tactic(auto, unfolding(crate::specs::Vector2::orthonormal, crate::specs::Vector2::orthogonal, crate::specs::Vector2::div_scalar))]
    pub fn orthonormal(self, polarity: bool, allow_zero: bool) -> Vector2
        ensures { result ≡ orthonormal self polarity allow_zero }
    {
        let len = self.length();
        if len != 0.0 {
            if polarity {
                return Vector2 {
                    x: -self.y / len,
                    y: self.x / len,
                };
            }
            return Vector2 {
                x: self.y / len,
                y: -self.x / len,
            };
        }
        let z = if allow_zero { 0.0 } else { 1.0 };
        if polarity {
            Vector2 { x: 0.0, y: z }
        } else {
            Vector2 { x: 0.0, y: -z }
        }
    }

    // True when a component is not a zero: of a NaN too.
    #[tactic(auto, unfolding(crate::specs::Vector2::is_nonzero))]
    pub fn is_nonzero(self) -> bool
        ensures { result ≡ is_nonzero self }
    {
        self.x != 0.0 || self.y != 0.0
    }
}

#[tactic(auto, unfolding(crate::specs::Vector2::add))]
impl Add for Vector2 {
    type Output = Vector2;

    ghost add_gives = { λ a b r. r ≡ add a b };

    fn add(self, o: Vector2) -> Vector2 {
        Vector2 {
            x: self.x + o.x,
            y: self.y + o.y,
        }
    }
}

#[tactic(auto, unfolding(crate::specs::Vector2::sub))]
impl Sub for Vector2 {
    type Output = Vector2;

    ghost sub_gives = { λ a b r. r ≡ sub a b };

    fn sub(self, o: Vector2) -> Vector2 {
        Vector2 {
            x: self.x - o.x,
            y: self.y - o.y,
        }
    }
}

#[tactic(auto, unfolding(crate::specs::Vector2::neg))]
impl Neg for Vector2 {
    type Output = Vector2;

    ghost neg_gives = { λ v r. r ≡ neg v };

    fn neg(self) -> Vector2 {
        Vector2 {
            x: -self.x,
            y: -self.y,
        }
    }
}

// Vector times vector, by components.
#[tactic(auto, unfolding(crate::specs::Vector2::mul))]
impl Mul for Vector2 {
    type Output = Vector2;

    ghost mul_gives = { λ a b r. r ≡ mul a b };

    fn mul(self, o: Vector2) -> Vector2 {
        Vector2 {
            x: self.x * o.x,
            y: self.y * o.y,
        }
    }
}

// Vector by vector, by components.
#[tactic(auto, unfolding(crate::specs::Vector2::div))]
impl Div for Vector2 {
    type Output = Vector2;

    ghost div_gives = { λ a b r. r ≡ div a b };

    fn div(self, o: Vector2) -> Vector2 {
        Vector2 {
            x: self.x / o.x,
            y: self.y / o.y,
        }
    }
}

// Vector times number.
#[tactic(auto, unfolding(crate::specs::Vector2::mul_scalar))]
impl Mul<f64> for Vector2 {
    type Output = Vector2;

    ghost mul_gives = { λ v s r. r ≡ mul_scalar v s };

    fn mul(self, s: f64) -> Vector2 {
        Vector2 {
            x: self.x * s,
            y: self.y * s,
        }
    }
}

// Vector by number.
#[tactic(auto, unfolding(crate::specs::Vector2::div_scalar))]
impl Div<f64> for Vector2 {
    type Output = Vector2;

    ghost div_gives = { λ v s r. r ≡ div_scalar v s };

    fn div(self, s: f64) -> Vector2 {
        Vector2 {
            x: self.x / s,
            y: self.y / s,
        }
    }
}

// Number times vector.
#[tactic(auto, unfolding(crate::specs::Vector2::scale))]
impl Mul<Vector2> for f64 {
    type Output = Vector2;

    ghost mul_gives = { λ s v r. r ≡ scale s v };

    fn mul(self, v: Vector2) -> Vector2 {
        Vector2 {
            x: self * v.x,
            y: self * v.y,
        }
    }
}

// Dot product.
#[tactic(auto, unfolding(crate::specs::Vector2::dot))]
pub fn dot(a: Vector2, b: Vector2) -> f64
    ensures { result ≡ dot a b }
{
    a.x * b.x + a.y * b.y
}

// Cross product: its third component.
#[tactic(auto, unfolding(crate::specs::Vector2::cross))]
pub fn cross(a: Vector2, b: Vector2) -> f64
    ensures { result ≡ cross a b }
{
    a.x * b.y - a.y * b.x
}
