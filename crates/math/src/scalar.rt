// Scalar helpers of math/scalar.rs. The minimum and the maximum of two numbers are functions here: std's `min` and
// `max` promise either of two equal numbers, as -0 and 0 are, and the first one is promised here. They are two, as
// Rust's are.
ghost use Rattle.std.specs.Prelude.{◌≡◌};
ghost use Rattle.math.specs.Scalar.{min_of, max_of, median, mix, clamp, clamp01, sign, non_zero_sign};

// The smaller of a and b: the other one where one is a NaN, a where they are equal.
pub fn min(a: f64, b: f64) -> f64
    ensures { result ≡ min_of a b }
{
    if b < a {
        return b;
    }
    if a.is_nan() { b } else { a }
}

// The larger of a and b: the other one where one is a NaN, a where they are equal.
pub fn max(a: f64, b: f64) -> f64
    ensures { result ≡ max_of a b }
{
    if a < b {
        return b;
    }
    if a.is_nan() { b } else { a }
}

// Middle of three values.
pub fn median(a: f64, b: f64, c: f64) -> f64
    ensures { result ≡ median a b c }
{
    max(min(a, b), min(max(a, b), c))
}

// Linear interpolation (1 - w) * a + w * b.
pub fn mix(a: f64, b: f64, w: f64) -> f64
    ensures { result ≡ mix a b w }
{
    (1.0 - w) * a + w * b
}

// Clamp to [a, b]. Defined for every a and b, unlike std's `clamp`: below a it is a, else above b it is b, else n.
pub fn clamp(n: f64, a: f64, b: f64) -> f64
    ensures { result ≡ clamp n a b }
{
    if n < a {
        return a;
    }
    if b < n { b } else { n }
}

// Clamp to [0, 1].
pub fn clamp01(n: f64) -> f64
    ensures { result ≡ clamp01 n }
{
    clamp(n, 0.0, 1.0)
}

// 1 for positive, -1 for negative, 0 for a zero and a NaN: the source's numbers, not std's `signum`.
pub fn sign(n: f64) -> i32
    ensures { result ≡ sign n }
{
    if 0.0 < n {
        return 1;
    }
    if n < 0.0 { -1 } else { 0 }
}

// 1 for positive, -1 for everything else, zeros and NaN too: the source's numbers.
pub fn non_zero_sign(n: f64) -> i32
    ensures { result ≡ non_zero_sign n }
{
    if n > 0.0 { 1 } else { -1 }
}
