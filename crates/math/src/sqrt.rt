// The square root of a double, correctly rounded: a guess in floats that is checked in whole numbers or, where it is
// wrong, digit by digit.
ghost use Rattle.std.specs.Prelude.{◌≡◌, ◌+◌, ◌*◌, ◌^◌, ◌<◌, ◌≤◌, IfSome};
ghost use Rattle.math.specs.Sqrt.{shift, significand, exponent, rounded, positive_root, infinity_pattern, sqrt_bits, sqrt_of};

use crate::bits::float;

// 2^52: the weight of the exponent's field, and of a significand's leading digit.
const LEADING: u64 = 0x10_0000_0000_0000;

const SIGN: u64 = 0x8000_0000_0000_0000;

const INFINITY: u64 = 0x7FF0_0000_0000_0000;

const NAN: u64 = 0x7FF8_0000_0000_0000;

// ---- a pattern taken apart

// How far a subnormal's first significant bit stands below place 52.
#[tactic(auto, using(crate::proofs::sqrt::SqrtScale::zeros_are, crate::proofs::sqrt::SqrtOpen::shift_is))]
fn shift(bits: u64) -> u64
    requires { (0 < bits) × (bits < 2 ^ 52) }
    ensures { result ≡ shift bits }
{
    u64::from(bits.leading_zeros() - 11)
}

// The pattern of a number that is positive and finite.
#[derive(Clone, Copy)]
struct Positive {
    bits: u64,
    ghost above_zero: { 0 < bits },
    ghost finite: { bits < infinity_pattern },
}

impl Positive {
    // The significand, its leading digit at place 52.
    fn significand(self) -> u64
        ensures { result ≡ significand self.bits }
    {
        if self.bits < LEADING {
            self.bits << shift(self.bits)
        } else {
            LEADING + self.bits % LEADING
        }
    }

    // The exponent that goes with it, counted from 0.
    fn exponent(self) -> u64
        ensures { result ≡ exponent self.bits }
    {
        if self.bits < LEADING {
            52 - shift(self.bits)
        } else {
            self.bits / LEADING + 51
        }
    }

    // The root: half the exponent, and the root of the significand. A normal number's fraction stands as it is in the
    // pattern of a number from 1 to 4. `near` may be the root's fraction; its first 25 digits are tried.
    fn root(self, near: u64) -> u64
        requires { near < 2 ^ 52 }
        ensures { result ≡ positive_root self.bits }
    {
        let e = self.exponent();
        let radicand = Radicand {
            n: self.significand() << (e % 2),
        };
        let pattern = (self.bits + LEADING) % 0x20_0000_0000_0000 + 0x3FF0_0000_0000_0000;
        let q = (LEADING + near) / 0x800_0000;
        (e / 2 + 485) * LEADING + radicand.rounded(pattern, q)
    }
}

// ---- digit by digit

// A root in the making: its digits so far, and what their square leaves of the digits taken from the number.
#[derive(Clone, Copy)]
struct Partial {
    root: u64,
    rem: u64,
    ghost floor: { rem ≤ 2 * root },
}

// One more digit of the root, from two more of the number: 1 where `odd` can be taken from what is left. Without a
// branch, since digits are as good as random.
fn next_digit(s: Partial, low: u64) -> Partial
    requires { (s.root < 2 ^ 52) × (low < 4) }
    ensures { (result.root * result.root + result.rem ≡ (s.root * s.root + s.rem) * 4 + low)
        × (result.root ≤ 2 * s.root + 1) }
{
    let rem = s.rem * 4 + low;
    let odd = s.root * 4 + 1;
    let digit = u64::from(odd <= rem);
    Partial {
        root: s.root * 2 + digit,
        rem: rem - odd * digit,
    }
}

// ---- by a guess in floats, which is checked in whole numbers

// Digits of a guess: 32 of the root, and 29 of the inverse of twice the root. No more is claimed of them.
#[derive(Clone, Copy)]
struct Guessed {
    root: u64,
    inverse: u64,
    ghost root_digits: { root < 2 ^ 32 },
    ghost inverse_digits: { inverse < 2 ^ 29 },
}

// A number's pattern below this weight; of a NaN, whose pattern the logic does not know, 0.
fn last_digits(x: f64, weight: u64) -> u64
    requires { 0 < weight }
    ensures { result < weight }
{
    if x.is_nan() {
        return 0;
    }
    x.to_bits() % weight
}

// From the pattern of a number x from 1 to 4. Half the pattern, taken off a constant, is that of an inverse root s
// within 12 in 100. A polynomial in q = x * s * s, near q^(-1/2), mends it to 31 digits; it is a product of three, so
// that no step waits long for another. A power of two is added to each result, so that its last digit stands at place 0
// of the pattern; two of its last place are taken off, so that the root is not too high.
#[tactic(auto, using(crate::specs::Nan::no_nan_pattern))]
fn guess(pattern: u64) -> Guessed
    requires { pattern < 0x4010_0000_0000_0000 }
{
    let x = f64::from_bits(pattern);
    let s = f64::from_bits(0x5FE4_7000_0000_0000 - pattern / 2);
    let t = x * s;
    let q = t * s;
    let a = 1.3823395593306638 - 0.7072240868973412 * q;
    let b = (q - 2.6700127110597904) * q + 2.7608418634089746;
    let c = q * q + (0.7810959954809049 - 0.423225970783984 * q);
    let bc = b * c;
    Guessed {
        root: last_digits(
            t * a * bc + 2097151.999999999068677425384521484375,
            0x1_0000_0000,
        ),
        inverse: last_digits(
            s * a * bc + 16777215.999999992549419403076171875,
            0x2000_0000,
        ),
    }
}

// ---- the number whose root is taken: n * 2^52

// A significand, or where the exponent is odd twice that.
#[derive(Clone, Copy)]
struct Radicand {
    n: u64,
    ghost low: { 2 ^ 52 ≤ n },
    ghost high: { n < 2 ^ 54 },
}

impl Radicand {
    // The floor root, 53 digits, and its remainder. The next two of the digits not taken are at 52 and 53.
    fn floor_root(self) -> Partial
        ensures { (result.root * result.root + result.rem ≡ self.n * 2 ^ 52) × (result.root < 2 ^ 53) }
    {
        let mut s = Partial { root: 0, rem: 0 };
        let mut rest = self.n;
        for _ in 0..53u64 {
            s = next_digit(s, rest / LEADING);
            rest = rest % LEADING * 4;
        }
        s
    }

    // To the nearest: up where the remainder is above the root.
    fn rounded_by_digits(self) -> u64
        ensures { result ≡ rounded (self.n * 2 ^ 52) }
    {
        let s = self.floor_root();
        if s.rem > s.root { s.root + 1 } else { s.root }
    }

    // The guessed digits h leave a of the number, which by the guessed inverse gives 21 digits more, l. What the square
    // of r = h * 2^21 + l leaves of the number, rem, says whether r or r + 1 is nearest. A remainder that is too large,
    // or below zero and so wraps, says neither: the guess is wrong.
    fn check(self, g: Guessed) -> Option<u64>
        ensures { IfSome result (λ r. r ≡ rounded (self.n * 2 ^ 52)) }
    {
        let h = g.root;
        let a = (self.n * 0x400).wrapping_sub(h * h);
        if a >= 0x8_0000_0000 {
            return None;
        }
        let l = a * g.inverse / 0x80_0000_0000;
        let b = (a * 0x10_0000).wrapping_sub(h * l);
        if b >= 0x10_0000_0000 {
            return None;
        }
        let rem = (b * 0x40_0000).wrapping_sub(l * l);
        let r = h * 0x20_0000 + l;
        if rem > 3 * r + 2 {
            return None;
        }
        let nearest = if rem > r { r + 1 } else { r };
        Some(nearest)
    }

    // To the nearest. A q of 26 digits is tried first: where n is 4 * q * q, the root is q * 2^27. The pattern is that
    // of the number n * 2^-52 or, where it is another one, the guess is wrong.
    fn rounded(self, pattern: u64, q: u64) -> u64
        requires { (pattern < 0x4010_0000_0000_0000) × (q < 2 ^ 26) }
        ensures { result ≡ rounded (self.n * 2 ^ 52) }
    {
        if 4 * (q * q) == self.n {
            return q * 0x800_0000;
        }
        self.check(guess(pattern))
            .unwrap_or_else(|| self.rounded_by_digits())
    }
}

// ---- the root of a pattern, and of a value

// On bit patterns: either zero, and +infinity, stays; a NaN or a negative number gives NAN.
pub fn sqrt_bits(bits: u64) -> u64
    ensures { result ≡ sqrt_bits bits }
{
    if bits % SIGN == 0 {
        return bits;
    }
    if bits == INFINITY {
        return INFINITY;
    }
    if bits > INFINITY {
        return NAN;
    }
    Positive { bits }.root(0)
}

// On values. A NaN has no pattern that the logic knows, so none is read. `near` is any number: where it is the root and
// has at most 26 digits, the root is found at once. A normal number's root is no NaN.
pub(crate) fn sqrt_near(x: f64, near: f64) -> f64
    ensures { result ≡ sqrt_of x }
{
    if x.is_nan() {
        return f64::NAN;
    }
    let bits = x.to_bits();
    if LEADING <= bits && bits < INFINITY {
        return f64::from_bits(Positive { bits }.root(last_digits(near, LEADING)));
    }
    float(sqrt_bits(bits))
}

// With nothing known of the root.
pub fn sqrt(x: f64) -> f64
    ensures { result ≡ sqrt_of x }
{
    sqrt_near(x, 1.0)
}
