// Floats and their bit patterns. The logic has one NaN, and `from_bits` is not defined there for a NaN's pattern.
ghost use Rattle.std.specs.Prelude.{◌≡◌, from_bits};
ghost use Rattle.std.specs.Float.{binary64};

// The float of a pattern, a NaN's too.
pub fn float(pattern: u64) -> f64
    ensures { result ≡ from_bits binary64 pattern }
{
    if 0x7FF0_0000_0000_0000 < pattern % 0x8000_0000_0000_0000 {
        return f64::NAN;
    }
    f64::from_bits(pattern)
}
