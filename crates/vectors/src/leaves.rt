// Records of the number leaves, eight words each: the function's number, five inputs, two outputs.
// Kept as numbers: they are those of the recorded file, and each has one arm; the last one is `_`.
use crate::words::{Reader, is_vector, same, vector};
use math::bits::float;
use math::vector2::{self, Vector2};
use math::{scalar, sqrt};

// Whether a sign is the recorded one, an i32 widened.
fn is_sign(sign: i32, word: u64) -> bool {
    i64::from(sign).cast_unsigned() == word
}

// Whether the answer to the record s is as recorded.
pub(crate) fn is_right(s: &[u8], f: u64) -> bool {
    let [_, a, b, c, d, _, first, second] = Reader::new(s).words::<8>();
    let [x, y, z] = [float(a), float(b), float(c)];
    let v = vector(a, b);
    let w = vector(c, d);
    match f {
        0 => sqrt::sqrt_bits(a) == first,
        1 => same(sqrt::sqrt(x), first),
        2 => same(scalar::median(x, y, z), first),
        3 => same(scalar::mix(x, y, z), first),
        4 => same(scalar::clamp01(x), first),
        5 => same(scalar::clamp(x, y, z), first),
        6 => is_sign(scalar::sign(x), first),
        7 => is_sign(scalar::non_zero_sign(x), first),
        8 => is_vector(Vector2::ZERO, first, second),
        9 => is_vector(Vector2::new(x, y), first, second),
        10 => is_vector(Vector2::splat(x), first, second),
        11 => same(v.squared_length(), first),
        12 => same(v.length(), first),
        13 => is_vector(v.normalize(c != 0).vector, first, second),
        14 => is_vector(v.orthogonal(c != 0), first, second),
        15 => is_vector(v.orthonormal(c != 0, d != 0), first, second),
        16 => u64::from(v.is_nonzero()) == first,
        17 => u64::from(v == w) == first,
        18 => same(vector2::dot(v, w), first),
        19 => same(vector2::cross(v, w), first),
        20 => is_vector(v + w, first, second),
        21 => is_vector(v - w, first, second),
        22 => is_vector(-v, first, second),
        23 => is_vector(v * w, first, second),
        24 => is_vector(v / w, first, second),
        25 => is_vector(v * z, first, second),
        26 => is_vector(v / z, first, second),
        27 => is_vector(z * v, first, second),
        _ => u64::from(v.normalize(c != 0).zero_length) == first,
    }
}
