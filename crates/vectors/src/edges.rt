// Records of edges and their colours, 20 words each: the function's number; a kind or a colour, eight places, a
// parameter; a number and eight places that are the answer. Where the kind is unknown the answer is the number 0.
// Kept as numbers: they are those of the recorded file, and each has one arm; 40 is the last one, `_`.
use crate::words::{Reader, is_vector, same, vector};
use geometry::edge_color::EdgeColor;
use geometry::edge_segment::EdgeSegment;
use math::bits::float;
use math::vector2::{Normalized, Vector2};

// The answer of a record.
#[derive(Clone, Copy)]
struct Answer {
    number: u64,
    places: [u64; 8],
}

impl Answer {
    fn is_vector(&self, v: Vector2) -> bool {
        is_vector(v, self.places[0], self.places[1])
    }

    // The number is 1 where the length was 0.
    fn is_direction(&self, d: Normalized) -> bool {
        u64::from(d.zero_length) == self.number && self.is_vector(d.vector)
    }

    fn is_edge(&self, e: EdgeSegment) -> bool {
        let stored = e.to_stored();
        u64::from(stored.kind) == self.number
            && stored
                .points
                .iter()
                .zip(&self.places)
                .all(|(x, bits)| same(*x, *bits))
    }
}

// The parameter is t, or the place in the split.
fn is_edge_right(f: u64, e: EdgeSegment, parameter: u64, answer: &Answer) -> bool {
    let t = float(parameter);
    match f {
        32 => {
            let thirds = e.split_in_thirds();
            answer.is_edge(match parameter {
                0 => thirds.first,
                1 => thirds.second,
                _ => thirds.third,
            })
        }
        33 => answer.is_direction(e.direction(t).normalize(false)),
        34 => answer.is_vector(e.direction(t)),
        35 => answer.is_vector(e.point(t)),
        39 => e.order() as u64 == answer.number,
        _ => answer.is_edge(e),
    }
}

// Whether the answer to the record s is as recorded.
pub(crate) fn is_right(s: &[u8], f: u64) -> bool {
    let mut record = Reader::new(s);
    let [_, first] = record.words::<2>();
    let places = record.words::<8>();
    let [parameter, number] = record.words::<2>();
    let answer = Answer {
        number,
        places: record.words::<8>(),
    };
    let byte = (first % 256) as u8;
    let color = EdgeColor::from_bits(byte);
    let [x0, y0, x1, y1, x2, y2, x3, y3] = places;
    let p0 = vector(x0, y0);
    let p1 = vector(x1, y1);
    let p2 = vector(x2, y2);
    let p3 = vector(x3, y3);
    match f {
        36 => answer.is_edge(EdgeSegment::line(p0, p1)),
        37 => answer.is_edge(EdgeSegment::quadratic(p0, p1, p2)),
        38 => answer.is_edge(EdgeSegment::cubic(p0, p1, p2, p3)),
        41 => u64::from(color.bits()) == number,
        42 => u64::from(color.has_red()) == number,
        43 => u64::from(color.has_green()) == number,
        44 => u64::from(color.has_blue()) == number,
        45 => u64::from(color.has_channel(parameter as usize)) == number,
        46 => u64::from(EdgeColor::default().bits()) == number,
        _ => match EdgeSegment::from_stored(byte, places.map(float)) {
            Some(e) => is_edge_right(f, e, parameter, &answer),
            None => number == 0,
        },
    }
}
