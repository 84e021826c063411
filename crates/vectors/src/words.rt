// Words, floats and parts out of bytes, and whether a value is the one that a word records. The records of one part
// follow a heading: a word of ones and the part's name, 16 bytes.
ghost use Rattle.std.specs.Prelude.{◌≡◌, ◌≤◌};
ghost use Rattle.vectors.specs.Words.{word_at, matches};

use math::bits::float;
use math::vector2::Vector2;

// The most that a record says of a job file's bytes, of an outline's contours and edges, of distances, and of the place
// where its result begins.
pub(crate) const MOST_FILE_BYTES: usize = 65_536;

pub(crate) const MOST_CONTOURS: usize = 80;

pub(crate) const MOST_EDGES: usize = 264;

pub(crate) const MOST_DISTANCES: usize = 2020;

pub(crate) const MOST_START: usize = 300_000;

// The word of eight bytes from at on, the lowest first, and 0 where s ends before, as specs/ has it.
#[tactic(auto, unfolding(crate::specs::Words::word_at))]
pub(crate) fn word(s: &[u8], at: usize) -> u64
    ensures { result ≡ word_at s.now at }
{
    if let Some(rest) = s.get(at..)
        && let Some(bytes) = rest.first_chunk()
    {
        return u64::from_le_bytes(*bytes);
    }
    0
}

// The bytes of a record, and the place of what is read next, which may lie beyond them.
#[derive(Clone, Copy)]
pub(crate) struct Reader<'a> {
    bytes: &'a [u8],
    pub(crate) at: usize,
}

impl<'a> Reader<'a> {
    pub(crate) fn new(s: &'a [u8]) -> Reader<'a> {
        Reader { bytes: s, at: 0 }
    }

    // What follows in a record behind its number and how many bytes it has.
    pub(crate) fn body(s: &'a [u8]) -> Reader<'a> {
        let mut record = Reader::new(s);
        record.words_of(2);
        record
    }

    // The next len bytes, or none where fewer are left. What comes after them is read next in both cases.
    pub(crate) fn part(&mut self, len: usize) -> &'a [u8] {
        let start = self.at;
        self.at = start.saturating_add(len);
        self.bytes.get(start..self.at).unwrap_or(&[])
    }

    // The bytes of the next count words.
    pub(crate) fn words_of(&mut self, count: usize) -> &'a [u8] {
        self.part(count.saturating_mul(8))
    }

    // The next words, each 0 where none is left.
    pub(crate) fn words<const N: usize>(&mut self) -> [u64; N] {
        let mut words = [0; N];
        for place in words.iter_mut() {
            *place = word(self.part(8), 0);
        }
        words
    }

    // The first places of t, as many as are recorded, with the next bytes, or as they were where fewer are left.
    pub(crate) fn load<'t>(&mut self, count: u64, t: &'t mut [u8]) -> &'t mut [u8] {
        let start = first(t, count);
        let part = self.part(start.len());
        if part.len() == start.len() {
            start.copy_from_slice(part);
        }
        start
    }

    // The same with the values of the next words.
    pub(crate) fn load_words<'t, T: Drop, F: Fn(u64) -> T>(
        &mut self,
        count: u64,
        t: &'t mut [T],
        value: F,
    ) -> &'t [T]
        requires { F.IsAlwaysCallable value }
    {
        let start = first(t, count);
        let words = self.words_of(start.len()).as_chunks().0;
        for (place, bytes) in start.iter_mut().zip(words) {
            *place = value(u64::from_le_bytes(*bytes));
        }
        start
    }
}

// Whether x is the float of the recorded pattern, bit for bit; one NaN is as good as another.
#[tactic(auto, unfolding(crate::specs::Words::matches))]
pub(crate) fn same(x: f64, bits: u64) -> bool
    ensures { result ≡ matches x bits }
{
    if x.is_nan() {
        return float(bits).is_nan();
    }
    x.to_bits() == bits
}

pub(crate) fn is_vector(v: Vector2, x: u64, y: u64) -> bool {
    same(v.x, x) && same(v.y, y)
}

pub(crate) fn vector(x: u64, y: u64) -> Vector2 {
    Vector2::new(float(x), float(y))
}

// A number that is recorded, or 0 where it is above the most that there can be.
pub(crate) fn within(n: u64, most: usize) -> usize
    ensures { result ≤ most }
{
    if n <= most as u64 { n as usize } else { 0 }
}

// The first places of t, as many as are recorded, or none where it has fewer.
pub(crate) fn first<T>(t: &mut [T], count: u64) -> &mut [T] {
    let n = within(count, t.len());
    &mut t[..n]
}

// Whether a buffer holds the bytes of s, and after them what stood there before.
pub(crate) fn are_bytes(s: &[u8], buffer: &[u8], before: u8) -> bool {
    match buffer.strip_prefix(s) {
        Some(rest) => rest.iter().all(|x| *x == before),
        None => false,
    }
}

// The same for the values of the words of s.
pub(crate) fn are_words<T: Copy, F: Fn(T, u64) -> bool>(
    s: &[u8],
    buffer: &[T],
    before: u64,
    is: F,
) -> bool
    requires { F.IsAlwaysCallable is }
{
    let recorded = s.as_chunks().0;
    if buffer.len() < recorded.len() {
        return false;
    }
    let (start, rest) = buffer.split_at(recorded.len());
    start
        .iter()
        .zip(recorded)
        .all(|(x, bytes)| is(*x, u64::from_le_bytes(*bytes)))
        && rest.iter().all(|x| is(*x, before))
}
