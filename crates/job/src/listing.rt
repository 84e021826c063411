// The text of an answer (docs/FORMAT.md), written into a byte buffer.
ghost use Rattle.std.specs.Prelude.{◌≡◌, ◌<◌, length};
ghost use Rattle.coloring.specs.Refusal.{refusal_number};
ghost use Rattle.coloring.specs.Places.{total};
ghost use Rattle.coloring.specs.Outline.{cut, result_in};
ghost use Rattle.coloring.specs.Fill.{fill_outcome};
ghost use Rattle.job.specs.Color.{HoldsResults};
ghost use Rattle.job.specs.Listing.{digit, decimal, letter, field, edge_line, contour_lines, shape_lines, word_line, listing, refusal_line};
ghost use Rattle.job.specs.Listing.{file_text, list_file, listed_answer, Printed, HasRoom, Writes};

use crate::color::color;
use crate::limits::{MAX_RESULT_PLACES, MAX_TEXT};
use coloring::limits::{MAX_CONTOURS, MAX_RESULT_EDGES};
use coloring::outline::ResultBuffers;
use coloring::refusal::Refusal;

fn digit(n: usize) -> u8
    requires { n < 10 }
    ensures { result ≡ digit n }
{
    b'0' + n as u8
}

// L, Q or C. The kind is a byte as a result's buffer has it, and a byte that is no kind has a letter too.
fn letter(kind: u8) -> u8
    ensures { result ≡ letter kind }
{
    match kind {
        0 => b'?',
        1 => b'L',
        2 => b'Q',
        _ => b'C',
    }
}

// The kinds of a contour's edges or of a shape's, and a colour for each.
#[derive(Clone, Copy)]
struct Edges<'a> {
    kinds: &'a [u8],
    colors: &'a [u8],
    ghost colored: { length colors.now ≡ length kinds.now },
    // numbers of up to three digits
    ghost few: { length kinds.now < 1000 },
}

// A text that is written into a buffer, and the place after it. It has no heap, so the bytes go straight to the buffer;
// and `write!` is not used: its contract allows an error where a text has room too.
#[derive(Drop)]
struct Writer<'a> {
    out: &'a mut [u8],
    at: usize,
}

impl<'a> Writer<'a> {
    fn new(out: &'a mut [u8]) -> Writer<'a>
        ensures at { result.at ≡ 0 }
        ensures out { result.out.now ≡ out.old }
        ensures same { result.out.ghost_name ≡ out.entry.ghost_name }
    {
        Writer { out, at: 0 }
    }

    #[tactic(auto, unfolding(coloring::specs::Lists::over_from, coloring::specs::Lists::over))]
    fn put(&mut self, text: &[u8])
        requires { HasRoom self.old text.now }
        ensures { Writes self.old text.now self.new }
    {
        let end = self.at + text.len();
        self.out[self.at..end].copy_from_slice(text);
        self.at = end;
    }

    // A number of up to three digits. `n < 1000` stays a clause here and below: each time it is about another number.
    #[tactic(auto, using(crate::proofs::listing::ListingLaws::decimals))]
    fn put_decimal(&mut self, n: usize)
        requires { (n < 1000) × HasRoom self.old (decimal n) }
        ensures { Writes self.old (decimal n) self.new }
    {
        match n {
            0..=9 => self.put(&[digit(n)]),
            10..=99 => self.put(&[digit(n / 10), digit(n % 10)]),
            _ => self.put(&[digit(n / 100), digit(n / 10 % 10), digit(n % 10)]),
        }
    }

    // A number and the byte after it.
    fn put_field(&mut self, n: usize, byte: u8)
        requires { (n < 1000) × HasRoom self.old (field n byte) }
        ensures { Writes self.old (field n byte) self.new }
    {
        self.put_decimal(n);
        self.put(&[byte]);
    }

    // The kind and the colour are bytes as a result's buffers have them.
    fn put_line(&mut self, contour: usize, place: usize, kind: u8, color: u8)
        requires { (contour < 1000) × (place < 1000) × HasRoom self.old (edge_line contour place kind color) }
        ensures { Writes self.old (edge_line contour place kind color) self.new }
    {
        self.put_field(contour, b' ');
        self.put_field(place, b' ');
        self.put(&[letter(kind), b' ']);
        self.put_field(usize::from(color), b'\n');
    }

    // The lines of a contour. Each has its place in it, so the colours go by place.
    fn put_contour(&mut self, contour: usize, edges: Edges)
        requires { (contour < 1000) × HasRoom self.old (contour_lines contour 0 edges.kinds.now edges.colors.now) }
        ensures { Writes self.old (contour_lines contour 0 edges.entry.kinds.now edges.entry.colors.now) self.new }
    {
        for (place, kind) in edges.kinds.iter().enumerate() {
            self.put_line(contour, place, *kind, edges.colors[place]);
        }
    }

    // The lines of all contours, whose edges stand one after another: a contour begins where the one before ends, and
    // no iterator of slices has such steps.
    fn put_shape(&mut self, lengths: &[u16], edges: Edges)
        requires sizes { (length lengths.now < 1000) × (total lengths.now ≡ length edges.kinds.now) }
        requires room { HasRoom self.old (shape_lines 0 (cut lengths.now edges.kinds.now) (cut lengths.now edges.colors.now)) }
        ensures { Writes self.old (shape_lines 0 (cut lengths.now edges.entry.kinds.now) (cut lengths.now edges.entry.colors.now)) self.new }
    {
        let mut from = 0;
        for (contour, length) in lengths.iter().enumerate() {
            let end = from + usize::from(*length);
            let part = Edges {
                kinds: &edges.kinds[from..end],
                colors: &edges.colors[from..end],
            };
            self.put_contour(contour, part);
            from = end;
        }
    }

    // A word and a number.
    fn put_word_line(&mut self, word: &[u8], n: usize)
        requires { (n < 1000) × HasRoom self.old (word_line word.now n) }
        ensures { Writes self.old (word_line word.now n) self.new }
    {
        self.put(word);
        self.put_field(n, b'\n');
    }

    // The text of a coloured shape and of the stand-ins of its outline.
    fn put_listing(&mut self, lengths: &[u16], edges: Edges, stand_ins: usize)
        requires sizes { (length lengths.now < 1000) × (stand_ins < 1000) × (total lengths.now ≡ length edges.kinds.now) }
        requires room { HasRoom self.old (listing (cut lengths.now edges.kinds.now) (cut lengths.now edges.colors.now) stand_ins) }
        ensures { Writes self.old (listing (cut lengths.now edges.entry.kinds.now) (cut lengths.now edges.entry.colors.now) stand_ins) self.new }
    {
        self.put_shape(lengths, edges);
        self.put_word_line(b"edges ", edges.kinds.len());
        self.put_word_line(b"standins ", stand_ins);
    }

    // The text of a refusal.
    fn put_refusal(&mut self, refusal: Refusal)
        requires { HasRoom self.old (refusal_line (refusal_number refusal)) }
        ensures { Writes self.old (refusal_line (refusal_number refusal)) self.new }
    {
        self.put_word_line(b"refused ", usize::from(u8::from(refusal)));
    }

    // The text of a file's answer, with places for its coloured shape.
    fn put_answer(&mut self, file: &[u8], mut shape: ResultBuffers)
        requires holds_results { HoldsResults (result_in shape) }
        requires room { HasRoom self.old (file_text file.now) }
        ensures { Writes self.old (file_text file.now) self.new }
    {
        let colored = color(file, &mut shape);
        let ResultBuffers {
            lengths,
            kinds,
            points: _,
            colors,
        } = shape;
        match colored {
            Ok(counts) => {
                let edges = Edges {
                    kinds: &kinds[..counts.edges],
                    colors: &colors[..counts.edges],
                };
                self.put_listing(&lengths[..counts.contours], edges, counts.stand_ins);
            }
            Err(refusal) => self.put_refusal(refusal),
        }
    }
}

// The text of a file's answer, at the start of a buffer that holds every text; how many bytes. What `channels` prints.
// The places of a result are declared here and in `check`, as those of a job.
pub fn text(file: &[u8], out: &mut [u8; MAX_TEXT]) -> usize
    ensures { Printed (file_text file.now) out.old result out.new }
{
    let mut lengths = [0u16; MAX_CONTOURS];
    let mut kinds = [0u8; MAX_RESULT_EDGES];
    let mut points = [0.0f64; MAX_RESULT_PLACES];
    let mut colors = [0u8; MAX_RESULT_EDGES];
    let shape = ResultBuffers {
        lengths: &mut lengths,
        kinds: &mut kinds,
        points: &mut points,
        colors: &mut colors,
    };
    let mut writer = Writer::new(out);
    writer.put_answer(file, shape);
    writer.at
}

// Reads a file, colours its job and lists it: how many bytes of text, which stand at the buffer's start; or 11 where
// they do not fit, and the buffer is as it came. A file that is refused has a text too, one line. No text is longer
// than 5,611 bytes.
pub fn listing(file: &[u8], out: &mut [u8]) -> Result<usize, Refusal>
    ensures { fill_outcome (listed_answer result) out.new ≡ list_file file.now out.old }
{
    let mut whole = [0u8; MAX_TEXT];
    let n = text(file, &mut whole);
    if n > out.len() {
        return Err(Refusal::ResultTooShort);
    }
    out[..n].copy_from_slice(&whole[..n]);
    Ok(n)
}
