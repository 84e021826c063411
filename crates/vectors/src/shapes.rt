// Records of simple (65), ink-trap (66) and by-distance colouring (68) and of the collecting pass (67): thirteen words
// (the number, the record's bytes, threshold, seed, how many lengths, kinds and point places go in, how many of these
// and of colours the result buffers have, the answer, where the result begins); what goes in: lengths, kinds, point
// places, distances; and the result: lengths, kinds, colours, point places. A length is a word. Of the colouring of a
// job file (71) the threshold's word has the bytes of the file, and what goes in is the file. The directions of an
// outline (72) go to the buffer of point places, four an edge, and the marks of stand-ins to that of colours, two an
// edge; they are the whole result. 73 to 76 are 65 to 68 by the balanced division.
use crate::function::{Call, Entry};
use crate::words::{
    MOST_CONTOURS, MOST_DISTANCES, MOST_EDGES, MOST_FILE_BYTES, MOST_START, Reader, are_bytes,
    are_words, first, same, within,
};
use capi::answers::{COUNT, REFUSED};
use capi::balanced::{
    merelsplum_collect_splines_balanced, merelsplum_edge_coloring_by_distance_balanced,
    merelsplum_edge_coloring_ink_trap_balanced, merelsplum_edge_coloring_simple_balanced,
};
use capi::by_distance::{merelsplum_collect_splines, merelsplum_edge_coloring_by_distance};
use capi::directions::merelsplum_edge_directions;
use capi::edge_coloring::{merelsplum_edge_coloring_ink_trap, merelsplum_edge_coloring_simple};
use capi::job_file::merelsplum_job_color;
use coloring::outline::{OutlineBuffers, ResultBuffers};
use math::bits::float;

// What a place of a result buffer holds before the call.
pub(crate) const LENGTH: u16 = 0xA5A5;

pub(crate) const BYTE: u8 = 0xA5;

pub(crate) const PLACE: u64 = 0xC0FE_2408_0000_0000;

pub(crate) fn are_lengths(s: &[u8], lengths: &[u16]) -> bool {
    are_words(s, lengths, u64::from(LENGTH), |x, w| u64::from(x) == w)
}

pub(crate) fn are_points(s: &[u8], points: &[f64]) -> bool {
    are_words(s, points, PLACE, same)
}

// The thirteen words, but for the number and the record's bytes.
#[derive(Clone, Copy)]
struct Head {
    threshold: u64,
    seed: u64,
    lengths: u64,
    kinds: u64,
    points: u64,
    out_lengths: u64,
    out_kinds: u64,
    out_points: u64,
    out_colors: u64,
    answer: u64,
    start: u64,
}

impl Head {
    fn read(record: &mut Reader) -> Head {
        let [threshold, seed, lengths, kinds, points] = record.words::<5>();
        let [out_lengths, out_kinds, out_points, out_colors] = record.words::<4>();
        let [answer, start] = record.words::<2>();
        Head {
            threshold,
            seed,
            lengths,
            kinds,
            points,
            out_lengths,
            out_kinds,
            out_points,
            out_colors,
            answer,
            start,
        }
    }

    // How many contours, edges, colours and point places the result has: none where the call is refused.
    fn result_sizes(&self, call: Call) -> [usize; 4] {
        if self.answer / REFUSED == 1 {
            return [0; 4];
        }
        let edges = (self.answer % COUNT) as usize;
        match call {
            Call::Outline(Entry::Directions) => [0, 0, 2 * edges, 4 * edges],
            _ => [within(self.lengths, MOST_CONTOURS), edges, edges, 8 * edges],
        }
    }
}

// What goes into a colouring.
#[derive(Clone, Copy)]
struct Input<'a> {
    outline: OutlineBuffers<'a>,
    threshold: f64,
    seed: u64,
    distances: &'a [f64],
}

// A colouring by a strategy, the collecting pass, and a colouring by distance: one each, since C's functions take
// other parameters.
fn by_strategy<F>(color: F, i: Input, out: &mut ResultBuffers) -> u64
where
    F: FnOnce(&[u16], &[u8], &[f64], f64, u64, &mut [u16], &mut [u8], &mut [f64], &mut [u8]) -> u64,
    requires { F.IsAlwaysCallable color }
{
    color(
        i.outline.lengths,
        i.outline.kinds,
        i.outline.points,
        i.threshold,
        i.seed,
        out.lengths,
        out.kinds,
        out.points,
        out.colors,
    )
}

fn collected<F>(collect: F, i: Input, out: &mut ResultBuffers) -> u64
where
    F: FnOnce(&[u16], &[u8], &[f64], f64, &mut [u16], &mut [u8], &mut [f64], &mut [u8]) -> u64,
    requires { F.IsAlwaysCallable collect }
{
    collect(
        i.outline.lengths,
        i.outline.kinds,
        i.outline.points,
        i.threshold,
        out.lengths,
        out.kinds,
        out.points,
        out.colors,
    )
}

fn by_distance<F>(color: F, i: Input, out: &mut ResultBuffers) -> u64
where
    F: FnOnce(
        &[u16],
        &[u8],
        &[f64],
        f64,
        u64,
        &[f64],
        &mut [u16],
        &mut [u8],
        &mut [f64],
        &mut [u8],
    ) -> u64,
    requires { F.IsAlwaysCallable color }
{
    color(
        i.outline.lengths,
        i.outline.kinds,
        i.outline.points,
        i.threshold,
        i.seed,
        i.distances,
        out.lengths,
        out.kinds,
        out.points,
        out.colors,
    )
}

fn call_on(entry: Entry, input: Input, out: &mut ResultBuffers) -> u64 {
    match entry {
        Entry::Simple => by_strategy(merelsplum_edge_coloring_simple, input, out),
        Entry::InkTrap => by_strategy(merelsplum_edge_coloring_ink_trap, input, out),
        Entry::CollectSplines => collected(merelsplum_collect_splines, input, out),
        Entry::ByDistance => by_distance(merelsplum_edge_coloring_by_distance, input, out),
        Entry::Directions => merelsplum_edge_directions(
            input.outline.lengths,
            input.outline.kinds,
            input.outline.points,
            out.points,
            out.colors,
        ),
        Entry::SimpleBalanced => by_strategy(merelsplum_edge_coloring_simple_balanced, input, out),
        Entry::InkTrapBalanced => by_strategy(
            merelsplum_edge_coloring_ink_trap_balanced,
            input,
            out,
        ),
        Entry::CollectSplinesBalanced => collected(merelsplum_collect_splines_balanced, input, out),
        Entry::ByDistanceBalanced => by_distance(
            merelsplum_edge_coloring_by_distance_balanced,
            input,
            out,
        ),
    }
}

// Makes the call of an entry on the outline that goes in, and on the distances, which end where the result begins.
fn call_entry(entry: Entry, head: &Head, mut record: Reader, out: &mut ResultBuffers) -> u64 {
    let mut lengths = [0; MOST_CONTOURS];
    let mut kinds = [0; MOST_EDGES];
    let mut points = [0.0; 2120];
    let mut distances = [0.0; MOST_DISTANCES];
    let outline = OutlineBuffers {
        lengths: record.load_words(head.lengths, &mut lengths, |w| (w % 65536) as u16),
        kinds: record.load(head.kinds, &mut kinds),
        points: record.load_words(head.points, &mut points, float),
    };
    let distance_bytes = within(head.start, MOST_START).saturating_sub(record.at);
    let input = Input {
        outline,
        threshold: float(head.threshold),
        seed: head.seed,
        distances: record.load_words(distance_bytes as u64 / 8, &mut distances, float),
    };
    call_on(entry, input, out)
}

fn call_file(file: &[u8], out: &mut ResultBuffers) -> u64 {
    merelsplum_job_color(file, out.lengths, out.kinds, out.points, out.colors)
}

// Makes a call with what goes in, an outline or a job file.
fn make(call: Call, head: &Head, mut input: Reader, out: &mut ResultBuffers) -> u64 {
    match call {
        Call::Outline(entry) => call_entry(entry, head, input, out),
        Call::JobFile => call_file(input.part(within(head.threshold, MOST_FILE_BYTES)), out),
    }
}

// Makes the call of the record s: whether its answer and all four buffers are as recorded.
pub(crate) fn is_right(s: &[u8], call: Call) -> bool {
    let mut record = Reader::body(s);
    let head = Head::read(&mut record);
    let mut result = Reader::new(s);
    result.part(within(head.start, MOST_START));
    let mut lengths = [LENGTH; 90];
    let mut kinds = [BYTE; 540];
    let mut points = [float(PLACE); 4100];
    let mut colors = [BYTE; 540];
    let mut out = ResultBuffers {
        lengths: first(&mut lengths, head.out_lengths),
        kinds: first(&mut kinds, head.out_kinds),
        points: first(&mut points, head.out_points),
        colors: first(&mut colors, head.out_colors),
    };
    let answer = make(call, &head, record, &mut out);
    let [contours, edges, marks, places] = head.result_sizes(call);
    answer == head.answer
        && are_lengths(result.words_of(contours), &lengths)
        && are_bytes(result.part(edges), &kinds, BYTE)
        && are_bytes(result.part(marks), &colors, BYTE)
        && are_points(result.words_of(places), &points)
}
