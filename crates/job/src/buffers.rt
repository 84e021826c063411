// The buffers that a job is read into: contour lengths, kinds, points and distances, written record by record.
ghost use Rattle.std.specs.Prelude.{◌≡◌, true, ◌*◌, ◌≤◌, length};
ghost use Rattle.coloring.specs.Outline.{outline_in};
ghost use Rattle.coloring.specs.Limits.{max_edges};
ghost use Rattle.job.specs.Patterns.{words, floats};
ghost use Rattle.job.specs.declared.records.Mark.TheVariants.{Edge};
ghost use Rattle.job.specs.Records.{body_size};
ghost use Rattle.job.specs.Buffers.{buffers_in, outline_of, part_of, points_read, written, has_room, RecordFits, SameJobBuffers};

use crate::progress::Numbers;
use crate::records::{Item, Kind, Mark};
use coloring::outline::OutlineBuffers;
use math::bits::float;

// Where a job is read to: contour lengths, the kind of each edge, eight point places an edge, and the distances.
#[derive(Drop)]
pub struct JobBuffers<'a> {
    pub lengths: &'a mut [u16],
    pub kinds: &'a mut [u8],
    pub points: &'a mut [f64],
    pub distances: &'a mut [f64],
}

impl JobBuffers<'_> {
    // Whether a job has room. Kept beside `have_room` of coloring, which is about the buffers of a result.
    #[tactic(auto, unfolding(crate::specs::Buffers::room_for))]
    pub(crate) fn has_room(&self, n: Numbers) -> bool
        requires { n.edges ≤ max_edges }
        ensures { result ≡ has_room n (buffers_in self.now) }
    {
        n.contours <= self.lengths.len()
            && n.edges <= self.kinds.len()
            && 8 * n.edges <= self.points.len()
            && n.distances <= self.distances.len()
    }

    // The outline of a job that is in them.
    #[tactic(auto, unfolding(crate::specs::Buffers::room_for))]
    pub(crate) fn outline(&self, n: Numbers) -> OutlineBuffers<'_>
        requires { has_room n (buffers_in self.now) ≡ true }
        ensures { outline_in result ≡ outline_of (part_of n (buffers_in self.now)) }
    {
        OutlineBuffers {
            lengths: &self.lengths[..n.contours],
            kinds: &self.kinds[..n.edges],
            points: &self.points[..8 * n.edges],
        }
    }

    // A record more, which follows so many of a job. The bytes start at its mark.
    #[tactic(auto, unfolding(crate::specs::Buffers::written, coloring::specs::Lists::over))]
    pub(crate) fn write(&mut self, item: Item, n: Numbers, bytes: &[u8])
        requires { RecordFits item n bytes.now (buffers_in self.old) }
        ensures after { buffers_in self.new ≡ written item n bytes.now (buffers_in self.old) }
        ensures same { SameJobBuffers self.old self.new }
    {
        match item {
            Item::Header(_) | Item::Balanced => {}
            Item::Contour => self.lengths[n.contours] = 0,
            Item::Edge(kind) => {
                self.lengths[n.contours - 1] += 1;
                self.kinds[n.edges] = u8::from(kind);
                let end = 2 + Mark::Edge(kind).body_size();
                let from = 8 * n.edges;
                write_points(kind, &bytes[2..end], &mut self.points[from..from + 8]);
            }
            Item::Distances(count) => {
                let count = usize::from(count);
                write_floats(&bytes[4..], &mut self.distances[0..count]);
            }
        }
    }
}

// Floats from bytes. The words go by index: over `zip` the invariant would be about the references that the iterator
// hands out, and not about what is written.
fn write_floats(bytes: &[u8], to: &mut [f64])
    requires { 8 * length to.old ≤ length bytes.now }
    ensures { to.new ≡ floats (words (length to.old) bytes.now) }
{
    let (words, _) = bytes.as_chunks();
    for (i, place) in to.iter_mut().enumerate() {
        *place = float(u64::from_le_bytes(words[i]));
    }
}

// The eight places of an edge, from its bytes: its control points, then +0.
fn write_points(kind: Kind, body: &[u8], places: &mut [f64])
    requires { (length body.now ≡ body_size (Edge kind)) × (length places.old ≡ 8) }
    ensures { places.new ≡ points_read kind body.now }
{
    let (points, unused) = places.split_at_mut(2 * kind.controls());
    write_floats(body, points);
    unused.fill(0.0);
}
