// Reading and colouring in one: a file, and four buffers that its coloured shape goes to.
ghost use Rattle.std.specs.Prelude.{◌≡◌};
ghost use Rattle.coloring.specs.Answers.{gives};
ghost use Rattle.coloring.specs.Outline.{result_in, colored_answer, outcome, SameBuffers};
ghost use Rattle.job.specs.Buffers.{buffers_in};
ghost use Rattle.job.specs.Progress.{read_answer, answer_of};
ghost use Rattle.job.specs.Color.{marking_by, job_settings, color_file, check_file, accept_job, paired, HoldsJobs, HoldsResults};

use crate::buffers::JobBuffers;
use crate::limits::{MAX_PLACES, MAX_RESULT_PLACES};
use crate::progress::{Numbers, scan};
use crate::reader::fill;
use crate::records::Strategy;
use coloring::by_distance::collect_splines;
use coloring::edge_coloring::edge_coloring;
use coloring::limits::{MAX_CONTOURS, MAX_DISTANCES, MAX_EDGES, MAX_RESULT_EDGES, MAX_SPLINES};
use coloring::outline::{Counts, ResultBuffers};
use coloring::refusal::Refusal;
use coloring::settings::{Marking, Settings, Strategy as PenStrategy};
use coloring::spline_colors::pair_count;
use math::bits::float;

impl Strategy {
    // How it marks edges, with a seed.
    fn marking(self, seed: u64) -> Marking
        ensures { result ≡ marking_by self seed }
    {
        match self {
            Strategy::Simple => Marking::Colors(PenStrategy::Simple, seed),
            Strategy::InkTrap => Marking::Colors(PenStrategy::InkTrap, seed),
            Strategy::ByDistance => Marking::Distances(seed),
        }
    }
}

impl Numbers {
    // What a job asks of the colouring of its outline.
    fn settings(self) -> Settings
        ensures { result ≡ job_settings self }
    {
        Settings {
            marking: self.header.strategy.marking(self.header.seed),
            threshold: float(self.header.threshold),
            division: self.division,
        }
    }
}

// Reads and colours a file, with places for its job.
fn color_in(file: &[u8], job: &mut JobBuffers, out: &mut ResultBuffers) -> Result<Counts, Refusal>
    requires { HoldsJobs (buffers_in job.old) }
    ensures same_buffers { SameBuffers out.old out.new }
    ensures colored { outcome (colored_answer result) (result_in out.new) ≡ color_file file.now (result_in out.old) }
{
    let n = scan(file)?;
    fill(file, job);
    let job = &*job;
    edge_coloring(
        n.settings(),
        job.outline(n),
        &job.distances[..n.distances],
        out,
    )
}

// Reads a file and colours its job by its strategy: how many edges, and the coloured shape in the buffers; or the
// first refusal, 11 where a buffer is too short. A refusal leaves every buffer as it came, and places beyond the
// result keep theirs.
pub fn color(file: &[u8], out: &mut ResultBuffers) -> Result<Counts, Refusal>
    ensures same_buffers { SameBuffers out.old out.new }
    ensures colored { outcome (colored_answer result) (result_in out.new) ≡ color_file file.now (result_in out.old) }
{
    let mut lengths = [0u16; MAX_CONTOURS];
    let mut kinds = [0u8; MAX_EDGES];
    let mut points = [0.0f64; MAX_PLACES];
    let mut distances = [0.0f64; MAX_DISTANCES];
    let mut job = JobBuffers {
        lengths: &mut lengths,
        kinds: &mut kinds,
        points: &mut points,
        distances: &mut distances,
    };
    color_in(file, &mut job, out)
}

// What was counted, where it has one distance for each pair of splines.
#[tactic(auto, unfolding(crate::specs::Color::paired))]
fn paired(counts: Counts, distances: usize) -> Result<Counts, Refusal>
    ensures { colored_answer result ≡ paired (gives counts) distances }
{
    if counts.splines > MAX_SPLINES {
        return Err(Refusal::TooMany);
    }
    if distances != pair_count(counts.splines as u32) {
        return Err(Refusal::LengthMismatch);
    }
    Ok(counts)
}

// The answer for a file, with places for its job and for a result. By distance only the number of splines is needed.
fn check_in(file: &[u8], job: &mut JobBuffers, out: &mut ResultBuffers) -> Result<Counts, Refusal>
    requires holds_jobs { HoldsJobs (buffers_in job.old) }
    requires holds_results { HoldsResults (result_in out.old) }
    ensures { colored_answer result ≡ check_file file.now }
{
    let n = scan(file)?;
    if !n.header.strategy.by_distance() {
        return color_in(file, job, out);
    }
    fill(file, job);
    let counts = collect_splines(job.outline(n), float(n.header.threshold), out)?;
    paired(counts, n.distances)
}

// The answer of reading and colouring a file where every result has room: how many edges, or the first refusal. The
// places of a job are declared here and in `color`: there is no heap, and no function can hand out its own arrays.
pub fn check(file: &[u8]) -> Result<Counts, Refusal>
    ensures { colored_answer result ≡ check_file file.now }
{
    let mut lengths = [0u16; MAX_CONTOURS];
    let mut kinds = [0u8; MAX_EDGES];
    let mut points = [0.0f64; MAX_PLACES];
    let mut distances = [0.0f64; MAX_DISTANCES];
    let mut job = JobBuffers {
        lengths: &mut lengths,
        kinds: &mut kinds,
        points: &mut points,
        distances: &mut distances,
    };
    let mut out_lengths = [0u16; MAX_CONTOURS];
    let mut out_kinds = [0u8; MAX_RESULT_EDGES];
    let mut out_points = [0.0f64; MAX_RESULT_PLACES];
    let mut out_splines = [0u8; MAX_RESULT_EDGES];
    let mut out = ResultBuffers {
        lengths: &mut out_lengths,
        kinds: &mut out_kinds,
        points: &mut out_points,
        colors: &mut out_splines,
    };
    check_in(file, &mut job, &mut out)
}

// The numbers of an accepted file's job, or the first refusal of reading and checking it. A job without distances has
// nothing left to check.
pub fn accept(file: &[u8]) -> Result<Numbers, Refusal>
    ensures { read_answer result ≡ answer_of (accept_job file.now) }
{
    let n = scan(file)?;
    if n.header.strategy.by_distance() {
        check(file)?;
    }
    Ok(n)
}
