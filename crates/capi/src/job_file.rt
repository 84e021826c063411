// The job file: reading, checking, colouring, listing, its division, and the place of one contour. The buffers are
// parameters of their own, as the C interface has them (lib.rt).
ghost use Rattle.std.specs.Prelude.{◌≡◌};
ghost use Rattle.coloring.specs.Outline.{at_entry, at_exit};
ghost use Rattle.job.specs.Progress.{answer_of};
ghost use Rattle.job.specs.Reader.{job_at_entry, job_at_exit, read_into};
ghost use Rattle.job.specs.Color.{color_file, check_file, accept_job};
ghost use Rattle.job.specs.Listing.{list_file};
ghost use Rattle.job.specs.Part.{contour_place};
ghost use Rattle.capi.specs.Answers.{handed_buffer, hand_out_buffer};
ghost use Rattle.capi.specs.EdgeColoring.{colored_code, handed, hand_out};
ghost use Rattle.capi.specs.JobFile.{handed_job, hand_out_job, balanced_code, place_code};

use crate::answers::{code, colored_code};
use coloring::outline::ResultBuffers;
use coloring::settings::Division;
use job::buffers::JobBuffers;
use job::{color, listing, part, reader};

// The number of a part's bytes is multiplied by it, and the place of the first byte is added.
pub const BYTES: u64 = 1 << 32;

pub fn merelsplum_job_read(
    file: &[u8],
    lengths: &mut [u16],
    kinds: &mut [u8],
    points: &mut [f64],
    distances: &mut [f64],
    numbers: &mut [u64; 6],
) -> u64
    ensures { handed_job result (job_at_exit lengths kinds points distances) numbers.new
        ≡ hand_out_job (read_into (accept_job file.now) (job_at_entry lengths kinds points distances)) numbers.old }
{
    let mut buffers = JobBuffers {
        lengths,
        kinds,
        points,
        distances,
    };
    let answer = reader::read(file, &mut buffers);
    if let Ok(job) = answer {
        *numbers = [
            u64::from(u8::from(job.header.strategy)),
            job.header.seed,
            job.header.threshold,
            job.contours as u64,
            job.edges as u64,
            job.distances as u64,
        ];
    }
    code(answer.map(|_| 0))
}

pub fn merelsplum_job_check(file: &[u8]) -> u64
    ensures { result ≡ colored_code (check_file file.now) }
{
    colored_code(color::check(file))
}

pub fn merelsplum_job_balanced(file: &[u8]) -> u64
    ensures { result ≡ balanced_code (answer_of (accept_job file.now)) }
{
    code(color::accept(file).map(|job| u64::from(job.division == Division::Balanced)))
}

pub fn merelsplum_job_color(
    file: &[u8],
    out_lengths: &mut [u16],
    out_kinds: &mut [u8],
    out_points: &mut [f64],
    out_colors: &mut [u8],
) -> u64
    ensures { handed result (at_exit out_lengths out_kinds out_points out_colors)
        ≡ hand_out colored_code (color_file file.now
        (at_entry out_lengths out_kinds out_points out_colors)) }
{
    let mut out = ResultBuffers {
        lengths: out_lengths,
        kinds: out_kinds,
        points: out_points,
        colors: out_colors,
    };
    colored_code(color::color(file, &mut out))
}

pub fn merelsplum_job_listing(file: &[u8], out: &mut [u8]) -> u64
    ensures { handed_buffer result out.new ≡ hand_out_buffer (list_file file.now out.old) }
{
    code(listing::listing(file, out).map(|bytes| bytes as u64))
}

// The place of a contour's first byte, and 2^32 times the number of its bytes; 0 for a refused file and for a number
// too large. Nothing is cut off: an accepted file has at most 33,179 bytes.
pub fn merelsplum_job_contour_part(file: &[u8], contour: usize) -> u64
    ensures { result ≡ place_code (contour_place file.now contour) }
{
    let span = part::contour_place(file, contour);
    let start = span.start as u64;
    let bytes = (span.end - span.start) as u64;
    start % BYTES + BYTES * (bytes % BYTES)
}
