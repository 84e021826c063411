// The reader of a job file: its numbers, and its contours and distances into the caller's buffers.
ghost use Rattle.std.specs.Prelude.{◌≡◌};
ghost use Rattle.job.specs.Job.{read_job};
ghost use Rattle.job.specs.Color.{accept_job};
ghost use Rattle.job.specs.Buffers.{buffers_in, SameJobBuffers};
ghost use Rattle.job.specs.Progress.{read_answer};
ghost use Rattle.job.specs.Reader.{read_outcome, read_into, Fits, filled};

use crate::buffers::JobBuffers;
use crate::color;
use crate::progress::{Numbers, Progress};
use coloring::refusal::Refusal;

// The job of a file that is read and has room, written into the buffers.
pub(crate) fn fill(file: &[u8], buffers: &mut JobBuffers)
    requires { Fits (read_job file.now) (buffers_in buffers.old) }
    ensures after { buffers_in buffers.new ≡ filled (read_job file.now) (buffers_in buffers.old) }
    ensures same { SameJobBuffers buffers.old buffers.new }
{
    let mut p = Progress::begin();
    while let Ok(Some(item)) = p.next(file) {
        buffers.write(item, p.state.numbers, &file[p.at..]);
        p = p.advance(item);
    }
}

// Reads a file: the numbers of its job, and its contours and distances into the buffers; or the number that `check`
// gives; or 11 where a buffer is too short. A refusal leaves every buffer as it came, and places beyond the job keep
// theirs.
pub fn read(file: &[u8], buffers: &mut JobBuffers) -> Result<Numbers, Refusal>
    ensures outcome { read_outcome (read_answer result) (buffers_in buffers.new) ≡ read_into (accept_job file.now) (buffers_in buffers.old) }
    ensures same { SameJobBuffers buffers.old buffers.new }
{
    let n = color::accept(file)?;
    if !buffers.has_room(n) {
        return Err(Refusal::ResultTooShort);
    }
    fill(file, buffers);
    Ok(n)
}
