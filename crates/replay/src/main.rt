// Reads records from standard input, makes the calls, and prints for each part how many are answered as recorded.
#![tactic(auto)]

ghost use Rattle.std.specs.Prelude.{◌≡◌, ◌≤◌, length, take, IfOk, IfSome, true};
ghost use Rattle.std.specs.Io.KnownBytes.{Consumes};

use std::io::{self, ErrorKind, Read, Write};
use vectors::{is_heading, record_bytes, vectors_right};

// More records than any input has: a loop is proved to end.
const MOST_RECORDS: u32 = 1_000_000;

// How many records of the present part were right, of how many.
#[derive(Clone, Copy, Default)]
struct Counts {
    right: u64,
    all: u64,
}

// Ends the line of a name by the counts. Nothing was counted before the first name.
fn print_counts<W: Write>(output: &mut W, counts: Counts) -> io::Result<()> {
    if counts.all > 0 {
        writeln!(output, "{} of {}", counts.right, counts.all)?;
    }
    Ok(())
}

// Counts the record at the start of s, or ends a line and begins the next with the name of the heading there.
fn step<W: Write>(output: &mut W, s: &[u8], counts: &mut Counts) -> io::Result<()> {
    if is_heading(s) {
        print_counts(output, *counts)?;
        *counts = Counts::default();
        if let Some(name) = s.get(8..24) {
            output.write_all(name)?;
        }
    } else {
        counts.right = counts.right.wrapping_add(vectors_right(s));
        counts.all = counts.all.wrapping_add(1);
    }
    Ok(())
}

// Fills space, or says that the input has too few bytes for it.
fn read_full<R: Read>(input: &mut R, space: &mut [u8]) -> io::Result<bool>
    ensures { IfOk result (λ full. full ≡ true → Consumes (R.remaining input.old) (R.remaining input.new) space.new) }
{
    match input.read_exact(space) {
        Ok(()) => Ok(true),
        Err(e) if e.kind() == ErrorKind::UnexpectedEof => Ok(false),
        Err(e) => Err(e),
    }
}

// Reads the next heading or record to the start of space: how many bytes it has, or none at the end.
fn read_record<R: Read>(input: &mut R, space: &mut [u8]) -> io::Result<Option<usize>>
    requires { 16 ≤ length space.old }
    ensures within { IfOk result (λ size. IfSome size (λ n. n ≤ length space.old)) }
    ensures bytes { IfOk result (λ size. IfSome size (λ n. Consumes (R.remaining input.old) (R.remaining input.new) (take n space.new))) }
{
    if !read_full(input, &mut space[..16])? {
        return Ok(None);
    }
    let size = record_bytes(&space[..16]);
    if size < 16 || size > space.len() as u64 {
        return Ok(None);
    }
    let end = size as usize;
    if !read_full(input, &mut space[16..end])? {
        return Ok(None);
    }
    Ok(Some(end))
}

// Makes the calls of the records that the input has, and prints the lines.
fn replay<R: Read, W: Write>(input: &mut R, output: &mut W) -> io::Result<()> {
    let mut space = [0; 65536];
    let mut counts = Counts::default();
    for _ in 0..MOST_RECORDS {
        let Some(n) = read_record(input, &mut space)? else {
            break;
        };
        step(output, &space[..n], &mut counts)?;
    }
    print_counts(output, counts)
}

fn main(rt: HostRuntime) -> io::Result<()> {
    replay(&mut rt.stdin(), &mut rt.stdout())
}
