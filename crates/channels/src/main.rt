// Reads a job file from standard input and prints a line for each coloured edge, or the number of its refusal.
#![tactic(auto)]

ghost use Rattle.std.specs.Prelude.{◌≤◌, ◌<◌, length, take, IfOk, OnOk, IfSome};
ghost use Rattle.std.specs.Io.KnownBytes.{Appends, Consumes, IsAtEnd};
ghost use Rattle.job.specs.Listing.{file_text};

use job::limits::{DECIDING_BYTES, MAX_TEXT};
use job::listing;
use std::io::{self, Read, Write};

// Reads until space is full or the input ends: how many bytes, which stand at the start of space. A loop, since std's
// `read_exact` tells no number of bytes where the input ends before.
fn read_full<R: Read>(input: &mut R, space: &mut [u8]) -> io::Result<usize>
    ensures within { IfOk result (λ n. n ≤ length space.new) }
    ensures bytes { IfOk result (λ n. Consumes (R.remaining input.old) (R.remaining input.new) (take n space.new)) }
    ensures end { IfOk result (λ n. n < length space.new → IsAtEnd (R.remaining input.new)) }
{
    let mut done = 0;
    while done < space.len() {
        let n = input.read(&mut space[done..])?;
        if n == 0 {
            break;
        }
        done += n;
    }
    Ok(done)
}

// Prints the text of the file that is the input. So many bytes decide every file's text, and no text is longer
// (docs/PROOFS.md).
fn print_text<R: Read, W: Write>(input: &mut R, output: &mut W) -> io::Result<()>
    ensures { OnOk result (IfSome (R.remaining input.old) (λ file. Appends (W.contents output.old) (W.contents output.new) (file_text file))) }
{
    let mut file = [0u8; DECIDING_BYTES];
    let n = read_full(input, &mut file)?;
    let mut text = [0u8; MAX_TEXT];
    let length = listing::text(&file[..n], &mut text);
    output.write_all(&text[..length])
}

fn main(rt: HostRuntime) -> io::Result<()> {
    print_text(&mut rt.stdin(), &mut rt.stdout())
}
