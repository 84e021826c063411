// The part of a file that is one contour: from its CT up to the next CT, DS or EN.
ghost use Rattle.std.specs.Prelude.{◌≡◌, length, true};
ghost use Rattle.job.specs.Job.{read_job};
ghost use Rattle.coloring.specs.Answers.{succeeds};
ghost use Rattle.job.specs.Part.{sought, span_of, place_in, contour_place, contour_part, Inside};

use crate::color;
use crate::progress::Progress;
use crate::records::Item;

// From a byte up to another; from 0 up to 0 where there is none, as C gets it. Not std's Range, which is not Copy.
#[derive(Clone, Copy, PartialEq, Eq, Default)]
pub struct Span {
    pub start: usize,
    pub end: usize,
}

// How far the search for a contour is.
#[derive(Clone, Copy)]
pub enum Seek {
    // so many contours are still to be passed before it
    Passing(usize),
    // it began here
    Open(usize),
    Done(Span),
}

impl Seek {
    // One record further, which starts at a place.
    #[tactic(auto, unfolding(crate::specs::Part::sought))]
    fn after(self, at: usize, item: Item) -> Seek
        ensures { result ≡ sought self at item }
    {
        match (self, item) {
            (Seek::Passing(0), Item::Contour) => Seek::Open(at),
            (Seek::Passing(left), Item::Contour) => Seek::Passing(left - 1),
            (Seek::Open(_), Item::Edge(_)) => self,
            (Seek::Open(start), _) => Seek::Done(Span { start, end: at }),
            _ => self,
        }
    }

    // What was found when the records end at a place.
    fn span(self, at: usize) -> Span
        ensures { result ≡ span_of self at }
    {
        match self {
            Seek::Passing(_) => Span::default(),
            Seek::Open(start) => Span { start, end: at },
            Seek::Done(span) => span,
        }
    }
}

// Where a contour stands in a file that is read; from 0 up to 0 where it has too few.
fn contour_span(file: &[u8], number: usize) -> Span
    requires { succeeds (read_job file.now) ≡ true }
    ensures value { result ≡ place_in (read_job file.now) number }
    ensures inside { Inside result (length file.now) }
{
    let mut p = Progress::begin();
    let mut q = Seek::Passing(number);
    while let Ok(Some(item)) = p.next(file) {
        q = q.after(p.at, item);
        p = p.advance(item);
    }
    q.span(p.at)
}

// Where the bytes of a contour stand, its mark first; from 0 up to 0 for a refused file and for a number too large.
pub fn contour_place(file: &[u8], number: usize) -> Span
    ensures value { result ≡ contour_place file.now number }
    ensures inside { Inside result (length file.now) }
{
    if color::accept(file).is_err() {
        return Span::default();
    }
    contour_span(file, number)
}

// The bytes of a contour. Empty for a refused file and for a number too large.
#[tactic(auto, unfolding(crate::specs::Part::contour_part))]
pub fn contour_part(file: &[u8], number: usize) -> &[u8]
    ensures { result.now ≡ contour_part file.now number }
{
    let span = contour_place(file, number);
    &file[span.start..span.end]
}
