// How far a file is read, record by record, and the numbers of its job.
ghost use Rattle.std.specs.Prelude.{◌≡◌, ◌<◌, ◌≤◌, length, drop};
ghost use Rattle.job.specs.Job.{read_job};
ghost use Rattle.job.specs.Records.{phase_after, counted, item_size, found_answer, found_of, read_record};
ghost use Rattle.job.specs.Progress.{read_answer, begin, advanced, answer_of, CanAdvance};

use crate::records::{Header, Item, Phase, State, Strategy, read_record};
use coloring::refusal::Refusal;
use coloring::settings::Division;

// The numbers of a job: its header, the division of its teardrops, and how many contours, edges and distances it has.
#[derive(Clone, Copy)]
pub struct Numbers {
    pub header: Header,
    pub division: Division,
    pub contours: usize,
    pub edges: usize,
    pub distances: usize,
}

impl Numbers {
    // With a record more.
    fn with(self, item: Item) -> Numbers
        requires { (self.contours < 65536) × (self.edges < 65536) }
        ensures { result ≡ counted self item }
    {
        match item {
            Item::Header(header) => Numbers { header, ..self },
            Item::Balanced => Numbers {
                division: Division::Balanced,
                ..self
            },
            Item::Contour => Numbers {
                contours: self.contours + 1,
                ..self
            },
            Item::Edge(_) => Numbers {
                edges: self.edges + 1,
                ..self
            },
            Item::Distances(count) => Numbers {
                distances: usize::from(count),
                ..self
            },
        }
    }
}

impl Phase {
    fn after(self, item: Item) -> Phase
        ensures { result ≡ phase_after self item }
    {
        match item {
            Item::Header(_) => Phase::Headed,
            Item::Balanced => Phase::Outside,
            Item::Contour => Phase::Inside,
            Item::Edge(_) => self,
            Item::Distances(_) => Phase::Closing,
        }
    }
}

// How far a file is read: a place, and what was read before it.
#[derive(Clone, Copy)]
pub struct Progress {
    pub at: usize,
    pub state: State,
}

impl Progress {
    // Before the first record. No derived default: the phase and a strategy are named.
    pub(crate) fn begin() -> Progress
        ensures { result ≡ begin }
    {
        let header = Header {
            strategy: Strategy::Simple,
            seed: 0,
            threshold: 0,
        };
        let numbers = Numbers {
            header,
            division: Division::Source,
            contours: 0,
            edges: 0,
            distances: 0,
        };
        let state = State {
            phase: Phase::Start,
            numbers,
        };
        Progress { at: 0, state }
    }

    // The record at that place, or the end. The loops over records (`scan`, `fill`, `contour_span`) are no iterator:
    // each needs the place or the numbers before the record beside it, and only `scan` the refusal that ends it.
    pub(crate) fn next(self, file: &[u8]) -> Result<Option<Item>, Refusal>
        requires { self.at ≤ length file.now }
        ensures { found_answer result ≡ found_of (read_record self.state (drop self.at file.now)) }
    {
        read_record(self.state, &file[self.at..])
    }

    // One record further.
    pub(crate) fn advance(self, item: Item) -> Progress
        requires { CanAdvance self (item_size item) }
        ensures { result ≡ advanced self item (item_size item) }
    {
        let State { phase, numbers } = self.state;
        Progress {
            at: self.at + item.size(),
            state: State {
                phase: phase.after(item),
                numbers: numbers.with(item),
            },
        }
    }
}

// The numbers of a file's job, or its first refusal.
pub(crate) fn scan(file: &[u8]) -> Result<Numbers, Refusal>
    ensures { read_answer result ≡ answer_of (read_job file.now) }
{
    let mut p = Progress::begin();
    while let Some(item) = p.next(file)? {
        p = p.advance(item);
    }
    Ok(p.state.numbers)
}
