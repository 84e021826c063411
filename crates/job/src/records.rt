// The records of a job file, one after another: a mark of two letters, then its fields (SCOPE, Job file).
ghost use Rattle.std.specs.Prelude.{◌≡◌, [], length};
ghost use Rattle.job.specs.declared.records.Mark.TheVariants.{Edge, Distances};
ghost use Rattle.job.specs.Records.{strategy_number, strategy_numbered, by_distance, kind_number, mark_of, controls, header_size, body_size};
ghost use Rattle.job.specs.Records.{item_size, allowed, below_maximum, item_answer, found_answer, found_of};
ghost use Rattle.job.specs.Records.{read_header, read_edge, read_distances, read_end, read_body, read_marked, read_record};

use crate::patterns::{is_coordinate, is_distance, is_threshold, words_within};
use crate::progress::Numbers;
use coloring::limits::{MAX_CONTOURS, MAX_DISTANCES, MAX_EDGES};
use coloring::refusal::Refusal;

#[derive(Clone, Copy, PartialEq, Eq)]
pub enum Strategy {
    Simple = 1,
    InkTrap = 2,
    ByDistance = 3,
}

impl Strategy {
    // Whether it asks for distances.
    pub(crate) fn by_distance(self) -> bool
        ensures { result ≡ by_distance self }
    {
        self == Strategy::ByDistance
    }
}

impl From<Strategy> for u8 {
    ghost from_gives = { λ strategy number. number ≡ strategy_number strategy };

    fn from(strategy: Strategy) -> u8 {
        strategy as u8
    }
}

#[tactic(auto, unfolding(crate::specs::Records::strategy_of))]
impl TryFrom<u8> for Strategy {
    type Error = Refusal;

    ghost try_from_gives = { λ number strategy. strategy ≡ strategy_numbered number };

    fn try_from(number: u8) -> Result<Strategy, Refusal> {
        match number {
            1 => Ok(Strategy::Simple),
            2 => Ok(Strategy::InkTrap),
            3 => Ok(Strategy::ByDistance),
            _ => Err(Refusal::UnknownKind),
        }
    }
}

#[derive(Clone, Copy, PartialEq, Eq)]
pub enum Kind {
    Line = 1,
    Quadratic = 2,
    Cubic = 3,
}

impl Kind {
    // The control points of an edge.
    pub(crate) fn controls(self) -> usize
        ensures { result ≡ controls self }
    {
        self as usize + 1
    }
}

impl From<Kind> for u8 {
    ghost from_gives = { λ kind number. number ≡ kind_number kind };

    fn from(kind: Kind) -> u8 {
        kind as u8
    }
}

#[derive(Clone, Copy, PartialEq, Eq)]
pub enum Mark {
    // JB
    Header,
    // BL
    Balanced,
    // CT
    Contour,
    // LN, QD, CB
    Edge(Kind),
    // DS
    Distances,
    // EN
    End,
}

impl Mark {
    // How many bytes follow the mark; of DS, the count's.
    pub(crate) fn body_size(self) -> usize
        ensures { result ≡ body_size self }
    {
        match self {
            Mark::Header => HEADER_SIZE,
            Mark::Edge(kind) => 16 * kind.controls(),
            Mark::Distances => 2,
            Mark::Balanced | Mark::Contour | Mark::End => 0,
        }
    }
}

// Strategy, seed, threshold.
const HEADER_SIZE: usize = 17;

// Where in a file a record stands.
#[derive(Clone, Copy, PartialEq, Eq)]
pub enum Phase {
    // before JB
    Start,
    // directly after JB
    Headed,
    // after BL, no contour yet
    Outside,
    // in a contour
    Inside,
    // after DS
    Closing,
}

// The fields of JB, the threshold as its bit pattern.
#[derive(Clone, Copy, PartialEq, Eq)]
pub struct Header {
    pub strategy: Strategy,
    pub seed: u64,
    pub threshold: u64,
}

// What is allowed next follows from this.
#[derive(Clone, Copy)]
pub struct State {
    pub phase: Phase,
    pub numbers: Numbers,
}

impl State {
    // Whether a mark may stand there.
    fn allows(self, mark: Mark) -> bool
        ensures { result ≡ allowed self.phase self.numbers.header.strategy mark }
    {
        let phase = self.phase;
        let by_distance = self.numbers.header.strategy.by_distance();
        let among = matches!(phase, Phase::Headed | Phase::Outside | Phase::Inside);
        match mark {
            Mark::Header => phase == Phase::Start,
            Mark::Balanced => phase == Phase::Headed,
            Mark::Contour => among,
            Mark::Edge(_) => phase == Phase::Inside,
            Mark::Distances => among && by_distance,
            Mark::End => phase == Phase::Closing || (among && !by_distance),
        }
    }
}

// A record without its floats: of an edge its kind, of DS how many distances.
#[derive(Clone, Copy, PartialEq, Eq)]
pub enum Item {
    Header(Header),
    Balanced,
    Contour,
    Edge(Kind),
    Distances(u16),
}

impl Item {
    // How many bytes its record takes.
    pub(crate) fn size(self) -> usize
        ensures { result ≡ item_size self }
    {
        match self {
            Item::Header(_) => 2 + Mark::Header.body_size(),
            Item::Balanced => 2 + Mark::Balanced.body_size(),
            Item::Contour => 2 + Mark::Contour.body_size(),
            Item::Edge(kind) => 2 + Mark::Edge(kind).body_size(),
            Item::Distances(count) => 2 + Mark::Distances.body_size() + 8 * usize::from(count),
        }
    }
}

#[tactic(auto, unfolding(crate::specs::Records::mark_of, crate::specs::Records::mark_among))]
fn mark_of(a: u8, b: u8) -> Option<Mark>
    ensures { result ≡ mark_of a b }
{
    match &[a, b] {
        b"JB" => Some(Mark::Header),
        b"BL" => Some(Mark::Balanced),
        b"CT" => Some(Mark::Contour),
        b"LN" => Some(Mark::Edge(Kind::Line)),
        b"QD" => Some(Mark::Edge(Kind::Quadratic)),
        b"CB" => Some(Mark::Edge(Kind::Cubic)),
        b"DS" => Some(Mark::Distances),
        b"EN" => Some(Mark::End),
        _ => None,
    }
}

// Whether one more such record is within the maximum.
fn below_maximum(n: Numbers, mark: Mark) -> bool
    ensures { result ≡ below_maximum n mark }
{
    match mark {
        Mark::Contour => n.contours < MAX_CONTOURS,
        Mark::Edge(_) => n.edges < MAX_EDGES,
        _ => true,
    }
}

fn read_header(body: &[u8]) -> Result<Item, Refusal>
    requires { length body.now ≡ header_size }
    ensures { item_answer result ≡ found_of (read_header body.now []) }
{
    let strategy = Strategy::try_from(body[0])?;
    let (words, _) = body[1..].as_chunks();
    let seed = u64::from_le_bytes(words[0]);
    let threshold = u64::from_le_bytes(words[1]);
    if !is_threshold(threshold) {
        return Err(Refusal::BadThreshold);
    }
    Ok(Item::Header(Header {
        strategy,
        seed,
        threshold,
    }))
}

fn read_edge(kind: Kind, body: &[u8]) -> Result<Item, Refusal>
    requires { length body.now ≡ body_size (Edge kind) }
    ensures { item_answer result ≡ found_of (read_edge kind body.now []) }
{
    if !words_within(is_coordinate, body) {
        return Err(Refusal::BadCoordinate);
    }
    Ok(Item::Edge(kind))
}

fn read_distances(body: &[u8], rest: &[u8]) -> Result<Item, Refusal>
    requires { length body.now ≡ body_size Distances }
    ensures { item_answer result ≡ found_of (read_distances body.now rest.now) }
{
    let count = u16::from_le_bytes([body[0], body[1]]);
    let distances = usize::from(count);
    if distances > MAX_DISTANCES {
        return Err(Refusal::TooMany);
    }
    if rest.len() < 8 * distances {
        return Err(Refusal::Truncated);
    }
    if !words_within(is_distance, &rest[..8 * distances]) {
        return Err(Refusal::BadDistance);
    }
    Ok(Item::Distances(count))
}

// The end, after which nothing may stand.
#[tactic(auto, using(crate::proofs::records::RecordLaws::end_empty, crate::proofs::records::RecordLaws::end_more))]
fn read_end(rest: &[u8]) -> Result<Option<Item>, Refusal>
    ensures { found_answer result ≡ found_of (read_end rest.now) }
{
    if !rest.is_empty() {
        return Err(Refusal::MisplacedMark);
    }
    Ok(None)
}

fn read_body(mark: Mark, body: &[u8], rest: &[u8]) -> Result<Option<Item>, Refusal>
    requires { length body.now ≡ body_size mark }
    ensures { found_answer result ≡ found_of (read_body mark body.now rest.now) }
{
    match mark {
        Mark::Header => read_header(body).map(Some),
        Mark::Balanced => Ok(Some(Item::Balanced)),
        Mark::Contour => Ok(Some(Item::Contour)),
        Mark::Edge(kind) => read_edge(kind, body).map(Some),
        Mark::Distances => read_distances(body, rest).map(Some),
        Mark::End => read_end(rest),
    }
}

// The record of a known mark, from the bytes after it.
#[tactic(auto, unfolding(crate::specs::Records::read_marked))]
fn read_marked(s: State, mark: Mark, bytes: &[u8]) -> Result<Option<Item>, Refusal>
    ensures { found_answer result ≡ found_of (read_marked s (Some mark) bytes.now) }
{
    if !s.allows(mark) {
        return Err(Refusal::MisplacedMark);
    }
    if !below_maximum(s.numbers, mark) {
        return Err(Refusal::TooMany);
    }
    let Some((body, rest)) = bytes.split_at_checked(mark.body_size()) else {
        return Err(Refusal::Truncated);
    };
    read_body(mark, body, rest)
}

// The first record of some bytes, or their end.
pub(crate) fn read_record(s: State, bytes: &[u8]) -> Result<Option<Item>, Refusal>
    ensures { found_answer result ≡ found_of (read_record s bytes.now) }
{
    let [a, b, rest @ ..] = bytes else {
        return Err(Refusal::Truncated);
    };
    let Some(mark) = mark_of(*a, *b) else {
        return Err(Refusal::UnknownMark);
    };
    read_marked(s, mark, rest)
}
