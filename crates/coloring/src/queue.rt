// The queue of a walk: splines that wait for a colour, first come first served, in a ring of 64 numbers.
// There is no heap, so it is no VecDeque.
ghost use Rattle.std.specs.Prelude.{◌≡◌, ◌<◌, length};

use crate::limits::MAX_SPLINES;

#[derive(Drop)]
pub(crate) struct Queue {
    places: [u8; MAX_SPLINES],
    head: usize,
    waiting: usize,
    ghost ring: { (length places ≡ 64) × (head < 64) },
}

impl Queue {
    ghost use Rattle.std.specs.Prelude.{[], ◌∷◌, ◌++◌, drop, slice_get};
    ghost use Rattle.coloring.specs.Queue.{waits};

    pub(crate) fn new() -> Queue
        ensures { waits result ≡ [] }
    {
        Queue {
            places: [0; MAX_SPLINES],
            head: 0,
            waiting: 0,
        }
    }

    // Takes the spline that waits longest.
    pub(crate) fn pop_front(&mut self) -> Option<u8>
        ensures first { result ≡ slice_get (waits self.old) 0 }
        ensures rest { waits self.new ≡ drop 1 (waits self.old) }
    {
        if self.waiting == 0 {
            return None;
        }
        let first = self.places[self.head];
        self.head = (self.head + 1) % MAX_SPLINES;
        self.waiting -= 1;
        Some(first)
    }

    pub(crate) fn push_back(&mut self, spline: u8)
        requires { length (waits self.old) < 64 }
        ensures { waits self.new ≡ waits self.old ++ spline ∷ [] }
    {
        self.places[(self.head + self.waiting) % MAX_SPLINES] = spline;
        self.waiting += 1;
    }
}
