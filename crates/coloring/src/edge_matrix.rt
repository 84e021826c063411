// The entries of a spline table, to be read.
ghost use Rattle.std.specs.Prelude.{◌≡◌, ◌≤◌, ◌*◌, length};
ghost use Rattle.coloring.specs.Limits.{max_splines};

// One entry for every two of n splines, by rows, not 0 where the pair is kept.
#[derive(Clone, Copy)]
pub(crate) struct EdgeMatrix<'a> {
    pub(crate) entries: &'a [u8],
    pub(crate) n: usize,
    ghost square: { length entries.now ≡ n * n },
    ghost few: { n ≤ max_splines },
}

impl<'a> EdgeMatrix<'a> {
    ghost use Rattle.std.specs.Prelude.{◌<◌};
    ghost use Rattle.coloring.specs.Recolor.{row};
    ghost use Rattle.coloring.specs.SplineTable.{entry, mirrored, symmetric};

    // The row of spline v: its entries with every other spline.
    pub(crate) fn row(self, v: usize) -> &'a [u8]
        requires { v < self.n }
        ensures { result.now ≡ row self.entry.n self.entry.entries.now v }
    {
        let start = v * self.n;
        let end = start + self.n;
        &self.entries[start..end]
    }

    // The entry of spline j in the row of spline i.
    fn entry(self, i: usize, j: usize) -> u8
        requires { (i < self.n) × (j < self.n) }
        ensures { result ≡ entry self.entry.n self.entry.entries.now i j }
    {
        self.entries[i * self.n + j]
    }

    // Whether the entries before the diagonal in the row of spline i are the same the other way round. A loop and not
    // `all`: with no early end it runs on many bytes at a time.
    fn is_mirrored(self, i: usize) -> bool
        requires { i < self.n }
        ensures { result ≡ mirrored self.entry.n self.entry.entries.now i }
    {
        let mut good = true;
        for j in 0..i {
            good &= self.entry(i, j) == self.entry(j, i);
        }
        good
    }

    // Whether they are so in every row, and each spline's entry with itself is 0. No early end here either.
    pub(crate) fn is_symmetric(self) -> bool
        ensures { result ≡ symmetric self.entry.n self.entry.entries.now }
    {
        let mut good = true;
        for i in 0..self.n {
            good &= self.is_mirrored(i) & (self.entry(i, i) == 0);
        }
        good
    }
}
