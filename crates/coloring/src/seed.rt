// Draws from a seed, after coloring/mod.rs.
ghost use Rattle.std.specs.Prelude.{◌≡◌};
ghost use Rattle.coloring.specs.Seed.{seed_extract};

// A draw from a seed: the number drawn, and the seed that is left.
#[derive(Clone, Copy)]
pub struct Draw {
    pub value: u64,
    pub seed: u64,
}

// The seed mod N, and its Nth part: the source's `seed_extract2` and `seed_extract3`. Of no choices, the seed itself is
// drawn.
pub fn seed_extract<const N: u64>(seed: u64) -> Draw
    ensures { result ≡ seed_extract N seed }
{
    Draw {
        value: seed.checked_rem(N).unwrap_or(seed),
        seed: seed.checked_div(N).unwrap_or(0),
    }
}
