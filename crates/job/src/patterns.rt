// The tests of the floats' bit patterns in a file, which are numbers of eight bytes, lowest first.
ghost use Rattle.std.specs.Prelude.{ℕ, Bool, ◌≡◌, ◌/◌, length};
ghost use Rattle.coloring.specs.Lists.{all};
ghost use Rattle.job.specs.Patterns.{words, magnitude, is_threshold, is_coordinate, is_distance};

const SIGN_BIT: u64 = 0x8000_0000_0000_0000;

fn magnitude(pattern: u64) -> u64
    ensures { result ≡ magnitude pattern }
{
    pattern % SIGN_BIT
}

// The tests that specs/ names, each with a bound of its own.
pub(crate) fn is_threshold(pattern: u64) -> bool
    ensures { result ≡ is_threshold pattern }
{
    magnitude(pattern) <= 0x3FF0_0000_0000_0000
}

pub(crate) fn is_coordinate(pattern: u64) -> bool
    ensures { result ≡ is_coordinate pattern }
{
    magnitude(pattern) <= 0x4130_0000_0000_0000
}

pub(crate) fn is_distance(pattern: u64) -> bool
    ensures { result ≡ is_distance pattern }
{
    pattern < 0x7FF0_0000_0000_0000 || pattern == SIGN_BIT
}

// Whether all numbers of some bytes pass a test.
pub(crate) fn words_within<F: Fn(u64) -> bool>(within: F, bytes: &[u8]) -> bool
    requires { F.IsAlwaysCallable within }
    ensures { (test : ℕ → Bool) → ((x : ℕ) (b : Bool) → F.post within x b → b ≡ test x)
        → result ≡ all test (words (length bytes.now / 8) bytes.now) }
{
    let (words, _) = bytes.as_chunks();
    words.iter().all(|word| within(u64::from_le_bytes(*word)))
}
