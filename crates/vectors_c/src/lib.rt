// The export that the comparison with the Rust calls: the function of `vectors` that has its name, with its clause.
// Kept apart from `vectors`: a crate is a library or an archive, and `replay` uses `vectors`.
#![tactic(auto)]

ghost use Rattle.std.specs.Prelude.{cond, ◌≤◌};
ghost use Rattle.vectors.specs.Records.{is_record};

#[unsafe(no_mangle)]
pub extern "C" fn vectors_right(s: &[u8]) -> u64
    ensures { result ≤ cond (is_record s.now) 1 0 }
{
    vectors::vectors_right(s)
}
