//! The rows of a source.

ghost use Rattle.std.specs.Prelude.{◌≡◌};
ghost use Rattle.n2_asm.specs.Rows as spec;

/// The first row, and what follows its line feed.
pub fn first_row(bytes: &[u8]) -> (&[u8], &[u8])
    ensures row { result.0.now ≡ (spec.first_row bytes.now).0 }
    ensures rest { result.1.now ≡ (spec.first_row bytes.now).1 }
{
    for (i, c) in bytes.iter().enumerate() {
        if *c == b'\n' {
            return (&bytes[..i], &bytes[i + 1..]);
        }
    }
    bytes.split_at(bytes.len())
}
