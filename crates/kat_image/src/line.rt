//! One line of an image.

ghost use Rattle.std.specs.Prelude.{◌≡◌, ◌<◌, ℕ, List, ◌∷◌, length, Some, IfSome, IsSomeAnd};
ghost use Rattle.std.specs.Option.{option_copied};
ghost use Rattle.kat_image.specs.Image.{lines_of};
ghost use Rattle.kat_image.specs.Reader.{lines_behind};

use memchr::memchr;

/// The first line, and what stands behind its newline if it has one.
pub(crate) fn first_line(bytes: &[u8]) -> (&[u8], Option<&[u8]>)
    ensures lines { lines_of bytes.now ≡ result.0.now ∷ lines_behind (option_copied result.1) }
    ensures shorter { IfSome result.1 (λ rest. length rest.now < length bytes.now) }
{
    match memchr(b'\n', bytes) {
        None => (bytes, None),
        Some(at) => {
            let (line, behind) = bytes.split_at(at);
            (line, Some(&behind[1..]))
        }
    }
}
