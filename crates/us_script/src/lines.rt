// The lines of a script.
ghost use Rattle.std.specs.Prelude.{◌≡◌, ◌∷◌, ◌<◌, length};
ghost use Rattle.us_mm_lines.specs.Lines.{lines};

use memchr::memchr;
use us_mm_lines::without_return;

/// The first line, and the bytes behind it.
pub fn first_line(bytes: &[u8]) -> (&[u8], &[u8])
    requires { 0 < length bytes.now }
    ensures lines { lines bytes.now ≡ result.0.now ∷ lines result.1.now }
    ensures shorter { length result.1.now < length bytes.now }
{
    match memchr(b'\n', bytes) {
        Some(end) => (without_return(&bytes[..end]), &bytes[end + 1..]),
        None => (without_return(bytes), &bytes[bytes.len()..]),
    }
}
