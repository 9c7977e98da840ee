ghost use Rattle.std.specs.Prelude.{◌≡◌, ◌≢◌, ◌<◌, ◌++◌, ◌∷◌, [], length, take, slice_index, All};
ghost use Rattle.std.specs.Prelude.{IfSome, IfNone};
ghost use Rattle.solid_base.specs.Texts.{IsOneLine};
ghost use Rattle.iges_cards.specs.Lines.{IsFirstLine, line_of};

use memchr::memchr;

fn place_of_feed(bytes: &[u8]) -> Option<usize>
    ensures found { IfSome result (λ n. (n < length bytes.now) × (slice_index bytes.now n ≡ 10)) }
    ensures before { IfSome result (λ n. All (λ b. b ≢ 10) (take n bytes.now)) }
    ensures none { IfNone result (All (λ b. b ≢ 10) bytes.now) }
{
    memchr(b'\n', bytes)
}

/// The bytes before LF, without one CR directly before it.
fn without_return(line: &[u8]) -> &[u8]
    requires { IsOneLine line.now }
    ensures { result.now ≡ line_of (line.now ++ 10 ∷ []) }
{
    match line.strip_suffix(b"\r") {
        Some(front) => front,
        None => line,
    }
}

/// The first line without its line end, LF or CR LF, and the bytes after it. The last line may have
/// no line end.
pub fn split_line(bytes: &[u8]) -> (&[u8], &[u8])
    requires { 0 < length bytes.now }
    ensures first { IsFirstLine bytes.now result.0.now result.1.now }
    ensures shorter { length result.1.now < length bytes.now }
{
    match place_of_feed(bytes) {
        Some(place) => (without_return(&bytes[..place]), &bytes[place + 1..]),
        None => (bytes, &[]),
    }
}
