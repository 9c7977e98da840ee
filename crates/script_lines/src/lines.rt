ghost use Rattle.std.specs.Prelude.{◌≡◌, ◌<◌, ◌≤◌, ◌∷◌, [], length};
ghost use Rattle.std.specs.Prelude.{not, nat_eq, true, IfSome, IfNone};
ghost use Rattle.std.specs.List.{prefix_len};
ghost use Rattle.script_lines.specs.Lines.{lines_of, kept_lines, is_kept, is_idle, without_return};

use itertools::Itertools;

/// How many bytes stand in front of a text before its first LF.
fn bytes_before_feed(text: &[u8]) -> usize
    ensures within { result ≤ length text.now }
    ensures value { result ≡ prefix_len (λ b. not (nat_eq b 10)) text.now }
{
    let mut bytes = text.iter().copied();
    match bytes.find_position(|b: &u8| *b == b'\n') {
        Some((place, _)) => place,
        None => text.len(),
    }
}

/// A line without the CR at its end, where one stands there.
fn without_return(line: &[u8]) -> &[u8]
    ensures value { result.now ≡ without_return line.now }
    ensures within { length result.now ≤ length line.now }
{
    match line.strip_suffix(b"\r") {
        Some(front) => front,
        None => line,
    }
}

/// The first line, and the bytes after its line end. A CR before LF belongs to the line end; one
/// where the bytes end belongs to the line.
fn split_line(bytes: &[u8]) -> (&[u8], &[u8])
    requires { 0 < length bytes.now }
    ensures lines { lines_of bytes.now ≡ result.0.now ∷ lines_of result.1.now }
    ensures within { length result.0.now ≤ length bytes.now }
    ensures shorter { length result.1.now < length bytes.now }
{
    let count = bytes_before_feed(bytes);
    if count == bytes.len() {
        (bytes, &[])
    } else {
        (without_return(&bytes[..count]), &bytes[count + 1..])
    }
}

/// Whether a byte says nothing where it stands alone: a blank or the byte 26.
fn is_idle(b: u8) -> bool
    ensures { result ≡ is_idle b }
{
    b == b' ' || b == b'\t' || b == 26
}

/// Whether a line holds a byte that is neither a blank nor 26.
fn is_kept(line: &[u8]) -> bool
    ensures { result ≡ is_kept line.now }
{
    line.iter().any(|b| !is_idle(*b))
}

/// The first line that isn't skipped, and the bytes after it. None where there is none.
pub fn first_kept(bytes: &[u8]) -> Option<(&[u8], &[u8])>
    ensures found { IfSome result (λ found.
        kept_lines bytes.now ≡ found.0.now ∷ kept_lines found.1.now) }
    ensures kept { IfSome result (λ found. is_kept found.0.now ≡ true) }
    ensures within { IfSome result (λ found. length found.0.now ≤ length bytes.now) }
    ensures shorter { IfSome result (λ found. length found.1.now < length bytes.now) }
    ensures none { IfNone result (kept_lines bytes.now ≡ []) }
{
    let mut rest = bytes;
    while !rest.is_empty() {
        let (line, after) = split_line(rest);
        if is_kept(line) {
            return Some((line, after));
        }
        rest = after;
    }
    None
}
