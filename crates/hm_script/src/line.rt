//! The lines of a script.
ghost use Rattle.std.specs.Prelude.{◌≡◌, ◌≢◌, ◌==◌, ◌<◌, ◌≤◌, ◌+◌, ◌++◌, ◌∷◌, length, take, drop, All, IfSome, IfNone, not, position};
ghost use Rattle.hm_script.specs.Lines.{IsLineOf, lines_of, is_skipped, is_right, front as front_of, indent_of, after_old as after_old_of};

// The place of the first such byte.
pub fn find_byte(bytes: &[u8], wanted: u8) -> Option<usize>
    ensures found { IfSome result (λ at. (at < length bytes.now) × (bytes.now ≡ take at bytes.now ++ wanted ∷ drop (at + 1) bytes.now)) }
    ensures first { IfSome result (λ at. All (λ b. b ≢ wanted) (take at bytes.now)) }
    ensures none { IfNone result (All (λ b. b ≢ wanted) bytes.now) }
{
    for (at, b) in bytes.iter().enumerate() {
        if *b == wanted {
            return Some(at);
        }
    }
    None
}

// A line without the carriage return that stands before its newline.
fn without_return(line: &[u8]) -> &[u8]
    ensures { IsLineOf result.now line.now }
{
    match line.strip_suffix(b"\r".as_slice()) {
        Some(front) => front,
        None => line,
    }
}

// The first line, and what stands after it.
pub fn first_line(bytes: &[u8]) -> (&[u8], &[u8])
    requires { 0 < length bytes.now }
    ensures lines { lines_of bytes.now ≡ result.0.now ∷ lines_of result.1.now }
    ensures shorter { length result.1.now < length bytes.now }
{
    match find_byte(bytes, b'\n') {
        Some(end) => (without_return(&bytes[..end]), &bytes[end + 1..]),
        None => (bytes, &[]),
    }
}

// Whether a line is empty or a comment.
pub fn skips(line: &[u8]) -> bool
    ensures { result ≡ is_skipped line.now }
{
    match line {
        [] => true,
        [first, ..] => *first == b'#',
    }
}

// The place of the first byte that may not stand in a line.
pub fn first_wrong(line: &[u8]) -> Option<usize>
    ensures place { result ≡ position (λ b. not (is_right b)) line.now }
    ensures within { IfSome result (λ at. at < length line.now) }
{
    line.iter().position(|b| !matches!(*b, b' '..=b'~'))
}

// What stands before a place, or the whole line.
pub fn front(line: &[u8], end: Option<usize>) -> &[u8]
    requires { IfSome end (λ at. at ≤ length line.now) }
    ensures { result.now ≡ front_of end line.now }
{
    match end {
        Some(at) => &line[..at],
        None => line,
    }
}

// The place of the first byte that is no space.
fn first_letter(line: &[u8]) -> Option<usize>
    ensures place { result ≡ position (λ b. not (b == 32)) line.now }
    ensures within { IfSome result (λ at. at < length line.now) }
{
    line.iter().position(|b| *b != b' ')
}

// How many spaces a line begins with, if it has anything else.
pub fn indent(line: &[u8]) -> usize
    ensures place { result ≡ indent_of line.now }
    ensures within { result ≤ length line.now }
{
    first_letter(line).unwrap_or(0)
}

// The place of the second word of a line whose first word is `old`.
pub fn after_old(line: &[u8]) -> usize
    ensures { result ≡ after_old_of line.now }
{
    let end = indent(line) + 3;
    match line.get(end..) {
        Some(rest) => end + indent(rest),
        None => end,
    }
}
