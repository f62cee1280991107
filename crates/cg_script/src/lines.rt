//! The lines of bytes.
ghost use Rattle.std.specs.Prelude.{◌≡◌, ◌<◌, ◌≤◌, ◌∷◌, length};
ghost use Rattle.std.specs.List.{list_all, prefix_len};
ghost use Rattle.std.specs.Str.Lines.{lines, strip_carriage_return};
ghost use Rattle.cg_token.specs.Cut.{in_line};
ghost use Rattle.cg_script.specs.Lines.{is_blank, is_skipped};

pub(crate) fn is_blank(byte: u8) -> bool
    ensures { result ≡ is_blank byte }
{
    byte == b' ' || byte == b'\t'
}

/// Whether there is nothing but blanks.
pub(crate) fn are_blanks(bytes: &[u8]) -> bool
    ensures { result ≡ list_all is_blank bytes.now }
{
    bytes.iter().all(|c| is_blank(*c))
}

/// Whether a line holds no command: it is empty, blank or a remark.
pub(crate) fn is_skipped(line: &[u8]) -> bool
    ensures { result ≡ is_skipped line.now }
{
    are_blanks(line) || line[0] == b'#'
}

fn line_len(bytes: &[u8]) -> usize
    ensures value { result ≡ prefix_len in_line bytes.now }
    ensures within { result ≤ length bytes.now }
{
    bytes.iter().take_while(|c| **c != b'\n').count()
}

fn without_return(line: &[u8]) -> &[u8]
    ensures { result.now ≡ strip_carriage_return line.now }
{
    match line {
        [front @ .., b'\r'] => front,
        _ => line,
    }
}

/// The first line, and the bytes behind its end.
pub(crate) fn first_line(bytes: &[u8]) -> (&[u8], &[u8])
    requires { 0 < length bytes.now }
    ensures lines { lines bytes.now ≡ result.0.now ∷ lines result.1.now }
    ensures within { length result.0.now ≤ length bytes.now }
    ensures shorter { length result.1.now < length bytes.now }
{
    let (line, rest) = bytes.split_at(line_len(bytes));
    if rest.is_empty() {
        (line, rest)
    } else {
        (without_return(line), &rest[1..])
    }
}
