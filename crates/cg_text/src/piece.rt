//! Words, and texts between quotes.
ghost use Rattle.std.specs.Prelude.{◌≡◌, ◌≤◌, length, option_map};
ghost use Rattle.std.specs.List.{prefix_len};
ghost use Rattle.std.specs.Char.{is_ascii_alphanumeric};
ghost use Rattle.cg_text.specs.Pieces.{after, letters_at, text_at};

const MAX_LETTERS: usize = 20;

/// What comes after the word, where the bytes begin with it.
pub fn after<'a>(bytes: &'a [u8], word: &[u8]) -> Option<&'a [u8]>
    ensures { option_map (λ rest. rest.now) result ≡ after word.now bytes.now }
{
    bytes.strip_prefix(word)
}

fn letters_len(bytes: &[u8]) -> usize
    ensures value { result ≡ prefix_len is_ascii_alphanumeric bytes.now }
    ensures within { result ≤ length bytes.now }
{
    bytes
        .iter()
        .take_while(|c| c.is_ascii_alphanumeric())
        .count()
}

fn letters_at(bytes: &[u8]) -> Option<(&str, &[u8])>
    ensures { option_map (λ text. (text.0.now, text.1.now)) result ≡ letters_at bytes.now }
{
    let len = letters_len(bytes);
    if len < 1 || len > MAX_LETTERS {
        return None;
    }
    let (letters, rest) = bytes.split_at(len);
    match str::from_utf8(letters) {
        Ok(text) => Some((text, rest)),
        Err(_) => None,
    }
}

/// A text of 1 to 20 letters or digits between its quotes, and what comes after it.
pub fn text_at(bytes: &[u8]) -> Option<(&str, &[u8])>
    ensures { option_map (λ text. (text.0.now, text.1.now)) result ≡ text_at bytes.now }
{
    let (text, rest) = letters_at(after(bytes, b"\"")?)?;
    Some((text, after(rest, b"\"")?))
}
