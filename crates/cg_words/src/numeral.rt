ghost use Rattle.std.specs.Prelude.{◌↔◌, IsTrue};
ghost use Rattle.cg_words.specs.Words.{IsNumeral};

const MAX_DIGITS: usize = 7;

/// Whether the text is one to seven digits.
pub fn is_numeral(text: &str) -> bool
    ensures { IsTrue result ↔ IsNumeral text.now }
{
    !text.is_empty()
        && text.len() <= MAX_DIGITS
        && text.as_bytes().iter().all(|byte| byte.is_ascii_digit())
}
