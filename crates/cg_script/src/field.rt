//! What stands between blanks.
ghost use Rattle.std.specs.Prelude.{◌≡◌, ◌≤◌, length, option_map};
ghost use Rattle.std.specs.List.{prefix_len};
ghost use Rattle.cg_script.specs.Lines.{is_blank};
ghost use Rattle.cg_script.specs.Words.{in_word, behind_blanks, first_word, after_word, behind_blank};
ghost use Rattle.cg_script.specs.Words.{fields, has_none, only, both};

use crate::lines::{are_blanks, is_blank};

fn blanks_len(bytes: &[u8]) -> usize
    ensures value { result ≡ prefix_len is_blank bytes.now }
    ensures within { result ≤ length bytes.now }
{
    bytes.iter().take_while(|c| is_blank(**c)).count()
}

fn word_len(bytes: &[u8]) -> usize
    ensures value { result ≡ prefix_len in_word bytes.now }
    ensures within { result ≤ length bytes.now }
{
    bytes.iter().take_while(|c| !is_blank(**c)).count()
}

/// What stands behind the blanks in front.
pub(crate) fn behind_blanks(bytes: &[u8]) -> &[u8]
    ensures value { result.now ≡ behind_blanks bytes.now }
    ensures within { length result.now ≤ length bytes.now }
{
    let (_, from) = bytes.split_at(blanks_len(bytes));
    from
}

/// What stands behind blanks in front, at least one.
pub(crate) fn behind_blank(bytes: &[u8]) -> Option<&[u8]>
    ensures { option_map (λ rest. rest.now) result ≡ behind_blank bytes.now }
{
    match bytes {
        [first, rest @ ..] if is_blank(*first) => Some(behind_blanks(rest)),
        _ => None,
    }
}

/// The first word, and what stands behind it.
#[tactic(auto, unfolding(crate::specs::Words::first_word, crate::specs::Words::after_word))]
pub(crate) fn next_word(bytes: &[u8]) -> (&[u8], &[u8])
    ensures word { result.0.now ≡ first_word bytes.now }
    ensures rest { result.1.now ≡ after_word bytes.now }
    ensures within { length result.1.now ≤ length bytes.now }
{
    let from = behind_blanks(bytes);
    from.split_at(word_len(from))
}

/// Whether there is no field.
pub(crate) fn has_none(bytes: &[u8]) -> bool
    ensures { result ≡ has_none (fields bytes.now) }
{
    are_blanks(bytes)
}

/// The only field.
pub(crate) fn only_field(bytes: &[u8]) -> Option<&[u8]>
    ensures { option_map (λ field. field.now) result ≡ only (fields bytes.now) }
{
    let (field, rest) = next_word(bytes);
    if field.is_empty() || !are_blanks(rest) {
        return None;
    }
    Some(field)
}

/// Both fields, where there are two.
pub(crate) fn both_fields(bytes: &[u8]) -> Option<(&[u8], &[u8])>
    ensures { option_map (λ pair. (pair.0.now, pair.1.now)) result ≡ both (fields bytes.now) }
{
    let (first, rest) = next_word(bytes);
    if first.is_empty() {
        return None;
    }
    let second = only_field(rest)?;
    Some((first, second))
}
