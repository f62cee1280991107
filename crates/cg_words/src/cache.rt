ghost use Rattle.std.specs.Prelude.{IfSome, IfNone, option_map};
ghost use Rattle.cg_words.specs.Words.{IsCacheSize, MayBeCacheSize};
ghost use Rattle.cg_words.specs.Reading.{Nothing};

use crate::numeral::is_numeral;
use cg_text::number_of;

const MAX_SIZE: u32 = 256;

const DEFAULT_SIZE: u16 = 64;

/// The size that the text says: how many results the cache may keep.
fn cache_size_of(text: &str) -> Option<u16>
    ensures some { IfSome result (IsCacheSize text.now) }
    ensures none { IfNone result (Nothing (IsCacheSize text.now)) }
{
    if !is_numeral(text) {
        return None;
    }
    let size = number_of(text.as_bytes());
    if size <= MAX_SIZE {
        Some(size as u16)
    } else {
        None
    }
}

/// The size that the text says, or 64 without one.
pub fn cache_size_or_default(text: Option<&str>) -> Option<u16>
    ensures some { IfSome result (MayBeCacheSize (option_map (λ text. text.now) text.entry)) }
    ensures none { IfNone result (Nothing (MayBeCacheSize (option_map (λ text. text.now) text.entry))) }
{
    match text {
        Some(text) => cache_size_of(text),
        None => Some(DEFAULT_SIZE),
    }
}
