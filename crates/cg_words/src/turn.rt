ghost use Rattle.std.specs.Prelude.{IfSome, IfNone};
ghost use Rattle.cg_words.specs.Reading.{SaysTurn, SaysNoTurn};

use crate::numeral::is_numeral;
use cg_text::number_of;

/// The session that the text says: the number of one of so many sessions.
pub fn turn_of(text: &str, sessions: usize) -> Option<u32>
    ensures some { IfSome result (SaysTurn sessions text.now) }
    ensures none { IfNone result (SaysNoTurn sessions text.now) }
{
    if !is_numeral(text) {
        return None;
    }
    let turn = number_of(text.as_bytes());
    if turn >= 1 && turn as usize <= sessions {
        Some(turn)
    } else {
        None
    }
}
