//! The calls that are measured.
ghost use Rattle.std.specs.Prelude.{◌≡◌, ◌≢◌, IfSome, IfNone};
ghost use Rattle.cg_bench.specs.declared.call.Call.{Call};
ghost use Rattle.cg_bench.specs.Fold.{word_of};

/// A call that is measured.
#[derive(Clone, Copy)]
pub enum Call {
    Then,
    Back,
    IntoSequence,
}

/// The call that a word names, where it is one.
pub fn call_of(word: &str) -> Option<Call>
    ensures some { IfSome result (λ call. word.now ≡ word_of call) }
    ensures none { IfNone result ((call : Call) → word.now ≢ word_of call) }
{
    match word {
        "then" => Some(Call::Then),
        "back" => Some(Call::Back),
        "into_sequence" => Some(Call::IntoSequence),
        _ => None,
    }
}

/// The word that names a call.
pub fn word_of(call: Call) -> &'static str
    ensures { result.now ≡ word_of call }
{
    match call {
        Call::Then => "then",
        Call::Back => "back",
        Call::IntoSequence => "into_sequence",
    }
}
