//! The words of commands.
ghost use Rattle.std.specs.Prelude.{◌≡◌};
ghost use Rattle.cg_script.specs.Words.{word_of, prints};

/// The word of a command.
#[derive(Clone, Copy, Debug, PartialEq, Eq)]
pub(crate) enum Word {
    Grid,
    Open,
    Take,
    Undo,
    Set,
    Add,
    Insert,
    Drop,
    Rename,
    Commit,
    Print,
    Ranges,
    Model,
    Work,
}

/// The command that has a word. Words are compared exactly.
#[tactic(auto, unfolding(crate::specs::Words::word_of))]
pub(crate) fn word_of(word: &[u8]) -> Option<Word>
    ensures { result ≡ word_of word.now }
{
    if word == b"grid".as_slice() {
        Some(Word::Grid)
    } else if word == b"open".as_slice() {
        Some(Word::Open)
    } else if word == b"take".as_slice() {
        Some(Word::Take)
    } else if word == b"undo".as_slice() {
        Some(Word::Undo)
    } else if word == b"set".as_slice() {
        Some(Word::Set)
    } else if word == b"add".as_slice() {
        Some(Word::Add)
    } else if word == b"insert".as_slice() {
        Some(Word::Insert)
    } else if word == b"drop".as_slice() {
        Some(Word::Drop)
    } else if word == b"rename".as_slice() {
        Some(Word::Rename)
    } else if word == b"commit".as_slice() {
        Some(Word::Commit)
    } else if word == b"print".as_slice() {
        Some(Word::Print)
    } else if word == b"ranges".as_slice() {
        Some(Word::Ranges)
    } else if word == b"model".as_slice() {
        Some(Word::Model)
    } else if word == b"work".as_slice() {
        Some(Word::Work)
    } else {
        None
    }
}

/// Whether the word is that of a command which prints.
pub(crate) fn prints(word: Option<Word>) -> bool
    ensures { result ≡ prints word }
{
    matches!(word, Some(Word::Print | Word::Ranges))
}
