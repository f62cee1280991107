ghost use Rattle.std.specs.Prelude.{◌≡◌, IfSome, IfNone, map, string_bytes, option_map};
ghost use Rattle.cg_words.specs.Words.{AreLists};
ghost use Rattle.cg_words.specs.Reading.{is_option, are_options, list_of, HasNoLists, lists_in};

/// The lists behind the options, of which that of the cache is one number. Three of them may be left out.
#[derive(Drop)]
pub struct Lists<'a> {
    pub curves: Option<&'a str>,
    pub models: &'a str,
    pub sessions: &'a str,
    pub turns: Option<&'a str>,
    pub cache: Option<&'a str>,
}

fn is_option(word: &str) -> bool
    ensures { result ≡ is_option word.now }
{
    word == "--curves"
        || word == "--models"
        || word == "--sessions"
        || word == "--turns"
        || word == "--cache"
}

/// The list behind the first such option.
fn list_of<'a>(option: &str, words: &'a [String]) -> Option<&'a str>
    ensures { option_map (λ list. list.now) result ≡ list_of option.now (map string_bytes words.now) }
{
    let mut rest = words;
    while let [word, list, others @ ..] = rest {
        if word.as_str() == option {
            return Some(list.as_str());
        }
        rest = others;
    }
    None
}

/// Whether the words are options, each with a word behind it and each at most once.
fn are_options(words: &[String]) -> bool
    ensures { result ≡ are_options (map string_bytes words.now) }
{
    let mut rest = words;
    while let [word, _, others @ ..] = rest {
        let option = word.as_str();
        if !is_option(option) || list_of(option, others).is_some() {
            return false;
        }
        rest = others;
    }
    rest.is_empty()
}

/// The lists of the words, where they are the command and its options.
pub fn lists_of(words: &[String]) -> Option<Lists<'_>>
    ensures some { IfSome result (λ lists. AreLists (map string_bytes words.now) (lists_in lists)) }
    ensures none { IfNone result (HasNoLists (map string_bytes words.now)) }
{
    let [command, options @ ..] = words else {
        return None;
    };
    if command.as_str() != "alone" || !are_options(options) {
        return None;
    }
    Some(Lists {
        curves: list_of("--curves", options),
        models: list_of("--models", options)?,
        sessions: list_of("--sessions", options)?,
        turns: list_of("--turns", options),
        cache: list_of("--cache", options),
    })
}
