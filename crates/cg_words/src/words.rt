ghost use Rattle.std.specs.Prelude.{◌≡◌, IfSome, IfNone, IfOk, map, string_bytes, option_map};
ghost use Rattle.cg_curve.specs.Curves.{IsSameCurveName};
ghost use Rattle.cg_words.specs.Words.{AreNamed, AreSessions, AreTurns, MayBe, AskFor, AreWords, AreNoWords};
ghost use Rattle.cg_words.specs.Reading.{Nothing, lists_in};

use crate::cache::cache_size_or_default;
use crate::distinct::{are_curve_names_distinct, are_names_distinct};
use crate::lists::{Lists, lists_of};
use crate::named::NamedFile;
use crate::parts::{files, named_files, turns};
use crate::request::Request;
use cg_num::NoMemory;
use std::alloc::Global;

const MAX_CURVES: usize = 4;

const MAX_MODELS: usize = 8;

const MAX_SESSIONS: usize = 8;

const MAX_TURNS: usize = 10_000;

fn curves_in<'a>(alloc: Global, list: &'a str) -> Result<Option<Vec<NamedFile<'a>>>, NoMemory>
    ensures some { IfOk result (λ found. IfSome found (λ curves. AreNamed 4 IsSameCurveName list.now curves.items)) }
    ensures none { IfOk result (λ found. IfNone found (Nothing (AreNamed 4 IsSameCurveName list.now))) }
{
    let Some(curves) = named_files(alloc, list)? else {
        return Ok(None);
    };
    if curves.len() <= MAX_CURVES && are_curve_names_distinct(curves.as_slice()) {
        Ok(Some(curves))
    } else {
        Ok(None)
    }
}

fn models_in<'a>(alloc: Global, list: &'a str) -> Result<Option<Vec<NamedFile<'a>>>, NoMemory>
    ensures some { IfOk result (λ found. IfSome found (λ models. AreNamed 8 ◌≡◌ list.now models.items)) }
    ensures none { IfOk result (λ found. IfNone found (Nothing (AreNamed 8 ◌≡◌ list.now))) }
{
    let Some(models) = named_files(alloc, list)? else {
        return Ok(None);
    };
    if models.len() <= MAX_MODELS && are_names_distinct(models.as_slice()) {
        Ok(Some(models))
    } else {
        Ok(None)
    }
}

fn sessions_in<'a>(alloc: Global, list: &'a str) -> Result<Option<Vec<&'a str>>, NoMemory>
    ensures some { IfOk result (λ found. IfSome found (λ sessions. AreSessions list.now (map (λ file. file.now) sessions.items))) }
    ensures none { IfOk result (λ found. IfNone found (Nothing (AreSessions list.now))) }
{
    let Some(sessions) = files(alloc, list)? else {
        return Ok(None);
    };
    if sessions.len() <= MAX_SESSIONS {
        Ok(Some(sessions))
    } else {
        Ok(None)
    }
}

fn turns_in(alloc: Global, list: &str, sessions: usize) -> Result<Option<Vec<u32>>, NoMemory>
    ensures some { IfOk result (λ found. IfSome found (λ turns. AreTurns sessions list.now turns.items)) }
    ensures none { IfOk result (λ found. IfNone found (Nothing (AreTurns sessions list.now))) }
{
    let Some(turns) = turns(alloc, list, sessions)? else {
        return Ok(None);
    };
    if turns.len() <= MAX_TURNS {
        Ok(Some(turns))
    } else {
        Ok(None)
    }
}

fn curves_or_none<'a>(
    alloc: Global,
    list: Option<&'a str>,
) -> Result<Option<Vec<NamedFile<'a>>>, NoMemory>
    ensures some { IfOk result (λ found. IfSome found
        (λ curves. MayBe (AreNamed 4 IsSameCurveName) (option_map (λ text. text.now) list.entry) curves.items)) }
    ensures none { IfOk result (λ found. IfNone found
        (Nothing (MayBe (AreNamed 4 IsSameCurveName) (option_map (λ text. text.now) list.entry)))) }
{
    match list {
        Some(list) => curves_in(alloc, list),
        None => Ok(Some(Vec::new(alloc))),
    }
}

fn turns_or_none(
    alloc: Global,
    list: Option<&str>,
    sessions: usize,
) -> Result<Option<Vec<u32>>, NoMemory>
    ensures some { IfOk result (λ found. IfSome found
        (λ turns. MayBe (AreTurns sessions) (option_map (λ text. text.now) list.entry) turns.items)) }
    ensures none { IfOk result (λ found. IfNone found
        (Nothing (MayBe (AreTurns sessions) (option_map (λ text. text.now) list.entry)))) }
{
    match list {
        Some(list) => turns_in(alloc, list, sessions),
        None => Ok(Some(Vec::new(alloc))),
    }
}

fn request_in<'a>(alloc: Global, lists: &Lists<'a>) -> Result<Option<Request<'a>>, NoMemory>
    ensures some { IfOk result (λ found. IfSome found (AskFor (lists_in lists.now))) }
    ensures none { IfOk result (λ found. IfNone found (Nothing (AskFor (lists_in lists.now)))) }
{
    let Some(models) = models_in(alloc, lists.models)? else {
        return Ok(None);
    };
    let Some(sessions) = sessions_in(alloc, lists.sessions)? else {
        return Ok(None);
    };
    let Some(curves) = curves_or_none(alloc, lists.curves)? else {
        return Ok(None);
    };
    let Some(turns) = turns_or_none(alloc, lists.turns, sessions.len())? else {
        return Ok(None);
    };
    let Some(cache) = cache_size_or_default(lists.cache) else {
        return Ok(None);
    };
    Ok(Some(Request {
        curves,
        models,
        sessions,
        turns,
        cache,
    }))
}

/// What the words ask for, or `None` exactly where they ask for nothing. `NoMemory` tells nothing of the words.
pub fn request_of<'a>(alloc: Global, words: &'a [String]) -> Result<Option<Request<'a>>, NoMemory>
    ensures some { IfOk result (λ found. IfSome found (AreWords (map string_bytes words.now))) }
    ensures none { IfOk result (λ found. IfNone found (AreNoWords (map string_bytes words.now))) }
{
    match lists_of(words) {
        Some(lists) => request_in(alloc, &lists),
        None => Ok(None),
    }
}
