//! The parts of a list.
ghost use Rattle.std.specs.Prelude.{IfSome, IfNone, IfOk, map};
ghost use Rattle.std.specs.List.{AllZip};
ghost use Rattle.cg_words.specs.Words.{NamesNothing, IsFile};
ghost use Rattle.cg_words.specs.Reading.{parts_of, HasPart, SaysNamed, AreFiles, SaysTurn, SaysNoTurn};

use crate::named::{NamedFile, is_file, named_file};
use crate::turn::turn_of;
use cg_num::NoMemory;
use std::alloc::Global;

/// The named files of a list, or `None` where a part is none.
pub fn named_files<'a>(alloc: Global, list: &'a str) -> Result<Option<Vec<NamedFile<'a>>>, NoMemory>
    ensures some { IfOk result (λ found. IfSome found (λ named. AllZip SaysNamed (parts_of list.now) named.items)) }
    ensures none { IfOk result (λ found. IfNone found (HasPart NamesNothing list.now)) }
{
    let mut named = Vec::new(alloc);
    for part in list.split(',') {
        let Some(one) = named_file(part) else {
            return Ok(None);
        };
        named.push(one)?;
    }
    Ok(Some(named))
}

/// The files of a list, or `None` where a part is none.
pub fn files<'a>(alloc: Global, list: &'a str) -> Result<Option<Vec<&'a str>>, NoMemory>
    ensures some { IfOk result (λ found. IfSome found (λ files. AreFiles (parts_of list.now) (map (λ file. file.now) files.items))) }
    ensures none { IfOk result (λ found. IfNone found (HasPart (λ part. ¬ IsFile part) list.now)) }
{
    let mut files = Vec::new(alloc);
    for part in list.split(',') {
        if !is_file(part) {
            return Ok(None);
        }
        files.push(part)?;
    }
    Ok(Some(files))
}

/// The numbers of a list, each of one of so many sessions, or `None` where a part is none.
pub fn turns(alloc: Global, list: &str, sessions: usize) -> Result<Option<Vec<u32>>, NoMemory>
    ensures some { IfOk result (λ found. IfSome found (λ turns. AllZip (SaysTurn sessions) (parts_of list.now) turns.items)) }
    ensures none { IfOk result (λ found. IfNone found (HasPart (SaysNoTurn sessions) list.now)) }
{
    let mut turns = Vec::new(alloc);
    for part in list.split(',') {
        let Some(turn) = turn_of(part, sessions) else {
            return Ok(None);
        };
        turns.push(turn)?;
    }
    Ok(Some(turns))
}
