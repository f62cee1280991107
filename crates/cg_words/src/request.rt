ghost use Rattle.std.specs.Prelude.{◌≡◌, ◌≢◌, ◌<◌, ◌≤◌, length, map, All, AllPairs};
ghost use Rattle.cg_curve.specs.Curves.{IsSameCurveName};
ghost use Rattle.cg_words.specs.Words.{IsFile, IsTurn, IsRequest};

use crate::named::NamedFile;
use std::marker::Model;

/// What the words ask for: up to four curves, up to eight models, up to eight session scripts, whose turn it is, and
/// how many results the cache may keep.
#[derive(Drop)]
pub struct Request<'a> {
    pub(crate) curves: Vec<NamedFile<'a>>,
    pub(crate) models: Vec<NamedFile<'a>>,
    pub(crate) sessions: Vec<&'a str>,
    pub(crate) turns: Vec<u32>,
    pub(crate) cache: u16,
}

impl<'a> Model for Request<'a> {
    ghost use Rattle.std.specs.Prelude.{map};
    ghost use Rattle.cg_words.specs.Words as words;

    ghost Value = { words.Request };

    ghost view = { λ r. record {
      curves = r.curves.items;
      models = r.models.items;
      sessions = map (λ file. file.now) r.sessions.items;
      turns = r.turns.items;
      cache = r.cache;
    } };

    ghost invariant = { λ r. words.IsRequest (record {
      curves = r.curves.items;
      models = r.models.items;
      sessions = map (λ file. file.now) r.sessions.items;
      turns = r.turns.items;
      cache = r.cache;
    }) };
}

impl<'a> Request<'a> {
    /// The curves with their files. None of them where the option is left out.
    pub fn curves(&self) -> &[NamedFile<'a>]
        ensures curves { result.now ≡ self.now.curves }
        ensures few { length result.now ≤ 4 }
        ensures distinct { AllPairs (λ a b. ¬ IsSameCurveName a.name b.name) result.now }
    {
        self.curves.as_slice()
    }

    /// The models with their files.
    pub fn models(&self) -> &[NamedFile<'a>]
        ensures models { result.now ≡ self.now.models }
        ensures some { 0 < length result.now }
        ensures few { length result.now ≤ 8 }
        ensures distinct { AllPairs (λ a b. a.name ≢ b.name) result.now }
    {
        self.models.as_slice()
    }

    /// The files of the session scripts.
    pub fn sessions(&self) -> &[&'a str]
        ensures sessions { map (λ file. file.now) result.now ≡ self.now.sessions }
        ensures some { 0 < length result.now }
        ensures few { length result.now ≤ 8 }
        ensures files { All (λ file. IsFile file.now) result.now }
    {
        self.sessions.as_slice()
    }

    /// The numbers of the sessions, counted from 1, in the order of their turns. None where the option is left out.
    pub fn turns(&self) -> &[u32]
        ensures turns { result.now ≡ self.now.turns }
        ensures few { length result.now ≤ 10000 }
        ensures known { All (IsTurn (length self.now.sessions)) result.now }
    {
        self.turns.as_slice()
    }

    /// How many results the cache of the sessions may keep. 64 where the option is left out.
    pub fn cache(&self) -> u16
        ensures cache { result ≡ self.now.cache }
        ensures few { result ≤ 256 }
    {
        self.cache
    }
}
