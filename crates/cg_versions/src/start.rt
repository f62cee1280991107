ghost use Rattle.std.specs.Prelude.{◌≡◌, ◌≢◌, ◌<◌, [], ◌∷◌, ◌++◌, length, map, All, OnOk, OnErr};
ghost use Rattle.cg_versions.specs.Plain.{start_in, AreStart};

use cg_model::{ModelTree, Name};
use cg_num::NoMemory;
use std::alloc::Global;
use std::marker::Model;

/// A model as it is at the start of a run.
#[derive(Drop)]
pub(crate) struct StartModel {
    pub name: Name,
    pub tree: ModelTree,
}

/// The models of a run, at most eight, with different names.
#[derive(Drop)]
pub struct StartModels {
    models: Vec<StartModel>,
}

impl Model for StartModels {
    ghost use Rattle.std.specs.Prelude.{List, map};
    ghost use Rattle.cg_sharing.specs.Versions as meaning;
    ghost use Rattle.cg_versions.specs.Plain.{start_in, AreStart};

    ghost Value = { List meaning.StartModel };

    ghost use Rattle.std.specs.Coded.{codes};
    ghost use Rattle.cg_model.specs.Stored.{coded_trees};

    ghost coded = { Prim.hlevel (codes, coded_trees) };

    ghost view = { λ m. map start_in m.models.items };

    ghost invariant = { λ m. AreStart (map start_in m.models.items) };
}

impl StartModels {
    /// No models. They take their memory from `alloc` as they grow.
    pub fn new(alloc: Global) -> StartModels
        ensures { result ≡ [] }
    {
        StartModels {
            models: Vec::new(alloc),
        }
    }

    /// Puts a model behind the others. Its name is new among them, and they are fewer than eight. Where it is refused
    /// for want of memory it is dropped, and they are as before.
    pub fn push(&mut self, name: Name, tree: ModelTree) -> Result<(), NoMemory>
        requires few { length self.old < 8 }
        requires fresh { All (λ model. model.name ≢ name) self.old }
        ensures ok { OnOk result (self.new ≡ self.old ++ record { name = name; chronology = tree } ∷ []) }
        ensures err { OnErr result (self.new ≡ self.old) }
    {
        self.models.push(StartModel { name, tree })?;
        Ok(())
    }

    pub(crate) fn into_models(self) -> Vec<StartModel>
        ensures models { map start_in result.items ≡ self }
        ensures start { AreStart self }
    {
        self.models
    }
}
