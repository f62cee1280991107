ghost use Rattle.std.specs.Prelude.{◌≡◌, ◌≢◌, ◌↔◌, ◌<◌, ◌≤◌, ℕ, IsOk, IfOk, IfErr, OnErr, OnOk, IfSome, option_map, length, ◌++◌, ◌∷◌, []};
ghost use Rattle.std.specs.Arc.{arc_value};
ghost use Rattle.cg_meaning.specs.Tree.{Trees};
ghost use Rattle.cg_sharing.specs.Edit.{result_of};
ghost use Rattle.cg_sharing.specs.Versions.{start_of, count_of, head_of, parent_of, chronology_of, with_head, with_version};
ghost use Rattle.cg_sharing.specs.Journal.{IsInOrder};
ghost use Rattle.cg_edit.specs.Plain.{edit_in, fault_in, IsRefusedChange};
ghost use Rattle.cg_versions.specs.Plain.{with_model};

use crate::fault::{CommitFault, TakeFault};
use crate::start::{StartModel, StartModels};
use cg_edit::{Edit, EditFault, apply};
use cg_model::{ModelTree, Name};
use cg_num::NoMemory;
use indexmap::IndexMap;
use std::alloc::{AllocError, Global};
use std::marker::Model;
use std::sync::Arc;

const MOST: usize = 0xffff_ffff;

#[derive(Drop)]
struct Version {
    parent: Option<u32>,
    tree: Arc<ModelTree>,
}

/// All versions by their numbers, and the heads by their names.
#[derive(Drop)]
pub struct Versions {
    versions: Vec<Version>,
    heads: IndexMap<String, u32>,
}

impl Model for Versions {
    ghost use Rattle.std.specs.Prelude.{map};
    ghost use Rattle.cg_sharing.specs.Versions.{State};
    ghost use Rattle.cg_versions.specs.Plain.{version_in, head_in, AreVersions};

    ghost Value = { State };

    ghost use Rattle.std.specs.Coded.{codes};
    ghost use Rattle.cg_model.specs.Stored.{coded_trees};

    ghost coded = { Prim.hlevel (codes, coded_trees) };

    ghost view = { λ v. record { versions = map version_in v.versions.items; heads = map head_in v.heads.entries } };

    ghost invariant = { λ v. AreVersions (map version_in v.versions.items) (map head_in v.heads.entries) };
}

impl Versions {
    /// Each model is a version without a parent, and the head of its name.
    pub fn new(alloc: Global, models: StartModels) -> Result<Versions, NoMemory>
        ensures { IfOk result (λ versions. versions ≡ start_of models) }
    {
        let mut versions = Versions {
            versions: Vec::new(alloc),
            heads: IndexMap::new(alloc),
        };
        for StartModel { name, tree } in models.into_models() {
            versions.begin(alloc, &name, tree)?;
        }
        Ok(versions)
    }

    // A further version without a parent, for which a new name stands.
    fn begin(&mut self, alloc: Global, name: &Name, tree: ModelTree) -> Result<(), NoMemory>
        requires fresh { head_of name.now self.old.heads ≡ None }
        requires few { count_of self.old < 8 }
        ensures { OnOk result (self.new ≡ with_model self.old name.now tree) }
    {
        let number = self.versions.len() as u32;
        let name = String::from_str(alloc, name.text())?;
        let tree = Arc::new(alloc, tree)?;
        self.versions.push(Version { parent: None, tree })?;
        self.heads.insert(name, number)?;
        Ok(())
    }

    /// How many versions there are. Takes no memory.
    pub fn count(&self) -> u32
        ensures { result ≡ count_of self.now }
    {
        self.versions.len() as u32
    }

    /// The version that a name stands for, with its number. `None` comes exactly where no head has the name.
    pub fn head_of(&self, name: &Name) -> Result<Option<(u32, Arc<ModelTree>)>, NoMemory>
        ensures head { IfOk result (λ head. option_map (λ h. h.0) head ≡ head_of name.now self.now.heads) }
        ensures tree { IfOk result (λ head. IfSome head (λ h. arc_value h.1 ≡ chronology_of self.now h.0)) }
    {
        match self.head(name) {
            None => Ok(None),
            Some(number) => Ok(Some((number, self.tree(number)?))),
        }
    }

    /// The version of a number. `NoVersion` comes exactly where the number isn't below the number of versions.
    pub fn take(&self, number: u32) -> Result<Arc<ModelTree>, TakeFault>
        ensures tree { IfOk result (λ tree. (number < count_of self.now)
            × (arc_value tree ≡ chronology_of self.now number)) }
        ensures unknown { (count : ℕ) → (result ≡ Err (TakeFault.NoVersion count))
            ↔ ((count ≡ count_of self.now) × (count ≤ number)) }
    {
        if number >= self.count() {
            return Err(TakeFault::NoVersion(self.count()));
        }
        Ok(self.tree(number)?)
    }

    /// The parent of a version, with its number. `None` comes exactly where the version has none.
    pub fn back(&self, number: u32) -> Result<Option<(u32, Arc<ModelTree>)>, NoMemory>
        requires { number < count_of self.now }
        ensures parent { IfOk result (λ parent. option_map (λ p. p.0) parent ≡ parent_of self.now number) }
        ensures tree { IfOk result (λ parent. IfSome parent (λ p. arc_value p.1 ≡ chronology_of self.now p.0)) }
    {
        match self.parent(number) {
            None => Ok(None),
            Some(parent) => Ok(Some((parent, self.tree(parent)?))),
        }
    }

    /// Makes a further version by a change of one, or tells why not; then all is as before. Want of memory is also
    /// told where there would be 2^32 versions.
    pub fn change(
        &mut self,
        alloc: Global,
        number: u32,
        edit: &Edit,
    ) -> Result<(u32, Arc<ModelTree>), EditFault>
        requires known { number < count_of self.old }
        requires in_order { IsInOrder (edit_in edit.now) }
        ensures made { IfOk result (λ made. (made.0 ≡ count_of self.old)
            × ((top : Trees) × (result_of (edit_in edit.now) (chronology_of self.old number).top ≡ Ok top)
            × (self.new ≡ with_version number top self.old))) }
        ensures tree { IfOk result (λ made. arc_value made.1 ≡ chronology_of self.new made.0) }
        ensures refused { IfErr result (λ fault.
            IsRefusedChange (chronology_of self.old number) (edit_in edit.now) (fault_in fault)) }
        ensures err { OnErr result (self.new ≡ self.old) }
    {
        let changed = apply(alloc, self.tree_at(number), edit)?;
        match self.append(alloc, number, changed) {
            Ok(made) => Ok(made),
            Err(NoMemory) => Err(EditFault::NoMemory),
        }
    }

    // A further version with this parent.
    fn append(
        &mut self,
        alloc: Global,
        parent: u32,
        tree: ModelTree,
    ) -> Result<(u32, Arc<ModelTree>), NoMemory>
        requires { parent < count_of self.old }
        ensures made { IfOk result (λ made. (made.0 ≡ count_of self.old) × (arc_value made.1 ≡ tree)) }
        ensures ok { OnOk result (self.new ≡ record self.old {
          versions = self.old.versions ++ record { parent = Some parent; chronology = tree } ∷ [];
        }) }
        ensures err { OnErr result (self.new ≡ self.old) }
    {
        let count = self.versions.len();
        if count >= MOST {
            return Err(NoMemory);
        }
        let tree = Arc::new(alloc, tree)?;
        let kept = Arc::try_clone(&tree)?;
        self.versions.push(Version {
            parent: Some(parent),
            tree: kept,
        })?;
        Ok((count as u32, tree))
    }

    /// Lets a name stand for a version, where it stands for the base now. Otherwise all is as before. `NoModel` comes
    /// exactly where no head has the name, and `Moved` exactly where the head isn't the base. Takes no memory.
    pub fn commit(&mut self, name: &Name, base: Option<u32>, number: u32) -> Result<(), CommitFault>
        requires { number < count_of self.old }
        ensures set { OnOk result (self.new ≡ record self.old { heads = with_head name.now number self.old.heads }) }
        ensures base { IsOk result
            ↔ ((head : ℕ) × (head_of name.now self.old.heads ≡ Some head) × (base ≡ Some head)) }
        ensures no_model { (result ≡ Err CommitFault.NoModel) ↔ (head_of name.now self.old.heads ≡ None) }
        ensures moved { (head : ℕ) → (result ≡ Err (CommitFault.Moved head))
            ↔ ((head_of name.now self.old.heads ≡ Some head) × (base ≢ Some head)) }
        ensures err { OnErr result (self.new ≡ self.old) }
    {
        let Some(head) = self.head(name) else {
            return Err(CommitFault::NoModel);
        };
        if base != Some(head) {
            return Err(CommitFault::Moved(head));
        }
        self.set_head(name, number);
        Ok(())
    }

    // The number of the version that a name stands for.
    fn head(&self, name: &Name) -> Option<u32>
        ensures head { result ≡ head_of name.now self.now.heads }
        ensures known { IfSome result (λ number. number < count_of self.now) }
    {
        match self.heads.get(name.text()) {
            None => None,
            Some(head) => Some(*head),
        }
    }

    // Lets a name that has a head stand for a version.
    fn set_head(&mut self, name: &Name, number: u32)
        requires { number < count_of self.old }
        ensures { self.new ≡ record self.old { heads = with_head name.now number self.old.heads } }
    {
        let Some(head) = self.heads.get_mut(name.text()) else {
            return;
        };
        *head = number;
    }

    // The number of the parent of a version.
    fn parent(&self, number: u32) -> Option<u32>
        requires { number < count_of self.now }
        ensures parent { result ≡ parent_of self.now number }
        ensures known { IfSome result (λ parent. parent < count_of self.now) }
    {
        self.versions[number as usize].parent
    }

    // The tree of a version.
    fn tree_at(&self, number: u32) -> &ModelTree
        requires { number < count_of self.now }
        ensures { result.now ≡ chronology_of self.now number }
    {
        &self.versions[number as usize].tree
    }

    // The same, to be kept.
    fn tree(&self, number: u32) -> Result<Arc<ModelTree>, AllocError>
        requires { number < count_of self.now }
        ensures { IfOk result (λ tree. arc_value tree ≡ chronology_of self.now number) }
    {
        Arc::try_clone(&self.versions[number as usize].tree)
    }
}
