//! What versions reply to a question, and what a cache replies to a claim.
ghost use Rattle.std.specs.Prelude.{◌≡◌, ℕ, List, option_map};
ghost use Rattle.cg_cache.specs.Claims.{Hands, answered as claim_answered};
ghost use Rattle.cg_cache.specs.Deeds as deeds;
ghost use Rattle.cg_sharing.specs.Journal.{Head, Take, Undo, Change, Commit, Do, Told};
ghost use Rattle.cg_edit.specs.Plain.{edit_in};
ghost use Rattle.cg_book.specs.Plain.{Seen, answered, Carries, IsTold, IsOfVersions};
ghost use Rattle.cg_book.specs.Replies.{question_in, MayAsk, Replies, HasTree};

use crate::event::Reply;
use crate::question::Question;
use cg_cache::{Claimed, Payload};
use cg_edit::{Edit, EditFault};
use cg_model::Name;
use cg_num::NoMemory;
use cg_versions::{CommitFault, TakeFault, Versions};
use std::alloc::Global;

impl Question {
    // the reply that versions give; where it says so they are others afterwards
    pub(crate) fn reply<P>(&self, alloc: Global, versions: &mut Versions) -> Reply<P>
        requires { MayAsk versions.old (question_in self.now) }
        ensures step { Replies versions.old (question_in self.now) (answered result) versions.new }
        ensures carries { HasTree versions.new result }
        ensures versions { IsOfVersions result }
        ensures told { IsTold result }
    {
        match self {
            Question::Head(name) => head(versions, name),
            Question::Take(version) => take(versions, *version),
            Question::Undo(version) => undo(versions, *version),
            Question::Change(version, edit) => change(alloc, versions, *version, edit),
            Question::Commit(name, base, version) => commit(versions, name, *base, *version),
        }
    }
}

fn head<P>(versions: &Versions, name: &Name) -> Reply<P>
    ensures step { Replies versions.now (Head name.now) (answered result) versions.now }
    ensures carries { HasTree versions.now result }
    ensures versions { IsOfVersions result }
    ensures told { IsTold result }
{
    match versions.head_of(name) {
        Ok(Some((version, tree))) => Reply::At(version, tree),
        Ok(None) => Reply::NoModel,
        Err(NoMemory) => Reply::NoMemory,
    }
}

fn take<P>(versions: &Versions, version: u32) -> Reply<P>
    ensures step { Replies versions.now (Take version) (answered result) versions.now }
    ensures carries { HasTree versions.now result }
    ensures versions { IsOfVersions result }
    ensures told { IsTold result }
{
    match versions.take(version) {
        Ok(tree) => Reply::At(version, tree),
        Err(TakeFault::NoVersion(count)) => Reply::NoVersion(count),
        Err(TakeFault::NoMemory) => Reply::NoMemory,
    }
}

fn undo<P>(versions: &Versions, version: u32) -> Reply<P>
    requires { MayAsk versions.now (Undo version) }
    ensures step { Replies versions.now (Undo version) (answered result) versions.now }
    ensures carries { HasTree versions.now result }
    ensures versions { IsOfVersions result }
    ensures told { IsTold result }
{
    match versions.back(version) {
        Ok(Some((parent, tree))) => Reply::At(parent, tree),
        Ok(None) => Reply::NoParent,
        Err(NoMemory) => Reply::NoMemory,
    }
}

fn change<P>(alloc: Global, versions: &mut Versions, version: u32, edit: &Edit) -> Reply<P>
    requires { MayAsk versions.old (Change version (edit_in edit.now)) }
    ensures step { Replies versions.old (Change version (edit_in edit.now)) (answered result) versions.new }
    ensures carries { HasTree versions.new result }
    ensures versions { IsOfVersions result }
    ensures told { IsTold result }
{
    match versions.change(alloc, version, edit) {
        Ok((made, tree)) => Reply::Made(made, tree),
        Err(EditFault::NoMemory) => Reply::NoMemory,
        Err(fault) => Reply::Refused(fault),
    }
}

fn commit<P>(versions: &mut Versions, name: &Name, base: Option<u32>, version: u32) -> Reply<P>
    requires { MayAsk versions.old (Commit name.now base version) }
    ensures step { Replies versions.old (Commit name.now base version) (answered result) versions.new }
    ensures carries { HasTree versions.new result }
    ensures versions { IsOfVersions result }
    ensures told { IsTold result }
{
    match versions.commit(name, base, version) {
        Ok(()) => Reply::Committed(version),
        Err(CommitFault::NoModel) => Reply::NoModel,
        Err(CommitFault::Moved(head)) => Reply::Moved(head),
    }
}

// the reply to a claim that a cache answers so
pub(crate) fn reply_to_claim<P: Payload>(claimed: Claimed<P>) -> Reply<P>
    ensures answer { answered result ≡ option_map (λ answer. Told (deeds.Claimed answer)) (claim_answered claimed) }
    ensures carries { (book : Seen P.Origin) (seat : ℕ) (code : List ℕ) →
        Hands P.code_of P.origin_of book.origin seat code claimed →
        Carries P.code_of P.origin_of book seat (Do (deeds.Claim code)) result }
    ensures told { IsTold result }
{
    match claimed {
        Claimed::Hit(payload) => Reply::Hit(payload),
        Claimed::Mine(ticket) => Reply::Mine(ticket),
        Claimed::Busy(owner) => Reply::Busy(owner),
        Claimed::NoRoom => Reply::NoRoom,
        Claimed::NoMemory => Reply::NoMemory,
    }
}
