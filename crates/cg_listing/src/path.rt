//! Paths from the root of a model to its events.
ghost use Rattle.std.specs.Prelude.{◌≡◌, ◌&&◌, not, nat_lt, ◌++◌, ◌∷◌, [], map, IfOk};
ghost use Rattle.std.specs.List.{list_any};
ghost use Rattle.cg_meaning.specs.Order.{is_before, is_after, is_sequence, precedes};
ghost use Rattle.cg_model.specs.Group.{kind_in};
ghost use Rattle.cg_listing.specs.Step.{step_of};

use cg_model::GroupKind;
use cg_num::NoMemory;
use std::alloc::Global;
use std::marker::Model;

/// A step down: from a group of this kind to its member at this place.
#[derive(Clone, Copy, Debug, PartialEq, Eq)]
pub(crate) struct Step {
    pub kind: GroupKind,
    pub place: usize,
}

/// The steps from the root to a node.
#[derive(Drop)]
pub(crate) struct Path {
    steps: Vec<Step>,
}

impl Model for Path {
    ghost use Rattle.std.specs.Prelude.{List, map};
    ghost use Rattle.cg_meaning.specs.Tree.{Step};
    ghost use Rattle.cg_listing.specs.Step.{step_of};

    ghost Value = { List Step };

    ghost view = { λ path. map step_of path.steps.items };
}

impl Path {
    /// The path of the root itself.
    pub(crate) fn new(alloc: Global) -> Path
        ensures { result ≡ [] }
    {
        Path {
            steps: Vec::new(alloc),
        }
    }

    pub(crate) fn copy(&self, alloc: Global) -> Result<Path, NoMemory>
        ensures { IfOk result (λ path. path ≡ self.now) }
    {
        Ok(Path {
            steps: self.steps.to_vec(alloc)?,
        })
    }

    /// One step further.
    pub(crate) fn with(&self, alloc: Global, step: Step) -> Result<Path, NoMemory>
        ensures { IfOk result (λ path. path ≡ self.now ++ step_of step ∷ []) }
    {
        let mut steps = self.steps.to_vec(alloc)?;
        steps.push(step)?;
        Ok(Path { steps })
    }

    /// Whether the event at this path must not be later than the one at the other.
    pub(crate) fn precedes(&self, other: &Path) -> bool
        ensures { result ≡ precedes self.now other.now }
    {
        precedes(self.steps.as_slice(), other.steps.as_slice())
    }
}

// from where both paths are the same so far
fn precedes(p: &[Step], q: &[Step]) -> bool
    ensures { result ≡ precedes (map step_of p.now) (map step_of q.now) }
{
    match (p.split_first(), q.split_first()) {
        (Some((s, p)), Some((t, q))) => {
            if s.place == t.place {
                return precedes(p, q);
            }
            is_bound(s, p, t, q)
        }
        _ => false,
    }
}

fn is_sequence(kind: GroupKind) -> bool
    ensures { result ≡ is_sequence (kind_in kind) }
{
    matches!(kind, GroupKind::Sequence)
}

fn is_after(kind: GroupKind) -> bool
    ensures { result ≡ is_after (kind_in kind) }
{
    matches!(kind, GroupKind::After)
}

fn is_before(kind: GroupKind) -> bool
    ensures { result ≡ is_before (kind_in kind) }
{
    matches!(kind, GroupKind::Before)
}

// whether the event behind the first step must not be later than the one behind the second, where these part
fn is_bound(s: &Step, p: &[Step], t: &Step, q: &[Step]) -> bool
    ensures { result ≡ (is_sequence (kind_in s.now.kind) && nat_lt s.now.place t.now.place
        && not (list_any (λ step. is_before (kind_in step.kind)) p.now) && not (list_any (λ step. is_after (kind_in step.kind)) q.now)) }
{
    is_sequence(s.kind) && s.place < t.place && !passes_before(p) && !passes_after(q)
}

fn passes_before(path: &[Step]) -> bool
    ensures { result ≡ list_any (λ step. is_before (kind_in step.kind)) path.now }
{
    path.iter().any(|step| is_before(step.kind))
}

fn passes_after(path: &[Step]) -> bool
    ensures { result ≡ list_any (λ step. is_after (kind_in step.kind)) path.now }
{
    path.iter().any(|step| is_after(step.kind))
}
