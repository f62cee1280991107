//! The fields of codes: years, grids, datings and nodes.
ghost use Rattle.std.specs.Prelude.{◌≡◌, ◌+◌, ◌≤◌, ◌++◌, All, OnOk};
ghost use Rattle.cg_meaning.specs.Tree.{count, count_all, datings_of};
ghost use Rattle.cg_model.specs.Dating.{dating_of};
ghost use Rattle.cg_model.specs.Group.{kind_in};
ghost use Rattle.cg_model.specs.Limits.{groups_of, groups_in, IsInRange, AreInRange};
ghost use Rattle.cg_model.specs.Node.{tree_of, trees_of};
ghost use Rattle.cg_code.specs.Code.{in_two, in_four, year_bytes, dating_bytes, kind_bytes, members_in};
ghost use Rattle.cg_code.specs.Code.{tree_bytes, trees_bytes, grid_bytes};

use crate::code::Code;
use cg_model::{Dating, Grid, GroupKind, Members, Node, View};
use cg_num::{NoMemory, Year};

impl Code {
    pub(crate) fn push_two(&mut self, number: u16) -> Result<(), NoMemory>
        ensures { OnOk result (self.new ≡ self.old ++ in_two number) }
    {
        self.push(&number.to_be_bytes())
    }

    fn push_four(&mut self, number: u32) -> Result<(), NoMemory>
        ensures { OnOk result (self.new ≡ self.old ++ in_four number) }
    {
        self.push(&number.to_be_bytes())
    }

    fn push_year(&mut self, year: Year) -> Result<(), NoMemory>
        ensures { OnOk result (self.new ≡ self.old ++ year_bytes year) }
    {
        self.push_two((year.bp() + 1_000).unsigned_abs() as u16)
    }

    /// Puts the years of a grid behind the bytes so far, the older first.
    pub(crate) fn push_grid(&mut self, grid: &Grid) -> Result<(), NoMemory>
        ensures { OnOk result (self.new ≡ self.old ++ grid_bytes grid.now) }
    {
        let youngest = grid.cells() - 1;
        self.push_year(grid.year(0))?;
        self.push_year(grid.year(youngest))
    }

    /// Puts a dating behind the bytes so far.
    pub(crate) fn push_dating(&mut self, dating: &Dating) -> Result<(), NoMemory>
        requires { IsInRange (dating_of dating.now) }
        ensures { OnOk result (self.new ≡ self.old ++ dating_bytes (dating_of dating.now)) }
    {
        match dating {
            Dating::Free => self.push(b"D"),
            Dating::Exact(year) => {
                self.push(b"X")?;
                self.push_year(*year)
            }
            Dating::Normal(year, error) => {
                self.push(b"N")?;
                self.push_year(*year)?;
                self.push_four(error.thousandths().unsigned_abs() as u32)
            }
            Dating::Carbon(age, error) => {
                self.push(b"C")?;
                self.push_four((age.thousandths() + 2_000_000).unsigned_abs() as u32)?;
                self.push_four(error.thousandths().unsigned_abs() as u32)
            }
        }
    }

    pub(crate) fn push_kind(&mut self, kind: GroupKind) -> Result<(), NoMemory>
        ensures { OnOk result (self.new ≡ self.old ++ kind_bytes (kind_in kind)) }
    {
        match kind {
            GroupKind::Sequence => self.push(b"S"),
            GroupKind::Phase => self.push(b"P"),
            GroupKind::After => self.push(b"A"),
            GroupKind::Before => self.push(b"F"),
        }
    }

    /// Puts a node behind the bytes so far.
    #[cycle(nodes)]
    pub(crate) fn push_node(&mut self, node: &Node) -> Result<(), NoMemory>
        requires few { count (tree_of node.now) + groups_of (tree_of node.now) ≤ 65535 }
        requires ranged { All IsInRange (datings_of (tree_of node.now)) }
        ensures { OnOk result (self.new ≡ self.old ++ tree_bytes (tree_of node.now)) }
    {
        match node.view() {
            View::Leaf(_, dating) => self.push_dating(dating),
            View::Boundary(_) => self.push(b"B"),
            View::Group(kind, _, members) => {
                self.push_kind(kind)?;
                self.push_members(members)
            }
        }
    }

    /// Puts the number of members, and the members, behind the bytes so far.
    #[cycle(nodes)]
    pub(crate) fn push_members(&mut self, members: &Members) -> Result<(), NoMemory>
        requires few { count_all (trees_of members.now) + groups_in (trees_of members.now) ≤ 65535 }
        requires ranged { AreInRange (trees_of members.now) }
        ensures { OnOk result (self.new
            ≡ self.old ++ (in_two (members_in (trees_of members.now)) ++ trees_bytes (trees_of members.now))) }
    {
        self.push_two(members.len() as u16)?;
        for node in members.nodes() {
            self.push_node(node)?;
        }
        Ok(())
    }
}
