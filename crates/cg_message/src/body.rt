//! What a message holds.
ghost use Rattle.std.specs.Prelude.{◌≡◌};
ghost use Rattle.cg_message.specs.Value as value;
ghost use Rattle.cg_message.specs.Value.{IsRow, IsTable, value_in};

use cg_marginal::Marginal;
use cg_table::{Row, Tri};

/// What an evaluation gives.
#[derive(Drop)]
pub enum Body {
    /// The weights of a dating, one for each cell.
    Row(Row),
    /// The table of a node.
    Table(Tri),
    /// The posterior of an event.
    Marginal(Marginal),
}

// The row that it is.
pub(crate) fn row_in(body: &Body) -> &Row
    requires { IsRow (value_in body.now) }
    ensures { value_in body.now ≡ value.Row result.now }
{
    match body {
        Body::Row(row) => row,
        Body::Table(_) | Body::Marginal(_) => unreachable!(),
    }
}

// The table that it is.
pub(crate) fn table_in(body: &Body) -> &Tri
    requires { IsTable (value_in body.now) }
    ensures { value_in body.now ≡ value.Table result.now }
{
    match body {
        Body::Table(table) => table,
        Body::Row(_) | Body::Marginal(_) => unreachable!(),
    }
}
