//! A payload that is its code, and codes by numbers.
ghost use Rattle.std.specs.Prelude.{◌≡◌, IfOk};
ghost use Rattle.std.specs.Arc.{arc_value};

use cg_cache::Payload;
use cg_code::{Code, row_code};
use cg_model::{Dating, Grid};
use cg_num::Year;
use std::alloc::Global;
use std::marker::Model;
use std::sync::Arc;
use std::test::Fail;

/// A payload that is its code. All have one origin.
#[derive(Drop)]
pub(crate) struct Mark {
    code: Code,
    origin: Arc<()>,
}

impl Model for Mark {
    ghost use Rattle.std.specs.Prelude.{List, ℕ};

    ghost Value = { List ℕ };

    ghost view = { λ m. m.code };
}

impl Payload for Mark {
    type Origin = ();

    ghost code_of = { λ m. m };

    ghost origin_of = { λ m. tt };

    fn code(&self) -> &Code {
        &self.code
    }

    fn origin(&self) -> &Arc<()> {
        &self.origin
    }

    ghost one_value = { λ a b code origin. code };
}

/// A code, and the payload for it.
#[derive(Drop)]
pub(crate) struct Made {
    pub(crate) code: Arc<Code>,
    pub(crate) mark: Arc<Mark>,
}

/// The code of this number, which is that of the row of an exact year, 1950 cal BP at 0.
pub(crate) fn code(alloc: Global, number: u16) -> Result<Code, Fail> {
    let year = Year::of_bp(i64::from(number)).ok_or("no year")?;
    let grid = Grid::new(year, year)?;
    Ok(row_code(alloc, &Dating::Exact(year), &grid, 0)?)
}

/// The code of this number, and the payload for it.
pub(crate) fn make(alloc: Global, number: u16) -> Result<Made, Fail>
    ensures { IfOk result (λ made. arc_value made.mark ≡ arc_value made.code) }
{
    let code = code(alloc, number)?;
    let mark = Mark {
        code: code.copy(alloc)?,
        origin: Arc::new(alloc, ())?,
    };
    Ok(Made {
        code: Arc::new(alloc, code)?,
        mark: Arc::new(alloc, mark)?,
    })
}
