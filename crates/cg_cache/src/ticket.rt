ghost use Rattle.std.specs.Prelude.{◌≡◌};
ghost use Rattle.std.specs.Arc.{arc_value};

use cg_code::Code;
use std::sync::Arc;

/// The right of a seat to publish the payload of a code that it has claimed. It must be spent, by `publish` or
/// `give_back`: it has no `Drop`.
pub struct Ticket {
    pub seat: u32,
    pub code: Arc<Code>,
}

impl Ticket {
    /// The code that is claimed. Takes no memory.
    pub fn code(&self) -> &Code
        ensures { result.now ≡ arc_value self.now.code }
    {
        &self.code
    }
}

/// What a claim answers: the payload, the ticket, the owner's seat, or one of two wants.
pub enum Claimed<P> {
    Hit(Arc<P>),
    Mine(Ticket),
    Busy(u32),
    NoRoom,
    NoMemory,
}
