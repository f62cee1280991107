ghost use Rattle.std.specs.Prelude.{◌≡◌, IfOk};
ghost use Rattle.std.specs.Arc.{arc_value};
ghost use Rattle.cg_message.specs.Value.{IsMessage, IsValue, value_in};

use crate::body::Body;
use cg_cache::Payload;
use cg_code::Code;
use cg_curve::Curves;
use cg_num::NoMemory;
use std::marker::Model;
use std::sync::Arc;

/// A row, a table or a marginal, with its code and the curves that it was made by.
///
/// It is seen as these two, since they tell its value.
#[derive(Drop)]
pub struct Message {
    code: Arc<Code>,
    body: Body,
    curves: Arc<Curves>,
}

impl Model for Message {
    ghost use Rattle.std.specs.Arc.{arc_value};
    ghost use Rattle.cg_message.specs.Value.{IsMessage, Seen, value_in};

    ghost Value = { Seen };

    ghost view = { λ m. record { code = arc_value m.code; curves = arc_value m.curves } };

    ghost invariant = { λ m. IsMessage (record { code = arc_value m.code; curves = arc_value m.curves }) (value_in m.body) };
}

impl Message {
    // The message of this body, by a further handle on the curves.
    pub(crate) fn new(
        code: Arc<Code>,
        body: Body,
        curves: &Arc<Curves>,
    ) -> Result<Message, NoMemory>
        requires { IsMessage (record { code = arc_value code; curves = arc_value curves.now }) (value_in body) }
        ensures { IfOk result (λ m. m ≡ record { code = arc_value code; curves = arc_value curves.now }) }
    {
        let curves = Arc::try_clone(curves)?;
        Ok(Message { code, body, curves })
    }

    /// What was made: the value of whatever the code stands for, by the message's curves. Takes no memory.
    pub fn body(&self) -> &Body
        ensures { IsValue self.now (value_in result.now) }
    {
        &self.body
    }
}

impl Payload for Message {
    ghost use Rattle.std.proofs.Common.{ap₂};

    type Origin = Curves;

    ghost code_of = { λ m. m.code };

    ghost origin_of = { λ m. m.curves };

    fn code(&self) -> &Code {
        &self.code
    }

    fn origin(&self) -> &Arc<Curves> {
        &self.curves
    }

    ghost one_value = { λ a b code origin. ap₂ (λ c o. record { code = c; curves = o }) code origin };
}
