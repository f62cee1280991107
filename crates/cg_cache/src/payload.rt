use cg_code::Code;
use std::sync::Arc;

/// What a cache keeps under a code. Two payloads with equal codes and equal origins are equal.
pub trait Payload: Drop {
    ghost use Rattle.std.specs.Prelude.{◌≡◌, List, ℕ};
    ghost use Rattle.std.specs.Arc.{arc_value};

    type Origin: Drop;

    // the code and the origin, as contracts see them
    ghost code_of: { Self → List ℕ };

    ghost origin_of: { Self → Self.Origin };

    /// The code under which it is kept. Takes no memory.
    fn code(&self) -> &Code
        ensures { result.now ≡ code_of self.now };

    /// What it was made from. Takes no memory.
    fn origin(&self) -> &Arc<Self::Origin>
        ensures { arc_value result.now ≡ origin_of self.now };

    ghost one_value: { (a b : Self) → code_of a ≡ code_of b → origin_of a ≡ origin_of b → a ≡ b };
}
