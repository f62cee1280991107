ghost use Rattle.std.specs.Prelude.{◌≡◌, ◌<◌, ◌≤◌, ◌-◌, ◌∷◌, ◌++◌, [], length, slice_get, OnOk, OnErr, IfSome, IfNone, Some, option_map};
ghost use Rattle.cg_curve.specs.Curves.{HasName, IsNew, AreCurves, NamedCurve as named};

use crate::curve::Curve;
use cg_num::NoMemory;
use std::alloc::Global;
use std::marker::Model;

#[derive(Drop)]
struct NamedCurve {
    name: Vec<u8>,
    curve: Curve,
}

impl Model for NamedCurve {
    ghost use Rattle.cg_curve.specs.Curves as curves;

    ghost Value = { curves.NamedCurve };

    ghost view = { λ c. record { name = c.name.items; curve = c.curve } };
}

/// Up to four curves with their names. No two names are equal, ASCII case aside.
#[derive(Drop)]
pub struct Curves {
    named: Vec<NamedCurve>,
}

impl Model for Curves {
    ghost use Rattle.std.specs.Prelude.{List};
    ghost use Rattle.cg_curve.specs.Curves as curves;

    ghost Value = { List curves.NamedCurve };

    ghost view = { λ c. c.named.items };

    ghost invariant = { λ c. curves.AreCurves c.named.items };
}

impl Curves {
    /// No curves. They take their memory from `alloc` as they come.
    pub fn new(alloc: Global) -> Curves
        ensures { result ≡ [] }
    {
        Curves {
            named: Vec::new(alloc),
        }
    }

    /// Puts a curve behind the others. After `NoMemory` they are as before, and the curve is dropped.
    pub fn push(&mut self, name: &[u8], curve: Curve) -> Result<(), NoMemory>
        requires few { length self.old < 4 }
        requires new { IsNew self.old name.now }
        ensures ok { OnOk result (self.new ≡ self.old ++ record { name = name.now; curve = curve } ∷ []) }
        ensures err { OnErr result (self.new ≡ self.old) }
    {
        let alloc = *self.named.allocator();
        let name = Vec::from_slice(alloc, name)?;
        self.named.push(NamedCurve { name, curve })?;
        Ok(())
    }

    /// The number of the curve with this name, ASCII case aside, counted from 1. No other has it. Takes no memory.
    pub fn find(&self, name: &[u8]) -> Option<u8>
        ensures found { IfSome result (HasName self.now name.now) }
        ensures none { IfNone result (IsNew self.now name.now) }
        ensures distinct { AreCurves self.now }
    {
        for (place, named) in self.named.iter().enumerate() {
            if named.name.eq_ignore_ascii_case(name) {
                return Some(place as u8 + 1);
            }
        }
        None
    }

    /// How many curves there are.
    pub fn count(&self) -> u8
        ensures count { result ≡ length self.now }
        ensures few { result ≤ 4 }
    {
        self.named.len() as u8
    }

    /// The curve of a number, counted from 1.
    pub fn get(&self, number: u8) -> &Curve
        requires some { 1 ≤ number }
        requires known { number ≤ length self.now }
        ensures { option_map (λ named. named.curve) (slice_get self.now (number - 1)) ≡ Some result.now }
    {
        &self.named[number as usize - 1].curve
    }
}
