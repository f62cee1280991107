ghost use Rattle.std.specs.Prelude.{◌≡◌, ℤ, pos, negsuc, ◌≤ℤ◌, ◌↔◌, IsSome, IfSome};
ghost use Rattle.cg_num.specs.Year.{IsYear, IsCalendarYear, bp_of_calendar};

use std::marker::Model;

/// A year as its cal BP number, from -1,000 to 60,000. A greater number is an older year.
#[derive(Clone, Copy, Debug, PartialEq, Eq, PartialOrd, Ord)]
pub struct Year {
    number: i32,
}

impl Model for Year {
    ghost use Rattle.std.specs.Prelude.{ℤ};
    ghost use Rattle.cg_num.specs.Year.{IsYear};

    ghost Value = { ℤ };

    ghost view = { λ y. y.number };

    ghost invariant = { λ y. IsYear y.number };

    ghost inverse = { λ n. record { number = n } };
}

impl Year {
    /// The year of a cal BP number, and `None` exactly outside -1,000 to 60,000. Takes no memory.
    pub fn of_bp(number: i64) -> Option<Year>
        ensures some { IfSome result (λ year. year ≡ number) }
        ensures range { IsSome result ↔ IsYear number }
    {
        if number >= -1_000 && number <= 60_000 {
            Some(Year::within(number as i32))
        } else {
            None
        }
    }

    /// The year of a calendar year, AD positive and BC negative. `None` exactly for 0, which is no
    /// year, and outside -58,051 to 2,950. Takes no memory.
    pub fn of_calendar(number: i64) -> Option<Year>
        ensures some { IfSome result (λ year. year ≡ bp_of_calendar number) }
        ensures range { IsSome result ↔ IsCalendarYear number }
    {
        match number {
            1..=2_950 => Some(Year::within((1_950 - number) as i32)),
            -58_051..=-1 => Some(Year::within((1_949 - number) as i32)),
            _ => None,
        }
    }

    /// The year of a cal BP number that is known to be in range. Takes no memory.
    pub fn within(number: i32) -> Year
        requires low { negsuc 999 ≤ℤ number }
        requires high { number ≤ℤ pos 60000 }
        ensures { result ≡ number }
    {
        Year { number }
    }

    /// The cal BP number.
    pub fn bp(&self) -> i32
        ensures number { result ≡ self.now }
        ensures low { negsuc 999 ≤ℤ result }
        ensures high { result ≤ℤ pos 60000 }
    {
        self.number
    }
}
