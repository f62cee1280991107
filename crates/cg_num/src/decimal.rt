ghost use Rattle.std.specs.Prelude.{◌≡◌, ◌↔◌, pos, negsuc, ◌≤ℤ◌, IsSome, IfSome};
ghost use Rattle.cg_num.specs.Decimal.{IsDecimal};

use std::marker::Model;
use thiserror::Error;

/// A number of thousandths, with at most twelve digits before the point.
#[derive(Clone, Copy, Debug, PartialEq, Eq, PartialOrd, Ord)]
pub struct Decimal {
    thousandths: i64,
}

impl Model for Decimal {
    ghost use Rattle.std.specs.Prelude.{ℤ};
    ghost use Rattle.cg_num.specs.Decimal.{IsDecimal};

    ghost Value = { ℤ };

    ghost view = { λ d. d.thousandths };

    ghost invariant = { λ d. IsDecimal d.thousandths };

    ghost inverse = { λ n. record { thousandths = n } };
}

impl Decimal {
    /// The decimal of a number of thousandths, and `None` exactly outside -999,999,999,999,999 to
    /// 999,999,999,999,999. Takes no memory.
    pub fn of_thousandths(number: i64) -> Option<Decimal>
        ensures some { IfSome result (λ decimal. decimal ≡ number) }
        ensures range { IsSome result ↔ IsDecimal number }
    {
        if number >= -999_999_999_999_999 && number <= 999_999_999_999_999 {
            Some(Decimal::within(number))
        } else {
            None
        }
    }

    /// The decimal of a number of thousandths that is known to be in range. Takes no memory.
    pub fn within(thousandths: i64) -> Decimal
        requires low { negsuc 999999999999998 ≤ℤ thousandths }
        requires high { thousandths ≤ℤ pos 999999999999999 }
        ensures { result ≡ thousandths }
    {
        Decimal { thousandths }
    }

    /// The number of thousandths, between -999,999,999,999,999 and 999,999,999,999,999.
    pub fn thousandths(&self) -> i64
        ensures number { result ≡ self.now }
        ensures low { negsuc 999999999999998 ≤ℤ result }
        ensures high { result ≤ℤ pos 999999999999999 }
    {
        self.thousandths
    }
}

/// Why a text is no decimal. The first that holds is told.
#[derive(Clone, Copy, Debug, PartialEq, Eq, Error)]
pub enum NumFault {
    /// The text isn't an optional sign, digits, and optionally a point with digits.
    #[error("not a number")]
    NotANumber,
    /// More than twelve digits stand before the point after leading zeros.
    #[error("more than twelve digits before the point")]
    TooWide,
    /// A digit other than 0 stands past the third decimal.
    #[error("more than three decimals")]
    TooManyDecimals,
}
