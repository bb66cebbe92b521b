//! Numbers of units.
ghost use Rattle.std.specs.Prelude.{◌≡◌, true, false, unsigned_abs, MatchOption};
ghost use Rattle.md_unit_tables.specs.Numbers.{IsUnitNumber, is_unit_number};

use std::marker::Model;

/// The greatest number of units that may be sold.
const GREATEST_UNITS: u32 = 12;

/// How many units are sold: from 1 to 12.
#[derive(Clone, Copy)]
pub struct UnitNumber {
    units: u32,
}

// It is seen as the number.
impl Model for UnitNumber {
    ghost use Rattle.std.specs.Prelude.{ℕ};
    ghost use Rattle.md_unit_tables.specs.Numbers.{IsUnitNumber};

    ghost Value = { ℕ };

    ghost view = { λ n. n.units };

    ghost invariant = { λ n. IsUnitNumber n.units };

    ghost inverse = { λ units. record { units = units } };
}

impl UnitNumber {
    /// A number as a number of units, if so many may be sold.
    pub fn new(number: i128) -> Option<UnitNumber>
        ensures { MatchOption result (is_unit_number number ≡ false) (λ units. (is_unit_number number ≡ true) × (units ≡ unsigned_abs number)) }
    {
        match u32::try_from(number) {
            Ok(units) if 1 <= units && units <= GREATEST_UNITS => Some(UnitNumber { units }),
            _ => None,
        }
    }

    /// The number.
    pub fn get(&self) -> u32
        ensures value { result ≡ self.now }
        ensures range { IsUnitNumber self.now }
    {
        self.units
    }
}
