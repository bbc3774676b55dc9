// How many units a number cell can have.
ghost use Rattle.std.specs.Prelude.{◌≡◌};
ghost use Rattle.sea_cell.specs.Conversion.{is_amount as is_amount_of};

// The most units of a cell, in either direction.
const MOST: i128 = 1_000_000_000_000;

// Whether a cell can have this number of units: its absolute value is at most 10^12.
pub fn is_amount(units: i128) -> bool
    ensures { result ≡ is_amount_of units }
{
    -MOST <= units && units <= MOST
}
