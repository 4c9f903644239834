//! Divisions of plain numbers (docs/RULES.md, Units), by any divisor.
ghost use Rattle.std.specs.Prelude.{◌≡◌, ◌/◌};
ghost use Rattle.units.specs.Numbers.{div_ceil};

/// A quotient rounded down. Over 0 it gives 0.
pub fn div_floor(a: u32, b: u32) -> u32
    ensures { result ≡ a / b }
{
    a.checked_div(b).unwrap_or(0)
}

/// A quotient rounded up. Over 0 it gives 0; std's `div_ceil` asks for a divisor that is not.
pub fn div_ceil(a: u32, b: u32) -> u32
    ensures { result ≡ div_ceil a b }
{
    if b == 0 { 0 } else { a.div_ceil(b) }
}
