//! The three units of time (docs/RULES.md, Units). Each is a type of its own, so that a count of tenths can never be
//! given where milliseconds are meant; a conversion's name says how it rounds. Units are computed by these functions alone.
#![tactic(auto)]

pub mod numbers;

ghost use Rattle.std.specs.Prelude.{◌≡◌, ◌*◌, ◌/◌, ◌%◌, ◌&&◌, [], ◌∷◌, if◌then◌else◌, nat_eq, nat_le, nat_lt};
ghost use Rattle.units.specs.Laws.{Laws};
ghost use Rattle.units.specs.Units.{tenths_apart, scaled_floor, scaled_number, scaled_values, tenths_to_millis, tenths_bytes, millis_less, millis_divided, tenths_up, tenths_down, millis_to_micros, millis_bytes, micros_to_tenths, tenths_number, tenths_values, micros_to_millis, millis_number, millis_values, micros_bytes, later, elapsed};

/// Tenths of a second, as the attributes hold them.
#[derive(Clone, Copy, Debug, PartialEq, Eq, PartialOrd, Ord)]
pub struct Tenths(pub u16);

/// Milliseconds of a fade, and of a scene's time.
#[derive(Clone, Copy, Debug, PartialEq, Eq, PartialOrd, Ord)]
pub struct Millis(pub u32);

/// Microseconds: a reading of the clock, or a span of it.
#[derive(Clone, Copy, Debug, PartialEq, Eq, PartialOrd, Ord)]
pub struct Micros(pub u64);

impl Tenths {
    pub fn abs_diff(self, other: Tenths) -> Tenths
        ensures { result ≡ tenths_apart self other }
    {
        Tenths(self.0.abs_diff(other.0))
    }

    /// Times a factor and over a divisor, rounded down: the source's checked multiplication and its division. None
    /// where 16 bits do not hold the product. Over 0 it gives 0.
    #[tactic(auto, unfolding(crate::specs::Units::scaled_floor))]
    pub fn mul_div_floor(self, factor: u8, divisor: u8) -> Option<Tenths>
        ensures value { result ≡ scaled_floor self factor divisor }
        ensures number { scaled_number result ≡ (if nat_lt 65535 (self.0 * factor) then 12 else 0) }
        ensures values { scaled_values result
            ≡ (if nat_lt 65535 (self.0 * factor) then [] else self.0 * factor / divisor ∷ []) }
    {
        let product = self.0.checked_mul(u16::from(factor))?;
        let quotient = product.checked_div(u16::from(divisor)).unwrap_or(0);
        Some(Tenths(quotient))
    }

    /// Exact.
    pub fn to_millis(self) -> Millis
        ensures { result ≡ tenths_to_millis self }
    {
        Millis(u32::from(self.0) * 100)
    }

    /// The bytes of its number, the low one first.
    pub fn to_le_bytes(self) -> [u8; 2]
        ensures { result ≡ tenths_bytes self }
    {
        u16::to_le_bytes(self.0)
    }
}

impl Millis {
    /// The difference; 0 where the other is larger.
    pub fn saturating_sub(self, other: Millis) -> Millis
        ensures { result ≡ millis_less self other }
    {
        Millis(self.0.saturating_sub(other.0))
    }

    /// Rounded down. Over 0 it gives 0.
    pub fn div_floor(self, divisor: u8) -> Millis
        ensures { result ≡ millis_divided self divisor }
    {
        Millis(numbers::div_floor(self.0, u32::from(divisor)))
    }

    /// Rounded up. Above 6,553,500 ms the low 16 bits are kept, as the source's `as u16` does.
    pub fn to_tenths_ceil(self) -> Tenths
        ensures { result ≡ tenths_up self }
    {
        let tenths = numbers::div_ceil(self.0, 100);
        // What is left of the division fits.
        Tenths((tenths % 65_536) as u16)
    }

    /// Rounded down, and held at 65,535.
    pub fn to_tenths_floor_saturating(self) -> Tenths
        ensures { result ≡ tenths_down self }
    {
        Tenths(u16::try_from(self.0 / 100).unwrap_or(u16::MAX))
    }

    /// Exact.
    pub fn to_micros(self) -> Micros
        ensures { result ≡ millis_to_micros self }
    {
        Micros(u64::from(self.0) * 1000)
    }

    /// The bytes of its number, the low one first.
    pub fn to_le_bytes(self) -> [u8; 4]
        ensures { result ≡ millis_bytes self }
    {
        u32::to_le_bytes(self.0)
    }
}

impl Micros {
    /// A span later; 2^64 − 1 where the sum would pass it.
    pub fn saturating_add(self, span: Micros) -> Micros
        ensures { result ≡ later self span }
    {
        Micros(self.0.saturating_add(span.0))
    }

    /// The span since an earlier reading; 0 where that reading is later.
    pub fn saturating_sub(self, earlier: Micros) -> Micros
        ensures { result ≡ elapsed earlier self }
    {
        Micros(self.0.saturating_sub(earlier.0))
    }

    /// Exact. None where the time is not of whole tenths, or is above 6,553,500,000 µs, the most that 16 bits hold.
    pub fn to_tenths(self) -> Option<Tenths>
        ensures value { result ≡ micros_to_tenths self }
        ensures number { tenths_number result ≡ (if nat_eq (self.0 % 100000) 0 && nat_le self.0 6553500000 then 0 else 1) }
        ensures values { tenths_values result
            ≡ (if nat_eq (self.0 % 100000) 0 && nat_le self.0 6553500000 then self.0 / 100000 ∷ [] else []) }
    {
        let tenths = u16::try_from(self.0 / 100_000).ok()?;
        (self.0 % 100_000 == 0).then_some(Tenths(tenths))
    }

    /// Exact. None where the time is not of whole milliseconds, or is above 4,294,967,295,000 µs, the most that 32 bits hold.
    pub fn to_millis(self) -> Option<Millis>
        ensures value { result ≡ micros_to_millis self }
        ensures number { millis_number result ≡ (if nat_eq (self.0 % 1000) 0 && nat_le self.0 4294967295000 then 0 else 1) }
        ensures values { millis_values result
            ≡ (if nat_eq (self.0 % 1000) 0 && nat_le self.0 4294967295000 then self.0 / 1000 ∷ [] else []) }
    {
        let millis = u32::try_from(self.0 / 1_000).ok()?;
        (self.0 % 1_000 == 0).then_some(Millis(millis))
    }

    /// The bytes of its number, the low one first.
    pub fn to_le_bytes(self) -> [u8; 8]
        ensures { result ≡ micros_bytes self }
    {
        u64::to_le_bytes(self.0)
    }
}

/// The laws of the conversions, for every value: a theorem, and nothing to run.
#[tactic(auto, using(crate::proofs::Laws::unit_laws))]
pub fn unit_laws_hold()
    ensures { Laws }
{}
