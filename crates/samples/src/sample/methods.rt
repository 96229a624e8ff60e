ghost use Rattle.std.specs.Prelude.{◌≡◌, ◌%◌, IfSome, Some, ◌==◌};
ghost use Rattle.std.specs.Option.{option_map};
ghost use Rattle.am824.specs.Codes.{code as code_of};
ghost use Rattle.samples.specs.SampleViews.{plain, Sampled};
ghost use Rattle.samples.specs.Samples.{paddings, raw_field, raw_unit, raw_bytes, raw_of};
ghost use Rattle.kinds.specs.Bits.{field};

use crate::sample::Sample;
use faults::UnitFault;
use kinds::{Bits24, Nibble};
use quadlets::Am824Unit;

/// Whether the padding bits of a length code are zero.
fn clear(code: u8, bits: Bits24) -> bool
    ensures { result ≡ (bits.low % paddings code == 0) }
{
    // A sample keeps its length code as a number.
    match code {
        0 => true,
        1 => bits.low % 16 == 0,
        _ => bits.low % 256 == 0,
    }
}

/// The unit of a length code and 24 bits.
fn raw(code: u8, bits: Bits24) -> Am824Unit
    ensures { result ≡ raw_field code (field bits) }
{
    let [high, middle, low] = bits.to_bytes();
    // By the length code again, which a sample keeps as a number.
    match code {
        0 => Am824Unit::Raw24(bits),
        1 => Am824Unit::Raw20(u16::from_be_bytes([high, middle]), Nibble::low(low / 16)),
        _ => Am824Unit::Raw16(u16::from_be_bytes([high, middle])),
    }
}

impl Sample {
    /// A sample of a length code and a number, made where there is one.
    pub fn new(code: u8, number: i32) -> Result<Sample, UnitFault>
        ensures { Sampled code number result }
    {
        let bits = Bits24::signed(number)?;
        if code > 2 || !clear(code, bits) {
            return Err(UnitFault::FIELD);
        }
        Ok(Sample { code, number })
    }

    pub fn code(&self) -> u8
        ensures { result ≡ self.now.code }
    {
        self.code
    }

    pub fn number(&self) -> i32
        ensures { result ≡ self.now.number }
    {
        self.number
    }

    // Methods: `of` is no refusal where a unit is no sample, and `unit`, which undoes it, stands beside it.
    /// The sample as a unit of a list.
    pub fn unit(self) -> Am824Unit
        ensures value { result ≡ raw_unit self.code self.number }
        ensures back { raw_of result ≡ Some (plain self) }
        ensures bytes { code_of result ≡ raw_bytes self.code self.number }
    {
        raw(self.code, Bits24::low_bits(self.number))
    }

    /// The sample that a unit of a list is, if it is one.
    pub fn of(unit: Am824Unit) -> Option<Sample>
        ensures value { option_map plain result ≡ raw_of unit }
        ensures back { IfSome result (λ s. raw_unit s.code s.number ≡ unit) }
    {
        // The cases that the text of a unit has too, with a code where that has a length.
        match unit {
            Am824Unit::Raw24(bits) => Some(Sample {
                code: 0,
                number: bits.number(),
            }),
            Am824Unit::Raw20(upper, lower) => Some(Sample {
                code: 1,
                number: Bits24::joined(upper, 16 * u8::from(lower)).number(),
            }),
            Am824Unit::Raw16(upper) => Some(Sample {
                code: 2,
                number: Bits24::joined(upper, 0).number(),
            }),
            _ => None,
        }
    }
}
