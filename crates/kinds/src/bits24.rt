ghost use Rattle.std.specs.Prelude.{◌≡◌, ◌+◌, ◌*◌, IfOk};
ghost use Rattle.kinds.specs.Bits.{bytes as bytes_of, field as field_of, from_bytes, from_field, number as number_of, made, made_signed, low_bits as low_bits_of};

use faults::UnitFault;

/// 24 bits: a high byte and 16 low bits.
#[derive(Clone, Copy, PartialEq, Eq, Debug)]
pub struct Bits24 {
    pub high: u8,
    pub low: u16,
}

// Methods and not conversions: 24 bits have two readings as a number, and bytes go by the names of std's.
impl Bits24 {
    /// 24 bits that are zero.
    pub const ZERO: Bits24 = Bits24 { high: 0, low: 0 };

    /// The bits of a number from 0 to 16,777,215.
    pub fn new(field: u32) -> Result<Bits24, UnitFault>
        ensures { result ≡ made field }
    {
        if field >= 16_777_216 {
            return Err(UnitFault::FIELD);
        }
        let [_, high, middle, low] = field.to_be_bytes();
        Ok(Bits24::from_bytes(high, middle, low))
    }

    /// The bits as a number from 0 to 16,777,215.
    pub fn field(self) -> u32
        ensures { result ≡ field_of self }
    {
        let [high, middle, low] = self.to_bytes();
        u32::from_be_bytes([0, high, middle, low])
    }

    /// The upper 16 and the lower 8 bits together.
    pub fn joined(upper: u16, lower: u8) -> Bits24
        ensures { result ≡ from_field (256 * upper + lower) }
    {
        let [high, middle] = upper.to_be_bytes();
        Bits24::from_bytes(high, middle, lower)
    }

    /// The two's complement of a number from -8,388,608 to 8,388,607.
    pub fn signed(number: i32) -> Result<Bits24, UnitFault>
        ensures value { result ≡ made_signed number }
        ensures back { IfOk result (λ bits. number_of bits ≡ number) }
    {
        if !(-8_388_608..=8_388_607).contains(&number) {
            return Err(UnitFault::FIELD);
        }
        Ok(Bits24::low_bits(number))
    }

    /// The low 24 bits of a number's two's complement.
    pub fn low_bits(number: i32) -> Bits24
        ensures { result ≡ low_bits_of number }
    {
        let [_, high, middle, low] = number.to_be_bytes();
        Bits24::from_bytes(high, middle, low)
    }

    /// The number of which the bits are the two's complement.
    pub fn number(self) -> i32
        ensures { result ≡ number_of self }
    {
        let [high, middle, low] = self.to_bytes();
        i32::from_be_bytes([high, middle, low, 0]) / 256
    }

    /// The bits that three bytes hold, the high byte first.
    pub fn from_bytes(high: u8, middle: u8, low: u8) -> Bits24
        ensures { result ≡ from_bytes high middle low }
    {
        Bits24 {
            high,
            low: u16::from_be_bytes([middle, low]),
        }
    }

    /// The three bytes of the bits, the high byte first.
    pub fn to_bytes(self) -> [u8; 3]
        ensures { result ≡ bytes_of self }
    {
        let [middle, low] = self.low.to_be_bytes();
        [self.high, middle, low]
    }
}
