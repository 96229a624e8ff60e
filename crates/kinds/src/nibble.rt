ghost use Rattle.std.specs.Prelude.{◌≡◌, ◌%◌};
ghost use Rattle.kinds.specs.Nibbles.{value as value_of, low as low_of, made};

use faults::UnitFault;

// Four truth values and no number, so that every value is four bits.
/// Four bits, the highest first.
#[derive(Clone, Copy, PartialEq, Eq, Debug)]
pub struct Nibble {
    pub b3: bool,
    pub b2: bool,
    pub b1: bool,
    pub b0: bool,
}

impl Nibble {
    /// The low four bits of a byte.
    pub fn low(byte: u8) -> Nibble
        ensures value { result ≡ low_of byte }
        ensures back { value_of result ≡ byte % 16 }
    {
        // Remainders, as the contract has them: masks say no more.
        Nibble {
            b3: byte % 16 >= 8,
            b2: byte % 8 >= 4,
            b1: byte % 4 >= 2,
            b0: byte % 2 >= 1,
        }
    }
}

/// The four bits of a number from 0 to 15.
impl TryFrom<u8> for Nibble {
    type Error = UnitFault;

    ghost try_from_gives = { λ number r. r ≡ made number };

    fn try_from(number: u8) -> Result<Nibble, UnitFault> {
        if number > 15 {
            return Err(UnitFault::FIELD);
        }
        Ok(Nibble::low(number))
    }
}

/// The four bits as a number, 0 to 15.
impl From<Nibble> for u8 {
    ghost from_gives = { λ bits r. (r ≡ value_of bits) × (low_of r ≡ bits) };

    fn from(bits: Nibble) -> u8 {
        8 * u8::from(bits.b3) + 4 * u8::from(bits.b2) + 2 * u8::from(bits.b1) + u8::from(bits.b0)
    }
}
