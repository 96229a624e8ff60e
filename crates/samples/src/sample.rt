ghost use Rattle.std.specs.Prelude.{◌≡◌, false};
ghost use Rattle.samples.specs.Samples.{no_sample};

mod methods;

// Plain numbers, as every sample is kept; the ghost field says which.
/// A raw sample: its length code, 0, 1 or 2 for 24, 20 or 16 bits, and the number that its whole
/// 24-bit field counts, with the 0, 4 or 8 padding bits zero.
#[derive(Clone, Copy)]
pub struct Sample {
    code: u8,
    number: i32,
    ghost clear: { no_sample code number ≡ false },
}
