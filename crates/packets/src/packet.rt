ghost use Rattle.std.specs.Prelude.{◌≡◌, ◌%◌, ◌≤◌, length};

mod reading;
mod sorting;

/// The bytes of a packet, as many as a packet can have: a header of eight and a payload.
#[derive(Drop)]
pub struct Packet<'a> {
    bytes: &'a [u8],
    ghost long: { 8 ≤ length bytes.now },
    ghost short: { length bytes.now ≤ 4096 },
    ghost whole: { length bytes.now % 4 ≡ 0 },
}
