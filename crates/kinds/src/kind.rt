ghost use Rattle.std.specs.Prelude.{◌≡◌, ℕ, ◌*◌, ◌<◌, ◌≤◌, List, length, Ok, Err, Result as Answer};
ghost use Rattle.faults.specs.declared.units.UnitFault.{UnitFault};
ghost use Rattle.kinds.specs.Codes.{Bytes, read_front, laid_answer, laid};

use faults::UnitFault;

/// A kind of unit: what its units are, and the code by which each stands in a packet.
///
/// A code has 4 × `size` bytes. `heard` says what such bytes are: the one unit that has them for
/// its code, or why there is none.
pub trait Kind {
    type Unit: Copy;

    /// The event type, EVT, of the packets that carry this kind.
    const EVT: u8;

    ghost EVT: { ℕ };

    ghost size: { ℕ };

    ghost code: { Self.Unit → List ℕ };

    ghost heard: { List ℕ → Answer Self.Unit UnitFault };

    /// The quadlets of a unit, 1 to 1,022.
    // A function and no constant, so that it promises its bounds.
    fn size() -> u16
        ensures same { result ≡ size }
        ensures some { 1 ≤ result }
        ensures most { result ≤ 1022 };

    /// Lays the unit's code at the front of `out` and leaves the rest, or refuses and leaves all.
    fn write(unit: Self::Unit, out: &mut [u8]) -> Result<(), UnitFault>
        ensures answer { result ≡ laid_answer (4 * size) out.old }
        ensures bytes { out.new ≡ laid (4 * size) (code unit) out.old };

    /// The unit at the front of `bytes`.
    fn read(bytes: &[u8]) -> Result<Self::Unit, UnitFault>
        ensures { result ≡ read_front (4 * size) heard bytes.now };

    ghost some: { 1 ≤ size };

    ghost most: { size ≤ 1022 };

    ghost typed: { EVT ≤ 3 };

    ghost long: { (u : Self.Unit) → length (code u) ≡ 4 * size };

    ghost back: { (u : Self.Unit) → heard (code u) ≡ Ok u };

    ghost only: { (bs : List ℕ) → length bs ≡ 4 * size → Bytes bs → (u : Self.Unit) → heard bs ≡ Ok u → bs ≡ code u };

    ghost inside: { (bs : List ℕ) (f : UnitFault) → heard bs ≡ Err f → f.place < 4 * size };
}
