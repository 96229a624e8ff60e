ghost use Rattle.std.specs.Prelude.{◌≡◌, ℕ, List, ◌∷◌, ◌++◌, Ok};
ghost use Rattle.std.proofs.Common.{ap, ◌∙◌, rules};
ghost use Rattle.kinds.specs.Bits.{from_bytes};
ghost use Rattle.pack.specs.Codes.{code as code_of, heard as heard_of};
ghost use Rattle.pack.specs.Codes;
ghost use Rattle.pack.specs.PackKindLemmas.{three, front, empty};

use crate::unit::PackUnit;
use faults::UnitFault;
use kinds::{Bits24, Kind, lay};

/// The kind of packs.
#[derive(Clone, Copy)]
pub struct Pack;

// Twelve names for twelve bytes: parts of three would have to be cut and joined again.
/// The twelve bytes of a pack.
fn encode(unit: PackUnit) -> [u8; 12]
    ensures { result ≡ code_of unit }
{
    let [a, b, c] = unit.first.to_bytes();
    let [d, e, f] = unit.second.to_bytes();
    let [g, h, i] = unit.third.to_bytes();
    let [j, k, l] = unit.fourth.to_bytes();
    [a, b, c, d, e, f, g, h, i, j, k, l]
}

impl Kind for Pack {
    type Unit = PackUnit;

    const EVT: u8 = 1;

    ghost EVT = { 1 };

    ghost size = { 3 };

    ghost code = { code_of };

    ghost heard = { heard_of };

    ghost some = { Prim.search rules };

    ghost most = { Prim.search rules };

    ghost typed = { Prim.search rules };

    ghost long = { Prim.search rules };

    ghost back = { Prim.search rules };

    ghost only = { λ bs len fit u is.
        let P : List ℕ → Type 0 = λ l. Codes.heard l ≡ Ok u → l ≡ Codes.code u in
        front 9 P (λ a b c p q l9 n9 k9.
        front 6 (λ l. P (a ∷ b ∷ c ∷ l)) (λ d e f r s l6 n6 k6.
        front 3 (λ l. P (a ∷ b ∷ c ∷ d ∷ e ∷ f ∷ l)) (λ g h i t v l3 n3 k3.
        front 0 (λ l. P (a ∷ b ∷ c ∷ d ∷ e ∷ f ∷ g ∷ h ∷ i ∷ l)) (λ j k l w x l0 n0 k0.
        empty (λ z. P (a ∷ b ∷ c ∷ d ∷ e ∷ f ∷ g ∷ h ∷ i ∷ j ∷ k ∷ l ∷ z))
        (λ e0. let y : record { first = from_bytes a b c; second = from_bytes d e f; third = from_bytes g h i; fourth = from_bytes j k l } ≡ u = cc in
        (λ o. three a b c p q o ++ three d e f r s o ++ three g h i t v o ++ three j k l w x o) ∙ ap Codes.code y)
        l0 n0)
        l3 n3 k3)
        l6 n6 k6)
        l9 n9 k9)
        bs len fit is };

    ghost inside = { Prim.search rules };

    fn size() -> u16 {
        3
    }

    fn write(unit: PackUnit, out: &mut [u8]) -> Result<(), UnitFault> {
        lay(encode(unit), out)
    }

    fn read(bytes: &[u8]) -> Result<PackUnit, UnitFault> {
        let [a, b, c, d, e, f, g, h, i, j, k, l, ..] = bytes else {
            return Err(UnitFault::CUT);
        };
        Ok(PackUnit {
            first: Bits24::from_bytes(*a, *b, *c),
            second: Bits24::from_bytes(*d, *e, *f),
            third: Bits24::from_bytes(*g, *h, *i),
            fourth: Bits24::from_bytes(*j, *k, *l),
        })
    }
}
