ghost use Rattle.std.specs.Prelude.{◌≡◌};

use kinds::Kind;

/// Different units of a kind have different codes.
pub fn codes_differ<K: Kind>()
    ensures { (u v : K.Unit) → K.code u ≡ K.code v → u ≡ v }
{}
