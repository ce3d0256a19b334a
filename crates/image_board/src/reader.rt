// Readers of which it is settled whether a clause can observe what they have left.
ghost use Rattle.std.specs.Prelude.{Bool, true, false, refl, IsSome, IsTrue};

use std::io::{Read, Stdin};

/// A reader, and whether the octets that it has left are observable.
pub trait Reader: Read {
    ghost tells: { Bool };

    ghost known: { (reader : Self) → IsTrue tells → IsSome (Self.remaining reader) };
}

/// Nothing is known of what standard input will give.
impl Reader for Stdin {
    ghost tells = { false };

    ghost known = { λ reader told. told };
}

/// A text in memory.
impl Reader for &[u8] {
    ghost tells = { true };

    ghost known = { λ reader told. refl };
}
