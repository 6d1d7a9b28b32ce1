// Numbers as words.

ghost use Rattle.std.specs.Prelude.{◌≡◌};
ghost use Rattle.cg_expr.specs.Pieces.{word_of};

/// The word of a number, modulo 2^64.
pub fn word_of(z: i128) -> u64
    ensures { result ≡ word_of z }
{
    z.rem_euclid(0x1_0000_0000_0000_0000) as u64
}
