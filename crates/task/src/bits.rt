ghost use Rattle.std.specs.Prelude.{◌≡◌, ℕ, ◌<◌};
ghost use Rattle.ltlf.specs.Bits.{bit};

// Bit k of a number, the one of weight 2^k.
pub(crate) fn bit_of(k: u8, number: u64) -> bool
    ensures { result ≡ bit k number }
{
    k < 64 && (number >> k) & 1 == 1
}

// A word whose bits are all the same.
pub(crate) fn spread(b: bool) -> u64
    ensures { (w : ℕ) → w < 64 → bit w result ≡ b }
{
    if b { u64::MAX } else { 0 }
}
