ghost use Rattle.std.specs.Prelude.{◌≡◌, ℕ, ◌+◌, ◌<◌};
ghost use Rattle.ltlf.specs.Bits.{bit};

use super::Stack;

// Bit w of the word at n is bit n of w.
const FORECAST_BITS: [u64; 6] = [
    0xaaaa_aaaa_aaaa_aaaa,
    0xcccc_cccc_cccc_cccc,
    0xf0f0_f0f0_f0f0_f0f0,
    0xff00_ff00_ff00_ff00,
    0xffff_0000_ffff_0000,
    0xffff_ffff_0000_0000,
];

impl Stack<6> {
    // The forecasts' bits for the next temporal operator.
    pub(crate) fn forecast(&self) -> u64
        requires some { 0 < self.now.top }
        ensures { (n w : ℕ) → n + 1 ≡ self.now.top → w < 64 → bit w result ≡ bit n w }
    {
        FORECAST_BITS[self.top - 1]
    }
}
