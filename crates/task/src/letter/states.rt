ghost use Rattle.std.specs.Prelude.{◌≡◌, ℕ, ◌/◌, ◌%◌, ◌^◌, ◌<◌, ◌≤◌, not, ◌&&◌, map, if◌then◌else◌, ◌==◌, nat_lt, slice_index};
ghost use Rattle.ltlf.specs.Bits.{bit, number};
ghost use Rattle.ltlf.specs.Ltlf.{Ltlf};
ghost use Rattle.ltlf.specs.Forecasts.{temporal, truth, earlier as earlier_forecast};
ghost use Rattle.ltlf.specs.Automaton.{first, step};
ghost use Rattle.task.specs.Acts.{Acts};

use super::Letter;
use crate::bits::{bit_of, spread};

// Bit w of the word at t says that w is a forecast of t temporal operators.
const FORECASTS: [u64; 7] = [
    0x1,
    0x3,
    0xf,
    0xff,
    0xffff,
    0xffff_ffff,
    0xffff_ffff_ffff_ffff,
];

// How many forecasts there are, as a word with as many bits. The bound on the number is the invariant of `Formula`, from
// which it comes: a type of its own would be made in one line and taken apart in the next.
fn forecasts(temporals: usize) -> u64
    requires few { temporals ≤ 6 }
    ensures { (w : ℕ) → w < 64 → bit w result ≡ nat_lt w (2 ^ temporals) }
{
    FORECASTS[temporals]
}

// Bit by bit, the one word's where the choice has a 1, and the other's elsewhere.
fn choose(choice: u64, one: u64, other: u64) -> u64
    ensures { (w : ℕ) → w < 64 → bit w result ≡ (if bit w choice then bit w one else bit w other) }
{
    (choice & one) | (!choice & other)
}

// Where the bits of the word are b.
fn same(word: u64, b: bool) -> u64
    ensures { (w : ℕ) → w < 64 → bit w result ≡ (if b then bit w word else not (bit w word)) }
{
    if b { word } else { !word }
}

// The bit of n that the two lowest bits of the earlier forecast number.
fn lower(earlier: &[u64; 6], n: u64) -> u64
    ensures { (w : ℕ) → w < 64 → bit w result ≡ bit (number (map (bit w) earlier.now) % 4) n }
{
    let odd = choose(earlier[1], spread(bit_of(3, n)), spread(bit_of(1, n)));
    let even = choose(earlier[1], spread(bit_of(2, n)), spread(bit_of(0, n)));
    choose(earlier[0], odd, even)
}

// In place: by `array::from_fn`, which is proved too, the largest task took a third more time.
fn lows(earlier: &[u64; 6]) -> [u64; 16]
    ensures { (n w : ℕ) → n < 16 → w < 64 → bit w (slice_index result n) ≡ bit (number (map (bit w) earlier.now) % 4) n }
{
    let mut lows = [0; 16];
    for (n, low) in lows.iter_mut().enumerate() {
        *low = lower(earlier, n as u64);
    }
    lows
}

// The forecasts whose earlier forecast, but for its two lowest bits, is j.
fn upper(earlier: &[u64; 6], forecasts: u64, j: u64) -> u64
    requires small { j < 16 }
    ensures { (w : ℕ) → w < 64 → bit w result ≡ (bit w forecasts && number (map (bit w) earlier.now) / 4 == j) }
{
    let low = same(earlier[2], bit_of(0, j)) & same(earlier[3], bit_of(1, j));
    let high = same(earlier[4], bit_of(2, j)) & same(earlier[5], bit_of(3, j));
    forecasts & (low & high)
}

// In place, as the lower ones.
fn highs(earlier: &[u64; 6], forecasts: u64) -> [u64; 16]
    ensures { (j w : ℕ) → j < 16 → w < 64
        → bit w (slice_index result j) ≡ (bit w forecasts && number (map (bit w) earlier.now) / 4 == j) }
{
    let mut highs = [0; 16];
    for (j, high) in highs.iter_mut().enumerate() {
        *high = upper(earlier, forecasts, j as u64);
    }
    highs
}

impl Letter {
    // The tables of no letter.
    pub(crate) fn none() -> Letter {
        Letter {
            first: 0,
            low: [0; 16],
            high: [0; 16],
        }
    }

    // The tables of a letter, from the truth of a formula and the bits of the earlier forecast under each forecast.
    pub(crate) fn new(truth: u64, earlier: &[u64; 6], temporals: usize) -> Letter
        requires few { temporals ≤ 6 }
        ensures { (f : Ltlf) (a : ℕ) → temporal f ≡ temporals
            → ((w : ℕ) → w < 64 → bit w truth ≡ Rattle.ltlf.specs.Forecasts.truth f 0 a w)
            → ((w : ℕ) → w < 64 → number (map (bit w) earlier.now) ≡ earlier_forecast f a w)
            → Acts f a result }
    {
        let all = forecasts(temporals);
        Letter {
            first: truth & all,
            low: lows(earlier),
            high: highs(earlier, all),
        }
    }

    // The state after this letter, as the first.
    pub(crate) fn first(&self) -> u64
        ensures { (f : Ltlf) (a : ℕ) → Acts f a self.now → result ≡ first f a }
    {
        self.first
    }

    // The state after this letter, from another.
    pub(crate) fn next(&self, state: u64) -> u64
        ensures { (f : Ltlf) (a : ℕ) → temporal f ≤ 6 → Acts f a self.now → result ≡ step f state a }
    {
        let mut next = 0;
        // by number: each four bits of the state choose in one table, and their place in the other
        for j in 0..16usize {
            next |= self.low[((state >> (4 * j)) & 15) as usize] & self.high[j];
        }
        next
    }
}
