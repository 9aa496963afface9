ghost use Rattle.std.specs.Prelude.{◌≡◌, length};

// What one letter does to the states, in tables, so that no formula is evaluated state by state.
// Let e be the forecast one position before forecast w, under this letter.
#[derive(Clone, Copy)]
pub struct Letter {
    // the state after it, as the first letter
    first: u64,
    // bit w of low[n] is bit e % 4 of n
    low: [u64; 16],
    // bit w of high[j] says that e / 4 is j and that w is a forecast
    high: [u64; 16],
    ghost lows: { length low ≡ 16 },
    ghost highs: { length high ≡ 16 },
}

pub mod states;
