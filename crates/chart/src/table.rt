ghost use Rattle.std.specs.Prelude.{◌≡◌, ◌≤◌, true, length};
ghost use Rattle.chart.specs.Limits.{legs_sound};

use crate::leg::Leg;

// A chart over given letters, one a station, and given legs.
#[derive(Clone, Copy)]
pub struct Table<'c> {
    letters: &'c [u32],
    legs: &'c [Leg],
    ghost some: { 1 ≤ length letters.now },
    ghost few: { length letters.now ≤ 256 },
    ghost short: { length legs.now ≤ 1024 },
    ghost sound: { legs_sound (length letters.now) legs.now ≡ true },
}

pub mod answers;
pub mod making;
