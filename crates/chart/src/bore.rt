ghost use Rattle.std.specs.Prelude.{◌≡◌, ◌≤◌, true};
ghost use Rattle.chart.specs.Limits.{zones_sound};

use crate::leg::Zone;
use crate::spacing::Spacing;

// A chart of stations in a row, with a leg down and a leg up between each and the next. It is computed, not kept in tables.
#[derive(Clone, Copy)]
pub struct Bore<'c> {
    spacing: Spacing,
    zones: &'c [Zone],
    ghost some: { 1 ≤ spacing.stations },
    ghost few: { spacing.stations ≤ 256 },
    ghost paced: { (1 ≤ spacing.down) × (spacing.down ≤ 1000) × (1 ≤ spacing.up) × (spacing.up ≤ 1000) },
    ghost sound: { zones_sound spacing.stations zones.now ≡ true },
}

pub mod answers;
pub mod making;
