ghost use Rattle.chart.specs.Meanings.{bore_meaning, bore_limits};

use super::Bore;
use crate::chart::Chart;
use crate::leg::Leg;

// Leg 2i leads down from station i to the next, leg 2i + 1 up from there to i.
impl<'c> Chart for Bore<'c> {
    ghost meaning = { bore_meaning };

    ghost limits = { bore_limits };

    fn stations(&self) -> u32 {
        self.spacing.stations
    }

    fn letter(&self, station: u32) -> u32 {
        if station >= self.spacing.stations {
            return 0;
        }
        let mut letter: u32 = 0;
        for zone in self.zones {
            if zone.holds(station) {
                letter |= 1 << zone.mark;
            }
        }
        letter
    }

    fn legs(&self) -> u32 {
        2 * (self.spacing.stations - 1)
    }

    fn leg(&self, number: u32) -> Option<Leg> {
        let upper = number / 2;
        let lower = upper + 1;
        if lower >= self.spacing.stations {
            None
        } else if number % 2 == 0 {
            Some(Leg {
                from: upper,
                to: lower,
                seconds: self.spacing.down,
            })
        } else {
            Some(Leg {
                from: lower,
                to: upper,
                seconds: self.spacing.up,
            })
        }
    }

    // Leg 2s - 1 leads up from station s, but for the first, and leg 2s down, but for the last.
    fn leaving(&self, station: u32, least: u32) -> Option<u32> {
        if station >= self.spacing.stations {
            return None;
        }
        let down = 2 * station;
        if least < down {
            return Some(down - 1);
        }
        if least == down && station + 1 < self.spacing.stations {
            return Some(down);
        }
        None
    }
}
