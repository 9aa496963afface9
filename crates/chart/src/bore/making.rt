ghost use Rattle.std.specs.Prelude.{◌≡◌, [], Some, None, MatchResult};
ghost use Rattle.chart.specs.Bores.{bore_plan};
ghost use Rattle.chart.specs.Faults.{bore_fault};
ghost use Rattle.chart.specs.Meanings.{bore_meaning};

use super::Bore;
use crate::fault::Fault;
use crate::leg::Zone;
use crate::spacing::Spacing;

impl<'c> Bore<'c> {
    // One station in no zone, and no legs.
    pub fn single() -> Bore<'c>
        ensures { bore_meaning result ≡ bore_plan 1 1 1 [] }
    {
        Bore {
            spacing: Spacing {
                stations: 1,
                down: 1,
                up: 1,
            },
            zones: &[],
        }
    }

    // The bore of this spacing and these zones, or the first of their questions that is answered no.
    pub fn new(spacing: Spacing, zones: &'c [Zone]) -> Result<Bore<'c>, Fault>
        ensures { MatchResult result
            (λ b. (bore_fault spacing.stations spacing.down spacing.up zones.now ≡ None)
            × (bore_meaning b ≡ bore_plan spacing.stations spacing.down spacing.up zones.now))
            (λ e. bore_fault spacing.stations spacing.down spacing.up zones.now ≡ Some e) }
    {
        if !spacing.is_sound() {
            return Err(Fault::OutOfRange);
        }
        if zones.len() > 8 {
            return Err(Fault::TooMany);
        }
        if !zones.iter().all(|zone| zone.is_sound(spacing.stations)) {
            return Err(Fault::OutOfRange);
        }
        Ok(Bore { spacing, zones })
    }

    // Takes this number of stations, these seconds of each leg down and up and these zones in place of its own, or refuses
    // as `new` does and stays as it was.
    pub fn set(&mut self, stations: u32, down: u32, up: u32, zones: &'c [Zone]) -> Result<(), Fault>
        ensures { MatchResult result
            (λ _. (bore_fault stations down up zones.now ≡ None)
            × (bore_meaning self.new ≡ bore_plan stations down up zones.now))
            (λ e. (bore_fault stations down up zones.now ≡ Some e)
            × (bore_meaning self.new ≡ bore_meaning self.old)) }
    {
        let spacing = Spacing { stations, down, up };
        *self = Bore::new(spacing, zones)?;
        Ok(())
    }
}
