ghost use Rattle.std.specs.Prelude.{◌≡◌, [], ◌∷◌, Some, None, MatchResult};
ghost use Rattle.chart.specs.Faults.{table_fault};
ghost use Rattle.chart.specs.Meanings.{table_meaning};

use super::Table;
use crate::fault::Fault;
use crate::leg::Leg;

impl<'c> Table<'c> {
    // One station, whose letter is 0, and no legs.
    pub fn single() -> Table<'c>
        ensures { table_meaning result ≡ record { letters = 0 ∷ []; legs = [] } }
    {
        Table {
            letters: &[0],
            legs: &[],
        }
    }

    // The table of these letters and legs, or the first of their questions that is answered no.
    pub fn new(letters: &'c [u32], legs: &'c [Leg]) -> Result<Table<'c>, Fault>
        ensures { MatchResult result
            (λ t. (table_fault letters.now legs.now ≡ None)
            × (table_meaning t ≡ record { letters = letters.now; legs = legs.now }))
            (λ e. table_fault letters.now legs.now ≡ Some e) }
    {
        if letters.is_empty() || letters.len() > 256 {
            return Err(Fault::OutOfRange);
        }
        if legs.len() > 1024 {
            return Err(Fault::TooMany);
        }
        if !legs.iter().all(|leg| leg.is_sound(letters.len())) {
            return Err(Fault::OutOfRange);
        }
        Ok(Table { letters, legs })
    }

    // Takes these letters and legs in place of its own, or refuses as `new` does and stays as it was.
    pub fn set(&mut self, letters: &'c [u32], legs: &'c [Leg]) -> Result<(), Fault>
        ensures { MatchResult result
            (λ _. (table_fault letters.entry.now legs.now ≡ None)
            × (table_meaning self.new ≡ record { letters = letters.entry.now; legs = legs.now }))
            (λ e. (table_fault letters.entry.now legs.now ≡ Some e)
            × (table_meaning self.new ≡ table_meaning self.old)) }
    {
        *self = Table::new(letters, legs)?;
        Ok(())
    }
}
