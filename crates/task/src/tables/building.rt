ghost use Rattle.std.specs.Prelude.{◌≡◌, ℕ, ◌<◌, ◌≤◌, [], length, MatchOption, slice_index, slice_index_or};
ghost use Rattle.std.specs.Fn.{FnReturnsAt};
ghost use Rattle.ltlf.specs.Ltlf.{Ltlf};
ghost use Rattle.ltlf.specs.Forecasts.{temporal};
ghost use Rattle.ltlf.specs.Automaton.{first as first_of, step};
ghost use Rattle.ltlf.specs.Numbering.{meets, states as states_of};
ghost use Rattle.task.specs.Acts.{ActsAll};
ghost use Rattle.task.specs.Listed.{listed};
ghost use Rattle.task.specs.Rows.{entry};
ghost use Rattle.task.specs.Tables.{Tabled, Tabulates};

use super::Tables;
use crate::letter::Letter;
use crate::numbered::Numbered;

// Meets the state after each letter, and writes its number at the letter's place; none where there is no number left: an
// `Option`, since with a `Result` from `Numbered::meet` on a small task takes a fifth more time. There are at most as many
// letters as places; a slice and its bound say it as plainly as a type of its own.
fn follow_each<F: Fn(&Letter) -> u64>(
    numbered: &mut Numbered,
    letters: &[Letter],
    row: &mut [u8; 64],
    after: F,
) -> Option<()>
    requires callable { F.IsAlwaysCallable after }
    requires few { length letters.now ≤ 64 }
    ensures { (g : ℕ → ℕ)
        → ((a s : ℕ) (d : Letter) → a < length letters.now → FnReturnsAt F.Fn after (slice_index_or letters.now a d) s → s ≡ g a)
        → MatchOption result
        (64 < length (meets g (length letters.now) (listed numbered.old)))
        (λ _. Tabled g (length letters.now) (listed numbered.old) (listed numbered.new) (λ a. slice_index row.new a)) }
{
    // an index, since a loop over `row.iter_mut().zip(letters)` keeps no count of the letters, which the proof goes by
    for (a, letter) in letters.iter().enumerate() {
        row[a] = numbered.meet(after(letter))?;
    }
    Some(())
}

impl Tables {
    // Meets the states after each first letter.
    fn starting(letters: &[Letter]) -> Option<Tables>
        requires few { length letters.now ≤ 64 }
        ensures { (f : Ltlf) → ActsAll f (length letters.now) letters.now → MatchOption result
            (64 < length (meets (first_of f) (length letters.now) []))
            (λ t. Tabled (first_of f) (length letters.now) [] (listed t.numbered) (λ a. slice_index t.first a)) }
    {
        let mut numbered = Numbered::none();
        let mut first = [0; 64];
        follow_each(&mut numbered, letters, &mut first, |letter| letter.first())?;
        Some(Tables {
            numbered,
            first,
            next: [[0; 64]; 64],
        })
    }

    // Meets the states after each letter from the state numbered q.
    fn follow(&mut self, letters: &[Letter], q: usize) -> Option<()>
        requires few { length letters.now ≤ 64 }
        requires known { q < self.old.numbered.count }
        ensures row { (f : Ltlf) → temporal f ≤ 6 → ActsAll f (length letters.now) letters.now → MatchOption result
            (64 < length (meets (step f (slice_index (listed self.old.numbered) q)) (length letters.now) (listed self.old.numbered)))
            (λ _. Tabled (step f (slice_index (listed self.old.numbered) q)) (length letters.now) (listed self.old.numbered)
            (listed self.new.numbered) (entry self.new.next q)) }
        ensures starts { self.new.first ≡ self.old.first }
        ensures before { (k : ℕ) → k < q → slice_index_or self.new.next k [] ≡ slice_index_or self.old.next k [] }
    {
        let state = self.numbered.states()[q];
        follow_each(
            &mut self.numbered,
            letters,
            &mut self.next[q],
            |letter| letter.next(state),
        )
    }

    // The states over the letters, and what each letter does; none where there are more than 64 states.
    pub(crate) fn build(letters: &[Letter]) -> Option<Tables>
        requires few { length letters.now ≤ 64 }
        ensures { (f : Ltlf) → temporal f ≤ 6 → ActsAll f (length letters.now) letters.now → MatchOption result
            (64 < length (states_of f (length letters.now)))
            (λ t. Tabulates f (length letters.now) t) }
    {
        let mut tables = Tables::starting(letters)?;
        let mut q = 0;
        // a `while`, since the count grows while the states are followed
        while q < tables.numbered.count {
            tables.follow(letters, q)?;
            q += 1;
        }
        Some(tables)
    }
}
