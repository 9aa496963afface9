ghost use Rattle.std.specs.Prelude.{◌≡◌, ◌*◌, ◌/◌, ◌%◌, ◌^◌, ◌<◌, ◌≤◌, [], length, MatchOption};
ghost use Rattle.ltlf.specs.Numbering.{place as place_of, meet as meet_of};
ghost use Rattle.task.specs.Listed.{listed};

use super::Numbered;

// Where a state's hint stands: the top eight bits of its product with an odd number of mixed bits.
fn hint_place(state: u64) -> usize
    ensures is { result ≡ (state * 0x9e37_79b9_7f4a_7c15) % 2 ^ 64 / 2 ^ 56 }
    ensures within { result < 256 }
{
    (state.wrapping_mul(0x9e37_79b9_7f4a_7c15) >> 56) as usize
}

impl Numbered {
    pub(crate) fn none() -> Numbered
        ensures { listed result ≡ [] }
    {
        Numbered {
            states: [0; 64],
            count: 0,
            hints: [0; 256],
        }
    }

    // The states, each at its number.
    pub(crate) fn states(&self) -> &[u64]
        ensures are { result.now ≡ listed self.now }
        ensures many { length result.now ≡ self.now.count }
    {
        &self.states[..self.count]
    }

    // The number of a state by a look at each one.
    fn scan(&self, state: u64) -> Option<usize>
        ensures { MatchOption result
            (length (listed self.now) ≤ place_of state (listed self.now))
            (λ q. (q < length (listed self.now)) × (q ≡ place_of state (listed self.now))) }
    {
        self.states().iter().position(|met| *met == state)
    }

    // The number of a state, if it has one.
    pub(crate) fn number(&self, state: u64) -> Option<usize>
        ensures { MatchOption result
            (length (listed self.now) ≤ place_of state (listed self.now))
            (λ q. (q < length (listed self.now)) × (q ≡ place_of state (listed self.now))) }
    {
        let q = usize::from(self.hints[hint_place(state)]);
        if q < self.count && self.states[q] == state {
            return Some(q);
        }
        self.scan(state)
    }

    // Gives a state its number, a new one where it is met for the first time; none where all 64 are given.
    pub(crate) fn meet(&mut self, state: u64) -> Option<u8>
        ensures { MatchOption result
            ((64 < length (meet_of (listed self.old) state)) × (self.new ≡ self.old))
            (λ q. (q < 64) × (q ≡ place_of state (listed self.old))
            × (listed self.new ≡ meet_of (listed self.old) state)) }
    {
        if let Some(q) = self.number(state) {
            self.hints[hint_place(state)] = q as u8;
            return Some(q as u8);
        }
        let new = self.count;
        if new == 64 {
            return None;
        }
        self.states[new] = state;
        self.hints[hint_place(state)] = new as u8;
        self.count += 1;
        Some(new as u8)
    }
}
