ghost use Rattle.std.specs.Prelude.{◌≡◌, ℕ, ◌<◌, ◌≤◌, ◌&&◌, length, take, if◌then◌else◌, nat_le, nat_lt, slice_index, slice_index_or};
ghost use Rattle.best.specs.Kinds.{counts};
ghost use Rattle.best.specs.Paths.{IsBest};
ghost use Rattle.ltlf.specs.Bits.{bit};
ghost use Rattle.ltlf.specs.Distance.{within};
ghost use Rattle.ltlf.specs.Forecasts.{ending as end_forecast};
ghost use Rattle.ltlf.specs.Ltlf.{Ltlf};
ghost use Rattle.task.specs.StateNet.{Inside, state_net};
ghost use Rattle.task.specs.Tables.{Tabulates};

use super::Tables;
use crate::bits::bit_of;
use crate::state_net::StateNet;
use best::kind::Letters;
use std::array;

// Best values over the states: the least number of letters from each to a seed, if that is 0. The memory is long enough.
fn nearest(net: &StateNet, values: &mut [u32])
    requires { length net.now.next.now ≤ length values.old }
    ensures best { IsBest (counts 4294967295) (state_net net.now.letters net.now.next.now)
        (take (length net.now.next.now) values.old) (take (length net.now.next.now) values.new) }
    ensures fit { (q : ℕ) → slice_index values.new q ≤ 4294967295 }
{
    let _ = best::best::<StateNet, Letters>(net, values, &mut []);
}

impl Tables {
    // 0 for a state that accepts, and none for the others and for what is no state: the largest number, as best values have it.
    fn seed(&self, ending: u8, q: usize) -> u32
        ensures { q < self.now.numbered.count
            → result ≡ (if bit ending (slice_index self.now.numbered.states q) then 0 else 4294967295) }
    {
        match self.numbered.states().get(q) {
            Some(state) if bit_of(ending, *state) => 0,
            _ => u32::MAX,
        }
    }

    fn seeds(&self, ending: u8) -> [u32; 64]
        ensures whole { length result ≡ 64 }
        ensures each { (q : ℕ) → q < self.now.numbered.count
            → slice_index_or result q 4294967295 ≡ (if bit ending (slice_index self.now.numbered.states q) then 0 else 4294967295) }
    {
        array::from_fn(|q| self.seed(ending, q))
    }

    // The least number of letters from each state to one that accepts; the largest number stands for none.
    pub(crate) fn distances(&self, letters: usize, ending: u8) -> [u32; 64]
        requires short { letters ≤ 64 }
        requires inside { Inside letters (take self.now.numbered.count self.now.next) }
        ensures { (f : Ltlf) → Tabulates f letters self.now → ending ≡ end_forecast f
            → (q k : ℕ) → q < self.now.numbered.count
            → within f letters k q ≡ (nat_lt (slice_index result q) 4294967295 && nat_le (slice_index result q) k) }
    {
        let mut distances = self.seeds(ending);
        let net = StateNet {
            next: &self.next[..self.numbered.count],
            letters,
        };
        nearest(&net, &mut distances);
        distances
    }
}
