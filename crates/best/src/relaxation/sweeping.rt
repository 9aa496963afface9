ghost use Rattle.std.specs.Prelude.{ℕ, ◌<◌};
ghost use Rattle.best.specs.Paths.{Meaning};
ghost use Rattle.best.specs.Relaxed.{Relaxed};
ghost use Rattle.best.specs.Sweeps.{Outcome, Pulled, Settled};

use super::Relaxation;
use crate::arcs::Leaving;
use crate::kind::Kind;
use crate::net::Net;

impl<'v, N: Net, K: Kind<Weight = N::Weight>> Relaxation<'v, N, K> {
    // A better value for a node than its own, by one arc, if there is one: the best of them.
    fn pull(&self, node: usize) -> Option<K::Value>
        requires { node < (N.Net.meaning self.now.net.now).nodes }
        ensures { Pulled K.Kind.order (N.Net.meaning self.now.net.now) self.now.values.now node result }
    {
        let mut found = None;
        let mut least = self.values[node];
        for (to, weight) in Leaving::new(self.net, node) {
            let via = K::extend(weight, self.values[to]);
            if K::better(via, least) {
                least = via;
                found = Some(via);
            }
        }
        found
    }

    // Goes once over the nodes, from the last to the first, and says whether a value changed. A path whose nodes rise in
    // number is settled by one sweep.
    #[tactic(auto, using(crate::proofs::Sweeping::keep))]
    fn sweep(&mut self) -> bool
        ensures relaxed { Relaxed self.old self.new }
        ensures outcome { Outcome K.Kind.order (N.Net.meaning self.old.net.now) self.old.values.now self.new.values.now 0 result }
    {
        let mut changed = false;
        // by number, since a pull reads the values of other nodes while this one's is written
        for node in (0..self.values.len()).rev() {
            if let Some(better) = self.pull(node) {
                self.values[node] = better;
                changed = true;
            }
        }
        changed
    }

    // Sweeps until nothing changes.
    pub(crate) fn settle(&mut self)
        ensures relaxed { Relaxed self.old self.new }
        ensures settled { (u : ℕ) → u < (N.Net.meaning self.old.net.now).nodes
            → Settled K.Kind.order (N.Net.meaning self.old.net.now) self.new.values.now u }
    {
        while self.sweep() {}
    }
}
