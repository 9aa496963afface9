ghost use Rattle.std.specs.Prelude.{◌+◌, ◌*◌, ◌<◌, ◌≤◌};
ghost use Rattle.best.specs.Paths.{Meaning};
ghost use Rattle.best.specs.Relaxed.{Relaxed};
ghost use Rattle.best.specs.Sweeps.{total};

use super::Relaxation;
use crate::arcs::Entering;
use crate::kind::Kind;
use crate::net::Net;
use crate::queue::Queue;

impl<'v, N: Net, K: Kind<Weight = N::Weight>> Relaxation<'v, N, K> {
    // Carries the value of a node back along the arcs into it; the nodes that get a better value wait in their turn.
    fn carry(&mut self, node: usize, queue: &mut Queue)
        requires { node < (N.Net.meaning self.old.net.now).nodes }
        ensures relaxed { Relaxed self.old self.new }
        ensures less { 2 * total K.Kind.order self.new.values.now + queue.new.count
            ≤ 2 * total K.Kind.order self.old.values.now + queue.old.count }
    {
        for (source, weight) in Entering::new(self.net, node) {
            let via = K::extend(weight, self.values[node]);
            if K::better(via, self.values[source]) {
                self.values[source] = via;
                queue.push(source);
            }
        }
    }

    // The nodes that have a value wait first.
    fn seed(&self, queue: &mut Queue) {
        for (node, value) in self.values.iter().enumerate() {
            if K::better(*value, K::none()) {
                queue.push(node);
            }
        }
    }

    // Carries values back from the seeds, node by node, as long as some node waits. It only makes values better: whether
    // they are best is for the sweeps to find out.
    pub(crate) fn spread(&mut self, ring: &mut [u32])
        ensures { Relaxed self.old self.new }
    {
        let mut queue = Queue::new(ring);
        self.seed(&mut queue);
        while let Some(node) = queue.pop() {
            if node < self.values.len() {
                self.carry(node, &mut queue);
            }
        }
    }
}
