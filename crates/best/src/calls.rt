ghost use Rattle.std.specs.Prelude.{◌≡◌, ◌<◌, ◌≤◌, length, take, drop, replicate, MatchResult};
ghost use Rattle.best.specs.Paths.{IsBest};
ghost use Rattle.best.specs.Sweeps.{queued_after};
ghost use Rattle.best.specs.Theorems.{OneBest, ShortPaths};

use crate::fault::Fault;
use crate::kind::Kind;
use crate::net::Net;
use crate::relaxation::Relaxation;

// Best values in memory of just the right length, with a queue of any length, which is 0 afterwards.
fn best_of<N: Net, K: Kind<Weight = N::Weight>>(net: &N, values: &mut [K::Value], queue: &mut [u32])
    requires { length values.old ≡ (N.Net.meaning net.now).nodes }
    ensures best { IsBest K.Kind.order (N.Net.meaning net.now) values.old values.new }
    ensures queue { queue.new ≡ replicate (length queue.old) 0 }
{
    let mut relaxation = Relaxation::<N, K>::new(net, values);
    relaxation.spread(queue);
    queue.fill(0);
    relaxation.settle();
}

// Puts each node's best value in the place of its seed: the best, over all paths to a seed, of the seed's value extended
// backwards. Memory past the nodes keeps what it held. A queue of as many words as there are nodes is used to save sweeps,
// as far as the net gives its arcs the other way round; these words are 0 afterwards. A shorter queue is not touched.
#[tactic(auto, using(crate::proofs::Settling::one_best, crate::proofs::Shortening::short_paths))]
pub fn best<N: Net, K: Kind<Weight = N::Weight>>(
    net: &N,
    values: &mut [K::Value],
    queue: &mut [u32],
) -> Result<(), Fault>
    ensures answer { MatchResult result
        (λ _. (N.Net.meaning net.now).nodes ≤ length values.old)
        (λ e. (e ≡ Fault.TooShort) × (length values.old < (N.Net.meaning net.now).nodes)
        × (values.new ≡ values.old)) }
    ensures best { (N.Net.meaning net.now).nodes ≤ length values.old
        → IsBest K.Kind.order (N.Net.meaning net.now)
        (take (N.Net.meaning net.now).nodes values.old)
        (take (N.Net.meaning net.now).nodes values.new) }
    ensures past { drop (N.Net.meaning net.now).nodes values.new
        ≡ drop (N.Net.meaning net.now).nodes values.old }
    ensures theorems { (OneBest K.Kind.order (N.Net.meaning net.now)) × (ShortPaths K.Kind.order (N.Net.meaning net.now)) }
    ensures queue { queue.new
        ≡ queued_after (N.Net.meaning net.now).nodes (length values.old) queue.old }
{
    let nodes = net.nodes();
    if values.len() < nodes {
        return Err(Fault::TooShort);
    }
    let words = if queue.len() < nodes { 0 } else { nodes };
    best_of::<N, K>(net, &mut values[..nodes], &mut queue[..words]);
    Ok(())
}
