ghost use Rattle.std.specs.Prelude.{◌≡◌, ◌<◌, ◌≤◌, Bool, true, false, List, ◌∷◌, length, replicate, count_by};
ghost use Rattle.best.specs.Kinds.{answers};
ghost use Rattle.best.specs.Paths.{IsBest};
ghost use Rattle.speed.specs.Shuffled.{after, before, shuffled, shuffled_back, shuffled_closed, shuffled_reverses};

use best::Net;
use best::kind::YesNo;

const NODES: usize = 16384;

// A chain through 16,384 nodes in a shuffled order, with three arcs from each node to itself: the bad case for sweeps.
#[derive(Clone, Copy)]
pub struct Shuffled;

fn node_after(node: usize) -> usize
    requires { node < NODES }
    ensures { result ≡ after node }
{
    (5 * node + 1) % NODES
}

fn node_before(node: usize) -> usize
    requires { node < NODES }
    ensures is { result ≡ before node }
    ensures low { result < NODES }
{
    (3277 * (node + NODES - 1)) % NODES
}

impl Net for Shuffled {
    type Weight = ();

    ghost meaning = { λ _. shuffled };

    ghost reverse = { λ _. shuffled_back };

    ghost closed = { λ _. shuffled_closed };

    ghost reverses = { λ _. shuffled_reverses };

    fn nodes(&self) -> usize {
        NODES
    }

    fn leaving(&self, node: usize, from: usize) -> Option<(usize, usize, ())> {
        if node >= NODES || from >= 4 {
            return None;
        }
        let to = if from == 0 { node_after(node) } else { node };
        Some((from, to, ()))
    }

    fn entering(&self, node: usize, from: usize) -> Option<(usize, usize, ())> {
        if node >= NODES || from > 0 {
            return None;
        }
        let source = node_before(node);
        (node_after(source) == node).then_some((0, source, ()))
    }
}

// How many of the values are yes.
fn count_yes(values: &[bool]) -> u32
    requires { length values.now ≤ NODES }
    ensures { result ≡ count_by (λ b. b) values.now }
{
    values.iter().map(|value| u32::from(*value)).sum()
}

// How many nodes reach node 0, found with a queue or by sweeps alone: C chooses by one byte, 0 for sweeps.
pub fn jackdawwire_reach(queued: u8) -> u32
    ensures { (live : List Bool) × IsBest answers shuffled (true ∷ replicate 16383 false) live × (result ≡ count_by (λ b. b) live) }
{
    let mut values = [false; NODES];
    let mut queue = [0u32; NODES];
    values[0] = true;
    let words = if queued == 0 { 0 } else { NODES };
    // The memory is long enough for all nodes, so nothing is refused.
    let _ = best::best::<Shuffled, YesNo>(&Shuffled, &mut values, &mut queue[0..words]);
    count_yes(&values)
}
