ghost use Rattle.std.specs.Prelude.{◌≤◌, length};
ghost use Rattle.task.specs.StateNet.{Inside, state_net, no_net, state_closed, none_reversed};

use best::Net;

// The net of the states of an automaton: an arc for each letter.
#[derive(Clone, Copy)]
pub struct StateNet<'t> {
    // by state and letter: the number of the state after that
    pub next: &'t [[u8; 64]],
    pub letters: usize,
    ghost few: { length next.now ≤ 64 },
    ghost short: { letters ≤ 64 },
    ghost inside: { Inside letters next.now },
}

impl<'t> Net for StateNet<'t> {
    type Weight = u32;

    ghost meaning = { λ n. state_net n.letters n.next.now };

    ghost reverse = { λ n. no_net n.next.now };

    ghost closed = { λ n. state_closed n.letters n.next.now n.inside };

    ghost reverses = { λ n. none_reversed n.letters n.next.now };

    fn nodes(&self) -> usize {
        self.next.len()
    }

    fn leaving(&self, node: usize, from: usize) -> Option<(usize, usize, u32)> {
        let row = self.next.get(node)?;
        let to = row[..self.letters].get(from)?;
        Some((from, usize::from(*to), 1))
    }

    fn entering(&self, _node: usize, _from: usize) -> Option<(usize, usize, u32)> {
        None
    }
}
