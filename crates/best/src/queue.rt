ghost use Rattle.std.specs.Prelude.{◌≡◌, ◌+◌, ◌<◌, ◌≤◌, length, MatchOption};

// Nodes that wait, first in, first out, in lent memory: a ring, since a `VecDeque` would take memory of its own. It is a
// help and no promise: a node that finds no room is left out.
#[derive(Drop)]
pub(crate) struct Queue<'q> {
    ring: &'q mut [u32],
    head: usize,
    count: usize,
    ghost room: { count ≤ length ring.now },
    ghost inside: { 0 < length ring.now → head < length ring.now },
}

impl<'q> Queue<'q> {
    pub(crate) fn new(ring: &'q mut [u32]) -> Queue<'q>
        ensures { result.count ≡ 0 }
    {
        Queue {
            ring,
            head: 0,
            count: 0,
        }
    }

    // One node more waits, if there is room.
    pub(crate) fn push(&mut self, node: usize)
        ensures { self.new.count ≤ self.old.count + 1 }
    {
        let length = self.ring.len();
        let Ok(word) = u32::try_from(node) else {
            return;
        };
        if self.count < length {
            self.ring[(self.head + self.count) % length] = word;
            self.count += 1;
        }
    }

    // The node that waited longest.
    pub(crate) fn pop(&mut self) -> Option<usize>
        ensures { MatchOption result (self.new.count ≡ 0) (λ _. self.new.count + 1 ≡ self.old.count) }
    {
        if self.count == 0 {
            return None;
        }
        let node = self.ring[self.head];
        self.head = (self.head + 1) % self.ring.len();
        self.count -= 1;
        Some(node as usize)
    }
}
