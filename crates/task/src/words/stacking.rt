ghost use Rattle.std.specs.Prelude.{◌≡◌, ◌+◌, ◌-◌, ◌<◌, ◌≤◌, ◌∷◌, length, replicate, slice_index};
ghost use Rattle.task.specs.Held.{held};

use super::Stack;

impl<const N: usize> Stack<N> {
    // Zeros from a place on, and no words before it.
    pub(crate) fn zeros_from(top: usize) -> Self
        requires few { top ≤ N }
        ensures held { held result ≡ replicate (N - top) 0 }
        ensures top { result.top ≡ top }
    {
        Stack { words: [0; N], top }
    }

    pub(crate) fn push(&mut self, word: u64)
        requires room { 0 < self.old.top }
        ensures held { held self.new ≡ word ∷ held self.old }
        ensures top { self.new.top + 1 ≡ self.old.top }
    {
        self.top -= 1;
        self.words[self.top] = word;
    }

    pub(crate) fn pop(&mut self) -> u64
        requires some { self.old.top < N }
        ensures held { held self.old ≡ result ∷ held self.new }
        ensures top { self.new.top ≡ self.old.top + 1 }
    {
        let word = self.words[self.top];
        self.top += 1;
        word
    }

    pub(crate) fn first(&self) -> u64
        requires some { self.now.top < N }
        ensures { result ≡ slice_index (held self.now) 0 }
    {
        self.words[self.top]
    }
}
