ghost use Rattle.std.specs.Prelude.{◌≡◌, ◌-◌, ◌<◌, ◌≤◌, [], replicate, slice_index};
ghost use Rattle.task.specs.Held.{held};

use super::{Stack, Words};

impl Words {
    // No formula yet, and no temporal operator: the last of `temporals` comes first.
    pub(crate) fn none(temporals: usize) -> Words
        requires few { temporals ≤ 6 }
        ensures held { held result.stack ≡ [] }
        ensures top { result.stack.top ≡ 64 }
        ensures told { held result.earlier ≡ replicate (6 - temporals) 0 }
        ensures number { result.earlier.top ≡ temporals }
    {
        Words {
            stack: Stack::zeros_from(64),
            earlier: Stack::zeros_from(temporals),
        }
    }

    // The truth of the first formula.
    pub(crate) fn truth(&self) -> u64
        requires some { self.now.stack.top < 64 }
        ensures { result ≡ slice_index (held self.now.stack) 0 }
    {
        self.stack.first()
    }

    // The bits of the earlier forecast.
    pub(crate) fn earlier(&self) -> [u64; 6]
        ensures { result ≡ self.now.earlier.words }
    {
        self.earlier.words
    }
}
