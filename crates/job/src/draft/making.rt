ghost use Rattle.std.specs.Prelude.{◌≡◌, IfOk};
ghost use Rattle.job.specs.Records.{draft_of};
ghost use Rattle.job.specs.Taking.{blank};

use super::Draft;
use crate::place::Place;
use std::alloc::{AllocError, Global};

impl Draft {
    // Before the first line.
    pub(crate) fn new(heap: Global) -> Result<Draft, AllocError>
        ensures { IfOk result (λ d. draft_of d ≡ blank) }
    {
        let letters = Vec::with_capacity(heap, 256)?;
        let legs = Vec::with_capacity(heap, 1024)?;
        let zones = Vec::with_capacity(heap, 8)?;
        Ok(Draft {
            place: Place::Version,
            marks: 0,
            kind: None,
            letters,
            legs,
            zones,
            task: None,
            start: 0,
            lookahead: 0,
        })
    }

    // Back before the first line.
    pub(crate) fn clear(&mut self)
        ensures { draft_of self.new ≡ blank }
    {
        self.place = Place::Version;
        self.marks = 0;
        self.kind = None;
        self.task = None;
        self.start = 0;
        self.lookahead = 0;
    }
}
