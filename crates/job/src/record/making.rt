ghost use Rattle.std.specs.Prelude.{◌≡◌, false, IfOk};
ghost use Rattle.job.specs.Contents.{empty};
ghost use Rattle.job.specs.Records.{contents_of, draft_of};
ghost use Rattle.job.specs.Taking.{blank};

use super::Job;
use crate::draft::Draft;
use std::alloc::{AllocError, Global};

impl Job {
    // An emptied record, with the room for any job.
    pub fn new(heap: Global) -> Result<Job, AllocError>
        ensures { IfOk result (λ j. (j.held ≡ false) × (contents_of j ≡ empty)) }
    {
        let draft = Draft::new(heap)?;
        Ok(Job { held: false, draft })
    }

    // Empties the record.
    pub fn clear(&mut self)
        ensures unheld { self.new.held ≡ false }
        ensures emptied { contents_of self.new ≡ empty }
        ensures begun { draft_of self.new.draft ≡ blank }
    {
        self.held = false;
        self.draft.clear();
    }
}
