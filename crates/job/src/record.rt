ghost use Rattle.std.specs.Prelude.{◌≡◌, true};
ghost use Rattle.job.specs.Holding.{contents, right_if};

use crate::draft::Draft;

// A job, or an emptied record with the room for any job.
#[derive(Drop)]
pub struct Job {
    // whether the draft is a whole job: a flag, since the contracts speak of it, and no option, since the room stays
    held: bool,
    draft: Draft,
    ghost right: { right_if held (contents draft) ≡ true },
}

pub mod making;
pub mod reading;
pub mod views;
pub mod writing;
