ghost use Rattle.std.specs.Prelude.{◌≤◌, vec_len, vec_capacity};

use crate::place::{Kind, Place};
use chart::{Leg, Zone};
use task::Task;

// A job as far as it was read, and which line may come next; with the room for any job.
#[derive(Drop)]
pub struct Draft {
    pub(crate) place: Place,
    pub(crate) marks: u32,
    pub(crate) kind: Option<Kind>,
    // of a table: a letter for each station, and the legs
    pub(crate) letters: Vec<u32>,
    pub(crate) legs: Vec<Leg>,
    // of a bore
    pub(crate) zones: Vec<Zone>,
    pub(crate) task: Option<Task>,
    pub(crate) start: u32,
    pub(crate) lookahead: u32,
    ghost letter_room: { 256 ≤ vec_capacity letters },
    ghost leg_room: { 1024 ≤ vec_capacity legs },
    ghost zone_room: { 8 ≤ vec_capacity zones },
    ghost few: { vec_len letters ≤ 256 },
    ghost marked: { marks ≤ 6 },
}

pub mod charting;
pub mod making;
pub mod taking;
pub mod writing;
