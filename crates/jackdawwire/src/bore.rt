ghost use Rattle.std.specs.Prelude.{◌≡◌};
ghost use Rattle.jackdawwire.specs.Passing.{letter_at, Passed};

use crate::visit::Visit;
use ltlf::operator::Operator;
use task::Task;

// Eventually mark 0, and later mark 1.
pub const TASK: [Operator; 6] = [
    Operator::Eventually,
    Operator::And,
    Operator::Mark(0),
    Operator::Next,
    Operator::Eventually,
    Operator::Mark(1),
];

// Down the bore to its last station, and back to the second.
pub const STATIONS: [u8; 6] = [0, 1, 2, 3, 2, 1];

// The letter of a station: station 3 has mark 0, and station 1 has mark 1.
pub fn letter_of(station: u8) -> u8
    ensures { result ≡ letter_at station }
{
    match station {
        1 => 2,
        3 => 1,
        _ => 0,
    }
}

// Passes a station, from the state before it, if there was one; none where the task has no such letter or state.
pub fn pass(task: &Task, before: Option<u8>, station: u8) -> Option<Visit>
    ensures { Passed task.now before station result }
{
    let letter = letter_of(station);
    let state = match before {
        Some(state) => task.next(state, letter)?,
        None => task.first(letter)?,
    };
    let fulfilled = task.accepts(state)?;
    let distance = task.distance(state);
    Some(Visit {
        station,
        letter,
        state,
        distance,
        fulfilled,
    })
}
