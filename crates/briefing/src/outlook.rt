ghost use Rattle.std.specs.Prelude.{◌≡◌};
ghost use Rattle.briefing.specs.Outlooks.{Looks};

use std::fmt;
use task::Task;

// What a task is up to after a first letter: how many states it has, and the least number of further letters to its end, if
// there is an end.
#[derive(Clone, Copy, Debug)]
pub struct Outlook {
    pub states: u8,
    pub distance: Option<u32>,
}

// What the task is up to after a first letter; none where the task has no such letter.
pub fn look_ahead(task: &Task, letter: u32) -> Option<Outlook>
    ensures { Looks task.now letter result }
{
    let state = task.first(u8::try_from(letter).ok()?)?;
    Some(Outlook {
        states: task.states(),
        distance: task.distance(state),
    })
}

impl fmt::Display for Outlook {
    fn fmt<W: fmt::Write>(&self, f: &mut fmt::Formatter<W>) -> fmt::Result {
        let states = self.states;
        match self.distance {
            Some(distance) => write!(f, "(states {states})\n(distance {distance})"),
            None => write!(f, "(states {states})\n(distance none)"),
        }
    }
}
