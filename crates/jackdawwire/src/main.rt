// Follows one task along the stations of a small bore, and prints each station that is passed.
#![tactic(auto)]

mod bore;
mod refused;
mod visit;

use bore::{STATIONS, TASK, letter_of, pass};
use refused::Refused;
use std::io;
use task::{Fault, Task};

// Passes the stations one by one, and asks at the end whether their letters satisfy the task.
fn follow(rt: &HostRuntime, task: &Task) -> io::Result<()> {
    let mut state = None;
    for station in STATIONS {
        let Some(visit) = pass(task, state, station) else {
            let refused = Refused {
                fault: Fault::OutOfRange,
            };
            return println!(rt; "{refused}");
        };
        println!(rt; "{visit}")?;
        state = Some(visit.state);
    }
    let letters = STATIONS.map(letter_of);
    if let Some(satisfied) = task.satisfied_by(&letters) {
        let answer = u8::from(satisfied);
        println!(rt; "(satisfied {answer})")?;
    }
    Ok(())
}

fn main(rt: HostRuntime) -> io::Result<()> {
    match Task::compile(2, &TASK) {
        Ok(task) => follow(&rt, &task),
        Err(fault) => {
            let refused = Refused { fault };
            println!(rt; "{refused}")
        }
    }
}
