ghost use Rattle.std.specs.Prelude.{◌≡◌, length};

use crate::numbered::Numbered;

// The automaton of a task by the numbers of its states. Arrays, with as many rows in use as there are states, since a task is
// `Copy` and made with no heap.
#[derive(Clone, Copy)]
pub struct Tables {
    pub numbered: Numbered,
    // by letter: the number of the state after it, as the first letter
    pub first: [u8; 64],
    // by state and letter: the number of the state after that
    pub next: [[u8; 64]; 64],
    ghost firsts: { length first ≡ 64 },
    ghost nexts: { length next ≡ 64 },
}

pub mod building;
pub mod distances;
