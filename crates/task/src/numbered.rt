ghost use Rattle.std.specs.Prelude.{◌≡◌, ◌≤◌, length};
ghost use Rattle.task.specs.Apart.{Apart};

// At most 64 states, each at its number: in the order in which they were met, none of them twice. They stand in an array
// with their count, since a task takes no heap and is `Copy`, which an `ArrayVec` is not.
#[derive(Clone, Copy)]
pub struct Numbered {
    states: [u64; 64],
    pub count: usize,
    // where to look for a state first: the last one that was met there; a hint is checked before it is believed
    hints: [u8; 256],
    ghost fits: { count ≤ 64 },
    ghost whole: { length states ≡ 64 },
    ghost hinted: { length hints ≡ 256 },
    ghost apart: { Apart count states },
}

pub mod meeting;
