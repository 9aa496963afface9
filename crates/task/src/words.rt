ghost use Rattle.std.specs.Prelude.{◌≡◌, ◌≤◌, length};

// The evaluation of a formula under one letter, from its last operator to its first, for all 64 forecasts at once:
// a word has bit w for forecast w.
#[derive(Clone, Copy)]
pub struct Words {
    // the truth of each formula that the operators so far make, the first one's word first
    pub(crate) stack: Stack<64>,
    // the bits of the earlier forecast; the place of the first is the number of the last temporal operator so far
    pub(crate) earlier: Stack<6>,
}

// Words in an array, from `top` on: filled from the end, which an `ArrayVec` is not, so that the words so far are a part of
// the array, the last one's first.
#[derive(Clone, Copy)]
pub struct Stack<const N: usize> {
    pub(crate) words: [u64; N],
    pub(crate) top: usize,
    ghost tall: { length words ≡ N },
    ghost fits: { top ≤ N },
}

pub mod apply;
pub mod forecast;
pub mod result;
pub mod stacking;
