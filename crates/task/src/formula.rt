ghost use Rattle.std.specs.Prelude.{◌≡◌, ◌≤◌, true, length, take, is_some};
ghost use Rattle.ltlf.specs.Prefix.{formula, marks_below, temporals as count_temporal};

use ltlf::operator::Operator;

// A formula within the limits: its first `count` operators, in prefix order. They stand in an array with their count,
// since a task takes no heap and is `Copy`, which an `ArrayVec` is not.
#[derive(Clone, Copy)]
pub struct Formula {
    operators: [Operator; 64],
    count: usize,
    marks: u8,
    temporals: usize,
    ghost room: { length operators ≡ 64 },
    ghost fits: { count ≤ 64 },
    ghost one: { is_some (formula (take count operators)) ≡ true },
    ghost marked: { 1 ≤ marks },
    ghost few: { marks ≤ 6 },
    ghost below: { marks_below marks (take count operators) ≡ true },
    ghost counted: { temporals ≡ count_temporal (take count operators) },
    ghost shallow: { temporals ≤ 6 },
}

pub mod check;
pub mod evaluate;
