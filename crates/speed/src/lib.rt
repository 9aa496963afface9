// The task compiler by numbers, a large net, and the reader, for a benchmark; `speed_c` hands them to Rust.
#![tactic(auto)]

ghost use Rattle.std.specs.Prelude.{◌≡◌, ◌^◌, ◌≤◌, map, length, slice_index_or, take};
ghost use Rattle.ltlf.specs.Numbering.{states};
ghost use Rattle.ltlf.specs.Prefix.{meaning};
ghost use Rattle.speed.specs.Codes.{operator_at, told_of, told_for};
ghost use Rattle.task.specs.Faults.{task_fault};

mod reading;
mod shuffled;

use ltlf::operator::Operator;
pub use reading::jackdawwire_read;
pub use shuffled::jackdawwire_reach;
use std::array;
use task::Task;

// The operator of a code, by which C names it: 1 to 8 for not, and, or, next, weak, until, eventually and always, 16 + m
// for mark m, others for true.
fn operator_of(code: u8) -> Operator
    ensures { result ≡ operator_at code }
{
    match code {
        1 => Operator::Not,
        2 => Operator::And,
        3 => Operator::Or,
        4 => Operator::Next,
        5 => Operator::Weak,
        6 => Operator::Until,
        7 => Operator::Eventually,
        8 => Operator::Always,
        16..=31 => Operator::Mark(code - 16),
        _ => Operator::True,
    }
}

// The operator of the code at place i, and past the codes that of code 0, which is true.
fn nth_operator(codes: &[u8], i: usize) -> Operator
    ensures { result ≡ operator_at (slice_index_or codes.now i 0) }
{
    match codes.get(i) {
        Some(code) => operator_of(*code),
        None => Operator::True,
    }
}

// The operators of the codes, with others past them. Place by place: by a `map` of 80 codes, the last ones 0, a call with
// codes that are refused took a quarter more time.
fn operators_of(codes: &[u8]) -> [Operator; 80]
    requires { length codes.now ≤ 80 }
    ensures same { take (length codes.now) result ≡ map operator_at codes.now }
    ensures whole { length result ≡ 80 }
{
    array::from_fn(|i| nth_operator(codes, i))
}

// The number of states of the task, or 128 and the number of its refusal: one byte, for C.
fn told(marks: u8, operators: &[Operator]) -> u8
    ensures { result ≡ told_of (task_fault marks operators.now) (length (states (meaning operators.now) (2 ^ marks))) }
{
    match Task::compile(marks, operators) {
        Ok(task) => task.states(),
        Err(fault) => 128 + fault.number(),
    }
}

// The same from codes; 255 for more than 80 of them.
pub fn jackdawwire_compile(marks: u8, codes: &[u8]) -> u8
    ensures { result ≡ told_for marks codes.now }
{
    if codes.len() > 80 {
        return 255;
    }
    told(marks, &operators_of(codes)[0..codes.len()])
}
