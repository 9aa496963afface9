ghost use Rattle.std.specs.Prelude.{◌≡◌, ◌+◌, ◌≤◌, true, length, take, is_some, Some, Option, MatchResult};
ghost use Rattle.ltlf.specs.Grammar.{Writes};
ghost use Rattle.ltlf.specs.Prefix.{formula, mark_below, marks_below as all_below, temporals as count_temporal};
ghost use Rattle.task.specs.Faults.{formula_fault};
ghost use Rattle.task.specs.Written.{written, formula_of};

use super::Formula;
use crate::fault::Fault;
use ltlf::operator::Operator;

// Whether the operators are exactly one formula. Counted from the last operator: how many formulas stand there so far.
fn is_formula(operators: &[Operator]) -> bool
    ensures { result ≡ is_some (formula operators.now) }
{
    let mut formulas: usize = 0;
    for operator in operators.iter().rev() {
        let operands = operator.operands();
        if formulas < operands {
            return false;
        }
        formulas = formulas - operands + 1;
    }
    formulas == 1
}

// Whether the operator is a mark below this number, or no mark.
fn is_below(operator: Operator, marks: u8) -> bool
    ensures { result ≡ mark_below marks operator }
{
    match operator {
        Operator::Mark(mark) => mark < marks,
        _ => true,
    }
}

fn marks_below(operators: &[Operator], marks: u8) -> bool
    ensures { result ≡ all_below marks operators.now }
{
    operators.iter().all(|operator| is_below(*operator, marks))
}

fn count_temporals(operators: &[Operator]) -> usize
    ensures { result ≡ count_temporal operators.now }
{
    operators
        .iter()
        .map(|operator| usize::from(operator.is_temporal()))
        .sum()
}

// The operators in an array, with others past them.
fn held(operators: &[Operator]) -> [Operator; 64]
    requires { length operators.now ≤ 64 }
    ensures same { take (length operators.now) result ≡ operators.now }
    ensures whole { length result ≡ 64 }
{
    let mut array = [Operator::True; 64];
    array[..operators.len()].copy_from_slice(operators);
    array
}

impl Formula {
    // The formula, or the first of its questions that is answered no.
    pub(crate) fn check(marks: u8, operators: &[Operator]) -> Result<Formula, Fault>
        ensures { MatchResult result
            (λ f. ((later : Option Fault) → formula_fault marks operators.now later ≡ later)
            × (written f ≡ operators.now) × (f.marks ≡ marks))
            (λ e. (later : Option Fault) → formula_fault marks operators.now later ≡ Some e) }
    {
        if !is_formula(operators) {
            return Err(Fault::NotAFormula);
        }
        if !(1..=6).contains(&marks) || !marks_below(operators, marks) {
            return Err(Fault::OutOfRange);
        }
        if operators.len() > 64 {
            return Err(Fault::TooManyOperators);
        }
        let temporals = count_temporals(operators);
        if temporals > 6 {
            return Err(Fault::TooManyTemporal);
        }
        Ok(Formula {
            operators: held(operators),
            count: operators.len(),
            marks,
            temporals,
        })
    }

    pub(crate) fn marks(&self) -> u8
        ensures { result ≡ self.now.marks }
    {
        self.marks
    }

    pub(crate) fn operators(&self) -> &[Operator]
        ensures are { result.now ≡ written self.now }
        ensures formula { Writes result.now (formula_of self.now) }
    {
        &self.operators[0..self.count]
    }
}
