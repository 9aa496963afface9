ghost use Rattle.std.specs.Prelude.{◌≡◌, ℕ, ◌≤◌, List, [], ◌∷◌, ◌++◌, length, IfOk, Some, None, MatchOption, MatchResult, ◌≢◌};
ghost use Rattle.form.specs.Forms.{Parts, Sound, written};
ghost use Rattle.taskform.specs.Gathering.{Holds, Spelt};
ghost use Rattle.taskform.specs.Descent.{Descended};
ghost use Rattle.taskform.specs.Words.{sort_of};
ghost use Rattle.taskform.specs.declared.sort.Sort.TheVariants.{Marked};

use crate::fault::Fault;
use crate::gathered::Gathered;
use crate::sort::{Sort, sort_of};
use form::{number, skip, word};
use ltlf::operator::Operator;

// What follows the space and the bracket that the text begins with.
fn opened<'t>(text: &'t [u8]) -> Option<&'t [u8]>
    ensures { MatchOption result ((rest : List ℕ) → text.now ≢ 32 ∷ (40 ∷ rest)) (λ rest. text.now ≡ 32 ∷ (40 ∷ rest.now)) }
{
    skip(skip(text, b' ')?, b'(')
}

// What follows the closing bracket that the text begins with.
fn closed<'t>(text: &'t [u8]) -> Result<&'t [u8], Fault>
    ensures { MatchResult result (λ rest. text.now ≡ 41 ∷ rest.now)
        (λ e. (e ≡ Fault.NotATask) × ((rest : List ℕ) → text.now ≢ 41 ∷ rest)) }
{
    skip(text, b')').ok_or(Fault::NotATask)
}

// A mark's number and the bracket after it.
fn mark<'t>(text: &'t [u8], gathered: &mut Gathered) -> Result<&'t [u8], Fault>
    ensures answer { (h : List ℕ) (ps : Parts) (after : List ℕ) (os : List Operator) → sort_of h ≡ Some Marked → Sound ps
        → text.now ≡ written ps ++ 41 ∷ after → Holds os gathered.old
        → Descended h ps after os gathered.new result }
    ensures shorter { IfOk result (λ rest. length rest.now ≤ length text.now) }
{
    let Some(digits) = skip(text, b' ') else {
        return Err(Fault::NotATask);
    };
    let (n, rest) = number(digits);
    gathered.push_mark(n);
    closed(rest)
}

// Gathers the operators of the task form that the text, after an opening bracket, begins with, and gives what follows it.
pub(crate) fn descend<'t>(text: &'t [u8], gathered: &mut Gathered) -> Result<&'t [u8], Fault>
    ensures answer { (h : List ℕ) (ps : Parts) (after : List ℕ) (os : List Operator) → Spelt h ps after text.now
        → Holds os gathered.old → Descended h ps after os gathered.new result }
    ensures shorter { IfOk result (λ rest. length rest.now ≤ length text.now) }
{
    let (head, rest) = word(text);
    let Some(sort) = sort_of(head) else {
        return Err(Fault::NotATask);
    };
    match sort {
        Sort::Truth => {
            gathered.push(Operator::True);
            closed(rest)
        }
        Sort::Marked => mark(rest, gathered),
        Sort::Unary(operator) => {
            gathered.push(operator);
            let Some(operand) = opened(rest) else {
                return Err(Fault::NotATask);
            };
            closed(descend(operand, gathered)?)
        }
        Sort::Binary(operator) => {
            gathered.push(operator);
            let Some(left) = opened(rest) else {
                return Err(Fault::NotATask);
            };
            let Some(right) = opened(descend(left, gathered)?) else {
                return Err(Fault::NotATask);
            };
            closed(descend(right, gathered)?)
        }
    }
}
