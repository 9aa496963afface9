ghost use Rattle.std.specs.Prelude.{◌≡◌, ◌≤◌, true, List, is_some, Some, None, MatchResult};
ghost use Rattle.ltlf.specs.Prefix.{formula};
ghost use Rattle.task.specs.Compiled.{operators_of, marks_of};
ghost use Rattle.task.specs.Faults.{task_fault};
ghost use Rattle.taskform.specs.Faults.{compile_fault};
ghost use Rattle.taskform.specs.Gathering.{Holds};
ghost use Rattle.taskform.specs.Compiling.{Compiled};
ghost use Rattle.taskform.specs.Theorems.{TaskForms};

use crate::descent::descend;
use crate::fault::Fault;
use crate::gathered::Gathered;
use ltlf::operator::Operator;
use task::Task;

// The task of gathered operators over a number of marks, or the first limit that they break.
fn limited(marks: u8, gathered: &Gathered) -> Result<Task, task::Fault>
    ensures { (os : List Operator) → Holds os gathered.now → is_some (formula os) ≡ true → MatchResult result
        (λ t. (task_fault marks os ≡ None) × (operators_of t ≡ os) × (marks_of t ≡ marks))
        (λ e. task_fault marks os ≡ Some e) }
{
    // by comparisons: with `contains` the three cases did not come apart in the proof
    if marks < 1 || marks > 6 || gathered.marks() > u32::from(marks) {
        return Err(task::Fault::OutOfRange);
    }
    let Some(operators) = gathered.operators() else {
        return Err(task::Fault::TooManyOperators);
    };
    Task::compile(marks, operators)
}

// The task of the form that the text is, over a number of marks, or the first of its questions that is answered no.
pub fn compile(marks: u8, text: &[u8]) -> Result<Task, Fault>
    ensures answer { Compiled marks text.now result }
    ensures theorems { TaskForms }
{
    form::check(text)?;
    let Some(inside) = form::skip(text, b'(') else {
        return Err(Fault::NotATask);
    };
    let mut gathered = Gathered::none();
    descend(inside, &mut gathered)?;
    Ok(limited(marks, &gathered)?)
}
