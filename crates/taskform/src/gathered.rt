ghost use Rattle.std.specs.Prelude.{◌≡◌, ◌<◌, ◌≤◌, List, [], ◌∷◌, ◌++◌, length, MatchOption};
ghost use Rattle.ltlf.specs.declared.operator.Operator.TheVariants.{Mark};
ghost use Rattle.taskform.specs.Gathering.{Holds, marks_for, marks_in};

use ltlf::operator::Operator;

// The operators of a task form as far as it was read: the first 64 in an array, how many there are, and how many marks they
// need. No vector, since reading a form takes no memory, and no `ArrayVec`, since what does not fit is counted too.
#[derive(Clone, Copy)]
pub struct Gathered {
    operators: [Operator; 64],
    count: usize,
    marks: u32,
}

// How many marks an operator needs.
fn marks_for(operator: Operator) -> u32
    ensures { result ≡ marks_for operator }
{
    match operator {
        Operator::Mark(mark) => u32::from(mark) + 1,
        _ => 0,
    }
}

impl Gathered {
    pub(crate) fn none() -> Gathered
        ensures { Holds [] result }
    {
        Gathered {
            operators: [Operator::True; 64],
            count: 0,
            marks: 0,
        }
    }

    // How many marks the operators need.
    pub(crate) fn marks(&self) -> u32
        ensures { result ≡ self.now.marks }
    {
        self.marks
    }

    // The operators, if there are at most 64.
    pub(crate) fn operators(&self) -> Option<&[Operator]>
        ensures { (os : List Operator) → Holds os self.now → marks_in os ≤ 256
            → MatchOption result (64 < length os) (λ kept. kept.now ≡ os) }
    {
        self.operators.get(..self.count)
    }

    // One operator more, with the marks that it needs. If these are more than 256, any operator may stand for it.
    fn keep(&mut self, operator: Operator, marks: u32)
        ensures { (os : List Operator) (o : Operator) → Holds os self.old → marks_for o ≡ marks
            → (marks ≤ 256 → operator ≡ o) → Holds (os ++ o ∷ []) self.new }
    {
        self.marks = self.marks.max(marks);
        if self.count < 64 {
            self.operators[self.count] = operator;
        }
        self.count = self.count.saturating_add(1);
    }

    // One operator more.
    pub(crate) fn push(&mut self, operator: Operator)
        ensures { (os : List Operator) → Holds os self.old → Holds (os ++ operator ∷ []) self.new }
    {
        self.keep(operator, marks_for(operator));
    }

    // A mark of any number more.
    pub(crate) fn push_mark(&mut self, mark: u32)
        requires { mark ≤ 999999 }
        ensures { (os : List Operator) → Holds os self.old → Holds (os ++ Mark mark ∷ []) self.new }
    {
        self.keep(Operator::Mark((mark % 256) as u8), mark + 1);
    }
}
