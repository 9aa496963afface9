ghost use Rattle.std.specs.Prelude.{◌≡◌, ◌<◌, ◌≤◌, length, Some, None, Decides, MatchOption, MatchResult};
ghost use Rattle.ltlf.specs.Distance.{IsDistance};
ghost use Rattle.ltlf.specs.Grammar.{Writes};
ghost use Rattle.ltlf.specs.Ltlf.{Ltlf, Satisfies};
ghost use Rattle.ltlf.specs.Numbering.{accepts_by_number};
ghost use Rattle.ltlf.specs.Theorems.{LettersBelow, AcceptsSatisfying, AcceptsByNumber, NumbersStates, ReadsGrammar};
ghost use Rattle.task.specs.Compiled.{operators_of, task_formula, marks_of, letters_of, states_of, first_state, next_state, accepts_state, forecasts_of};
ghost use Rattle.task.specs.Faults.{task_fault};

use super::Task;
use crate::bits::bit_of;
use crate::fault::Fault;
use crate::formula::Formula;
use crate::tables::Tables;
use ltlf::operator::Operator;

impl Task {
    // The task of a formula over a number of marks, or the first of its questions that is answered no. Marks and operators
    // are two parameters, since both together, checked, are the task.
    pub fn compile(marks: u8, operators: &[Operator]) -> Result<Task, Fault>
        ensures answer { MatchResult result
            (λ t. (task_fault marks operators.now ≡ None) × (operators_of t ≡ operators.now) × (marks_of t ≡ marks))
            (λ e. task_fault marks operators.now ≡ Some e) }
        ensures grammar { MatchResult result
            (λ t. Writes operators.now (task_formula t))
            (λ e. e ≡ Fault.NotAFormula → (f : Ltlf) → Writes operators.now f → ⊥) }
        ensures theorems { (ReadsGrammar) × (NumbersStates) }
    {
        let formula = Formula::check(marks, operators)?;
        let letters = formula.letter_count();
        let tables = Tables::build(&formula.letters()[..letters]).ok_or(Fault::TooManyStates)?;
        let ending = formula.ending();
        let distances = tables.distances(letters, ending);
        Ok(Task {
            formula,
            tables,
            ending,
            distances,
        })
    }

    pub fn marks(&self) -> u8
        ensures { result ≡ marks_of self.now }
    {
        self.formula.marks()
    }

    // The operators that the task was made of: its formula in prefix order.
    pub fn operators(&self) -> &[Operator]
        ensures are { result.now ≡ operators_of self.now }
        ensures formula { Writes result.now (task_formula self.now) }
    {
        self.formula.operators()
    }

    // How many letters there are, numbered from 0.
    pub fn letters(&self) -> u8
        ensures { result ≡ letters_of self.now }
    {
        self.formula.letter_count() as u8
    }

    // How many states there are, numbered from 0.
    pub fn states(&self) -> u8
        ensures count { result ≡ length (states_of self.now) }
        ensures few { result ≤ 64 }
    {
        self.tables.numbered.count as u8
    }

    // The number of the state after a first letter.
    pub fn first(&self, letter: u8) -> Option<u8>
        ensures answer { result ≡ first_state (task_formula self.now) (letters_of self.now) letter }
        ensures within { MatchOption result (letters_of self.now ≤ letter) (λ q. q < length (states_of self.now)) }
    {
        if letter >= self.letters() {
            return None;
        }
        Some(self.tables.first[usize::from(letter)])
    }

    // The number of the state after a further letter.
    pub fn next(&self, state: u8, letter: u8) -> Option<u8>
        ensures answer { result ≡ next_state (task_formula self.now) (letters_of self.now) state letter }
        ensures within { MatchOption result
            (state < length (states_of self.now) → letters_of self.now ≤ letter)
            (λ q. q < length (states_of self.now)) }
    {
        if state >= self.states() || letter >= self.letters() {
            return None;
        }
        Some(self.tables.next[usize::from(state)][usize::from(letter)])
    }

    // Whether a state accepts: what was read so far satisfies the formula.
    pub fn accepts(&self, state: u8) -> Option<bool>
        ensures { result ≡ accepts_state (task_formula self.now) (letters_of self.now) state }
    {
        Some(bit_of(self.ending, self.forecasts(state)?))
    }

    // The least number of letters from a state to one that accepts; none where no letters lead there.
    pub fn distance(&self, state: u8) -> Option<u32>
        ensures answer { state < length (states_of self.now)
            → IsDistance (task_formula self.now) (letters_of self.now) state result }
        ensures unknown { length (states_of self.now) ≤ state → result ≡ None }
    {
        if self.states() <= state {
            return None;
        }
        let distance = self.distances[usize::from(state)];
        (distance < u32::MAX).then_some(distance)
    }

    // The forecasts of a state, a bit for each.
    pub fn forecasts(&self, state: u8) -> Option<u64>
        ensures { result ≡ forecasts_of (task_formula self.now) (letters_of self.now) state }
    {
        let states = self.tables.numbered.states();
        states.get(usize::from(state)).copied()
    }

    // Whether the letters satisfy the formula; none where one of them is no letter.
    pub fn satisfied_by(&self, letters: &[u8]) -> Option<bool>
        ensures theorems { (AcceptsSatisfying) × (AcceptsByNumber) }
        ensures answer { MatchOption result
            (LettersBelow (letters_of self.now) letters.now → ⊥)
            (λ b. LettersBelow (letters_of self.now) letters.now
            × (b ≡ accepts_by_number (task_formula self.now) (letters_of self.now) letters.now)
            × Decides b (Satisfies letters.now (task_formula self.now))) }
    {
        let Some((letter, rest)) = letters.split_first() else {
            return Some(false);
        };
        let mut state = self.first(*letter)?;
        for letter in rest {
            state = self.next(state, *letter)?;
        }
        self.accepts(state)
    }
}
