ghost use Rattle.std.specs.Prelude.{◌≡◌, ◌^◌, ◌<◌, ◌≤◌};
ghost use Rattle.ltlf.specs.Forecasts.{ending};
ghost use Rattle.task.specs.Acts.{Acts, ActsAll};
ghost use Rattle.task.specs.Written.{formula_of};

use super::Formula;
use crate::letter::Letter;
use crate::words::Words;
use ltlf::operator::Operator;

impl Formula {
    // What a letter does to the states: the formula evaluated once, for all forecasts.
    pub(crate) fn letter(&self, letter: u8) -> Letter
        ensures { Acts (formula_of self.now) letter result }
    {
        let mut words = Words::none(self.temporals);
        for operator in self.operators().iter().rev() {
            words.apply(*operator, letter);
        }
        Letter::new(words.truth(), &words.earlier(), self.temporals)
    }

    // How many letters there are: one for each set of marks.
    pub(crate) fn letter_count(&self) -> usize
        ensures is { result ≡ 2 ^ self.now.marks }
        ensures few { result ≤ 64 }
    {
        1 << self.marks
    }

    // What each letter does, at its place, and nothing past them: each letter takes time.
    pub(crate) fn letters(&self) -> [Letter; 64]
        ensures { ActsAll (formula_of self.now) (2 ^ self.now.marks) result }
    {
        let mut letters = [Letter::none(); 64];
        for (a, letter) in letters[..self.letter_count()].iter_mut().enumerate() {
            *letter = self.letter(a as u8);
        }
        letters
    }

    // The end forecast: a 1 for each weak, from the last temporal operator to the first.
    pub(crate) fn ending(&self) -> u8
        ensures value { result ≡ ending (formula_of self.now) }
        ensures small { result < 64 }
    {
        let mut end: u8 = 0;
        for operator in self.operators().iter().rev() {
            if let Operator::Weak = operator {
                end = 2 * end + 1;
            } else if operator.is_temporal() {
                end = 2 * end;
            }
        }
        end
    }
}
