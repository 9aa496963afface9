ghost use Rattle.std.specs.Prelude.{◌≡◌, ℕ, ◌+◌, ◌<◌, ◌≤◌, Bool, List, ◌∷◌, if◌then◌else◌, Some};
ghost use Rattle.ltlf.specs.Ltlf.{Ltlf};
ghost use Rattle.ltlf.specs.Operators.{operands, is_temporal};
ghost use Rattle.ltlf.specs.Prefix.{made};
ghost use Rattle.ltlf.specs.Evaluation.{Evaluates};
ghost use Rattle.task.specs.Held.{held};

use super::Words;
use crate::bits::{bit_of, spread};
use ltlf::operator::Operator;

impl Words {
    // The words with one operator more in front.
    pub(crate) fn apply(&mut self, operator: Operator, letter: u8)
        requires operands { self.old.stack.top + operands operator ≤ 64 }
        requires room { 0 < self.old.stack.top }
        requires counted { (if is_temporal operator then 1 else 0) ≤ self.old.earlier.top }
        ensures top { self.new.stack.top + 1 ≡ self.old.stack.top + operands operator }
        ensures number { self.new.earlier.top + (if is_temporal operator then 1 else 0) ≡ self.old.earlier.top }
        ensures evaluates { (fs gs : List Ltlf) (zs : List Bool) → made operator fs ≡ Some gs
            → Evaluates fs zs self.old.earlier.top letter (held self.old.stack) (held self.old.earlier)
            → Evaluates gs zs self.new.earlier.top letter (held self.new.stack) (held self.new.earlier) }
    {
        match operator {
            Operator::True => self.stack.push(u64::MAX),
            Operator::Mark(mark) => self.stack.push(spread(bit_of(mark, u64::from(letter)))),
            Operator::Not => {
                let f = self.stack.pop();
                self.stack.push(!f);
            }
            Operator::And => {
                let f = self.stack.pop();
                let g = self.stack.pop();
                self.stack.push(f & g);
            }
            Operator::Or => {
                let f = self.stack.pop();
                let g = self.stack.pop();
                self.stack.push(f | g);
            }
            Operator::Next | Operator::Weak => {
                let f = self.stack.pop();
                let holds = self.earlier.forecast();
                self.earlier.push(f);
                self.stack.push(holds);
            }
            Operator::Until => {
                let f = self.stack.pop();
                let g = self.stack.pop();
                let holds = g | (f & self.earlier.forecast());
                self.earlier.push(holds);
                self.stack.push(holds);
            }
            Operator::Eventually => {
                let f = self.stack.pop();
                let holds = f | self.earlier.forecast();
                self.earlier.push(holds);
                self.stack.push(holds);
            }
            Operator::Always => {
                let f = self.stack.pop();
                let broken = !f | self.earlier.forecast();
                self.earlier.push(broken);
                self.stack.push(!broken);
            }
        }
    }
}
