ghost use Rattle.std.specs.Prelude.{◌≡◌};
ghost use Rattle.ltlf.specs.Operators.{operands, is_temporal};

// An operator of a formula. A formula is the list of its operators in prefix order: each one stands before its operands.
#[derive(Clone, Copy, PartialEq, Eq, Debug)]
pub enum Operator {
    True,
    Mark(u8),
    Not,
    And,
    Or,
    Next,
    Weak,
    Until,
    Eventually,
    Always,
}

impl Operator {
    // How many operands follow the operator.
    pub fn operands(self) -> usize
        ensures { result ≡ operands self }
    {
        match self {
            Operator::True | Operator::Mark(_) => 0,
            Operator::Not
            | Operator::Next
            | Operator::Weak
            | Operator::Eventually
            | Operator::Always => 1,
            Operator::And | Operator::Or | Operator::Until => 2,
        }
    }

    // Whether the operator speaks of other positions, and so has a bit in every forecast.
    pub fn is_temporal(self) -> bool
        ensures { result ≡ is_temporal self }
    {
        match self {
            Operator::Next
            | Operator::Weak
            | Operator::Until
            | Operator::Eventually
            | Operator::Always => true,
            Operator::True | Operator::Mark(_) | Operator::Not | Operator::And | Operator::Or =>
                false,
        }
    }
}
