// Linear temporal logic over finite traces: formulas, what they mean, and the automaton of one.
#![tactic(auto)]

pub mod operator;
