ghost use Rattle.std.specs.Prelude.{◌≡◌};
ghost use Rattle.taskform.specs.Words.{sort_of};

use ltlf::operator::Operator;

// What an operator's word takes as its parts.
#[derive(Clone, Copy)]
pub enum Sort {
    // nothing
    Truth,
    // a mark's number
    Marked,
    // one task form
    Unary(Operator),
    // two task forms
    Binary(Operator),
}

// What a word takes; none for a word that no operator has.
pub(crate) fn sort_of(word: &[u8]) -> Option<Sort>
    ensures { result ≡ sort_of word.now }
{
    match word {
        b"true" => Some(Sort::Truth),
        b"mark" => Some(Sort::Marked),
        b"not" => Some(Sort::Unary(Operator::Not)),
        b"and" => Some(Sort::Binary(Operator::And)),
        b"or" => Some(Sort::Binary(Operator::Or)),
        b"next" => Some(Sort::Unary(Operator::Next)),
        b"weak" => Some(Sort::Unary(Operator::Weak)),
        b"until" => Some(Sort::Binary(Operator::Until)),
        b"eventually" => Some(Sort::Unary(Operator::Eventually)),
        b"always" => Some(Sort::Unary(Operator::Always)),
        _ => None,
    }
}
