ghost use Rattle.std.specs.Prelude.{◌≡◌, [], ◌∷◌, ◌++◌, Some, None, MatchOption};
ghost use Rattle.form.specs.Forms.{Parts as TreeParts, written, Sound};
ghost use Rattle.form.specs.Reading.{ReadingRight};
ghost use Rattle.form.specs.Viewing.{piece, pieces, Shows, Reads, FormsPlain, enclosed, parted};

use crate::cursor::{number, skip, word};
use crate::fault::Fault;
use crate::scan::check;

// A part of a form: a number, or the bytes of a form.
#[derive(Clone, Copy)]
pub enum Part<'t> {
    Number(u32),
    Form(&'t [u8]),
}

// The parts of a form, if there are at most three, and otherwise that there are more: an enum and no list, so that one
// pattern asks how many they are and which, and no memory is taken.
#[derive(Clone, Copy)]
pub enum Parts<'t> {
    Zero,
    One(Part<'t>),
    Two(Part<'t>, Part<'t>),
    Three(Part<'t>, Part<'t>, Part<'t>),
    More,
}

// A form: its head word, and its parts.
#[derive(Clone, Copy)]
pub struct Form<'t> {
    pub head: &'t [u8],
    pub parts: Parts<'t>,
}

// How many bytes there are up to the bracket, itself among them, that closes the one opened before the text; all of them
// where none does, which no checked form is.
fn span(text: &[u8]) -> usize
    ensures { result ≡ enclosed 0 text.now }
{
    // how many inner brackets are open
    let mut open: usize = 0;
    for (i, b) in text.iter().enumerate() {
        if *b == b')' {
            if open == 0 {
                return i + 1;
            }
            open -= 1;
        } else if *b == b'(' {
            open += 1;
        }
    }
    text.len()
}

// The next part, and what follows it.
fn next_part<'t>(text: &'t [u8]) -> Option<(Part<'t>, &'t [u8])>
    ensures { MatchOption result (parted text.now ≡ None) (λ p. parted text.now ≡ Some (piece p.0, p.1.now)) }
{
    let rest = skip(text, b' ')?;
    let Some(inside) = skip(rest, b'(') else {
        let (n, left) = number(rest);
        return Some((Part::Number(n), left));
    };
    let (form, left) = rest.split_at(1 + span(inside));
    Some((Part::Form(form), left))
}

// The parts up to the bracket that closes the form.
fn parts_of<'t>(text: &'t [u8]) -> Parts<'t>
    ensures { (ps : TreeParts) → Sound ps → text.now ≡ written ps ++ 41 ∷ [] → Shows result (pieces ps) }
{
    let Some((a, rest)) = next_part(text) else {
        return Parts::Zero;
    };
    let Some((b, rest)) = next_part(rest) else {
        return Parts::One(a);
    };
    let Some((c, rest)) = next_part(rest) else {
        return Parts::Two(a, b);
    };
    match next_part(rest) {
        None => Parts::Three(a, b, c),
        Some(_) => Parts::More,
    }
}

// The form that the text is: its head, and up to three parts.
pub fn read<'t>(text: &'t [u8]) -> Result<Form<'t>, Fault>
    ensures answer { Reads text.now result }
    ensures theorems { (ReadingRight) × (FormsPlain) }
{
    check(text)?;
    let Some(inside) = skip(text, b'(') else {
        return Err(Fault::Shape);
    };
    let (head, rest) = word(inside);
    Ok(Form {
        head,
        parts: parts_of(rest),
    })
}
