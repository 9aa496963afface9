ghost use Rattle.std.specs.Prelude.{◌≡◌, ℕ, List, ◌∷◌, take, drop, MatchOption, ◌≢◌};
ghost use Rattle.std.specs.List.{prefix_len};
ghost use Rattle.form.specs.Forms.{letter};
ghost use Rattle.form.specs.Viewing.{counted, uncounted};

// What follows the byte, if the text begins with it.
pub fn skip<'t>(text: &'t [u8], byte: u8) -> Option<&'t [u8]>
    ensures { MatchOption result ((rest : List ℕ) → text.now ≢ byte ∷ rest) (λ rest. text.now ≡ byte ∷ rest.now) }
{
    match text.split_first() {
        Some((b, rest)) if *b == byte => Some(rest),
        _ => None,
    }
}

// How many letters the text begins with.
fn letters(text: &[u8]) -> usize
    ensures { result ≡ prefix_len letter text.now }
{
    text.iter().take_while(|b| b.is_ascii_lowercase()).count()
}

// The letters that the text begins with, and what follows them.
pub fn word<'t>(text: &'t [u8]) -> (&'t [u8], &'t [u8])
    ensures front { result.0.now ≡ take (prefix_len letter text.now) text.now }
    ensures rest { result.1.now ≡ drop (prefix_len letter text.now) text.now }
{
    text.split_at(letters(text))
}

// The number that the text begins with, of at most six digits, and what follows it. Without a digit the number is 0.
pub fn number<'t>(text: &'t [u8]) -> (u32, &'t [u8])
    ensures value { result.0 ≡ counted 0 text.now }
    ensures rest { result.1.now ≡ uncounted 0 text.now }
{
    // byte by byte from the front, since what is left is an answer too
    let mut left = text;
    let mut n = 0;
    while let Some((b, rest)) = left.split_first() {
        if !b.is_ascii_digit() || n >= 100000 {
            return (n, left);
        }
        n = n * 10 + u32::from(*b - b'0');
        left = rest;
    }
    (n, left)
}
