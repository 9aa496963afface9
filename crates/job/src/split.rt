ghost use Rattle.std.specs.Prelude.{◌≡◌, ◌∷◌, ◌++◌, MatchOption};
ghost use Rattle.job.specs.Texts.{Unbroken};

// The bytes before the first line feed, and those after it.
pub(crate) fn split_line<'t>(text: &'t [u8]) -> Option<(&'t [u8], &'t [u8])>
    ensures { MatchOption result (Unbroken text.now) (λ p. (text.now ≡ p.0.now ++ 10 ∷ p.1.now) × Unbroken p.0.now) }
{
    let end = text.iter().position(|b| *b == b'\n')?;
    Some((&text[..end], &text[end + 1..]))
}
