ghost use Rattle.std.specs.Prelude.{◌≡◌};
ghost use Rattle.form.specs.Viewing.{printed};

// May the byte stand on a line?
pub(crate) fn is_printed(b: u8) -> bool
    ensures { result ≡ printed b }
{
    (b' '..=b'~').contains(&b)
}
