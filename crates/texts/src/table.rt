ghost use Rattle.std.specs.Prelude.{◌<◌, ◌≤◌, IfOk, length};

use job::Refused;
use std::alloc::{AllocError, Global};
use std::fmt;

// What a text is answered: it is accepted, and its job is written back just so, or otherwise; or it is refused.
#[derive(Clone, Copy, PartialEq, Eq, Debug)]
pub(crate) enum Answer {
    Accepted,
    WrittenOtherwise,
    // with a number, at a line
    Refused(u32, u32),
}

impl From<Refused> for Answer {
    fn from(refused: Refused) -> Answer {
        Answer::Refused(u32::from(refused.fault.number()), refused.line)
    }
}

impl fmt::Display for Answer {
    fn fmt<W: fmt::Write>(&self, f: &mut fmt::Formatter<W>) -> fmt::Result {
        match self {
            Answer::Accepted => f.write_str("0 0"),
            Answer::WrittenOtherwise => f.write_str("1000 0"),
            Answer::Refused(number, line) => write!(f, "{number} {line}"),
        }
    }
}

// A row of the table: what its text is to be answered, and the text in the table's writing.
#[derive(Clone, Copy)]
pub(crate) struct Row<'t> {
    pub answer: Answer,
    pub text: &'t [u8],
}

// The row that a line of the table is, which begins with two noughts for a text that is accepted; none for a comment.
pub(crate) fn row_of<'t>(line: &'t [u8]) -> Option<Row<'t>> {
    let (number, rest) = form::number(line);
    let (at, rest) = form::number(form::skip(rest, b' ')?);
    let text = form::skip(rest, b' ')?;
    let answer = match (number, at) {
        (0, 0) => Answer::Accepted,
        (1000, 0) => Answer::WrittenOtherwise,
        _ => Answer::Refused(number, at),
    };
    Some(Row { answer, text })
}

// The value of a hexadecimal digit; 0 for another byte.
fn hex(digit: u8) -> u8
    ensures { result < 16 }
{
    match digit {
        b'0'..=b'9' => digit - b'0',
        b'a'..=b'f' => digit - b'a' + 10,
        _ => 0,
    }
}

// A bar stands for a line feed.
fn plain(b: u8) -> u8 {
    if b == b'|' { b'\n' } else { b }
}

// The byte of two digits, and what follows them.
fn push_coded<'t>(text: &mut Vec<u8>, coded: &'t [u8]) -> Result<&'t [u8], AllocError>
    ensures { IfOk result (λ rest. length rest.now ≤ length coded.now) }
{
    let [high, low, rest @ ..] = coded else {
        return Ok(&[]);
    };
    text.push(hex(*high) * 16 + hex(*low))?;
    Ok(rest)
}

// Byte by byte: by `extend`, asked for each repetition, a body of one byte took nearly twice the time.
fn push_all(text: &mut Vec<u8>, bytes: &[u8]) -> Result<(), AllocError> {
    for b in bytes {
        text.push(plain(*b))?;
    }
    Ok(())
}

// The bytes after the colon, as often as the count before it says, and what follows the bracket that closes them.
fn push_repeated<'t>(text: &mut Vec<u8>, coded: &'t [u8]) -> Result<&'t [u8], AllocError>
    ensures { IfOk result (λ rest. length rest.now ≤ length coded.now) }
{
    let Some(colon) = coded.iter().position(|b| *b == b':') else {
        return Ok(&[]);
    };
    let count = coded[..colon].iter().fold(0u32, |count, b| {
        count.saturating_mul(10).saturating_add(u32::from(hex(*b)))
    });
    let body = &coded[colon + 1..];
    let Some(end) = body.iter().position(|b| *b == b']') else {
        return Ok(&[]);
    };
    for _ in 0..count {
        push_all(text, &body[..end])?;
    }
    Ok(&body[end + 1..])
}

// The text of a row: a bar stands for a line feed, `~` with two digits for a byte, `[count:bytes]` for bytes repeated.
pub(crate) fn expand(heap: Global, coded: &[u8]) -> Result<Vec<u8>, AllocError> {
    let mut text = Vec::new(heap);
    let mut left = coded;
    // a `while`, since a code takes several bytes
    while let Some((b, rest)) = left.split_first() {
        left = match b {
            b'~' => push_coded(&mut text, rest)?,
            b'[' => push_repeated(&mut text, rest)?,
            _ => {
                text.push(plain(*b))?;
                rest
            }
        };
    }
    Ok(text)
}
