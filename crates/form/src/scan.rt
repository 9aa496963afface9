ghost use Rattle.std.specs.Prelude.{◌≡◌, if◌then◌else◌};
ghost use Rattle.form.specs.Scanning.{stopped, moved};
ghost use Rattle.form.specs.Checking.{checked};
ghost use Rattle.form.specs.Viewing.{plain};

use crate::bytes::is_printed;
use crate::fault::Fault;

// Where a scan stands, and how many brackets are open around the innermost.
#[derive(Clone, Copy, PartialEq, Eq)]
enum Scan {
    Start,
    Opened(u8),
    Word(u8),
    Gap(u8),
    Number(u8, u32),
    After(u8),
    Done,
}

impl Scan {
    // After a head or a part: a space or a bracket follows.
    fn stopped(around: u8, b: u8) -> Option<Scan>
        ensures { result ≡ stopped around b }
    {
        match b {
            b' ' => Some(Scan::Gap(around)),
            b')' if around == 0 => Some(Scan::Done),
            b')' => Some(Scan::After(around - 1)),
            _ => None,
        }
    }

    // Where the scan stands after one byte more; none where no form begins so.
    fn next(self, b: u8) -> Option<Scan>
        ensures { result ≡ moved self b }
    {
        match self {
            Scan::Start if b == b'(' => Some(Scan::Opened(0)),
            Scan::Opened(around) if b.is_ascii_lowercase() => Some(Scan::Word(around)),
            Scan::Word(around) if b.is_ascii_lowercase() => Some(Scan::Word(around)),
            Scan::Word(around) => Scan::stopped(around, b),
            Scan::Gap(around) if b.is_ascii_digit() => {
                Some(Scan::Number(around, u32::from(b - b'0')))
            }
            Scan::Gap(around) if b == b'(' && around < 15 => Some(Scan::Opened(around + 1)),
            Scan::Number(around, n) if b.is_ascii_digit() && n > 0 && n < 100000 => {
                Some(Scan::Number(around, n * 10 + u32::from(b - b'0')))
            }
            Scan::Number(around, _) => Scan::stopped(around, b),
            Scan::After(around) => Scan::stopped(around, b),
            _ => None,
        }
    }
}

// Why bytes that are no form are refused: a byte that is not printed is told first, also where it comes after the form
// went wrong.
fn refusal(text: &[u8]) -> Fault
    ensures { result ≡ (if plain text.now then Fault.Shape else Fault.Byte) }
{
    if text.iter().all(|b| is_printed(*b)) {
        Fault::Shape
    } else {
        Fault::Byte
    }
}

// Is the text printed, and one well-spaced form, at most 16 brackets deep?
pub fn check(text: &[u8]) -> Result<(), Fault>
    ensures { result ≡ checked text.now }
{
    // a place and no option of one from byte to byte: by `and_then` a byte took two fifths more steps
    let mut scan = Scan::Start;
    for b in text {
        if !is_printed(*b) {
            return Err(Fault::Byte);
        }
        let Some(next) = scan.next(*b) else {
            return Err(refusal(text));
        };
        scan = next;
    }
    if scan == Scan::Done {
        Ok(())
    } else {
        Err(Fault::Shape)
    }
}
