//! When a reply is as a row wants it.
ghost use Rattle.std.specs.Prelude.{IsTrue};
ghost use Rattle.row_text.specs.Fit.{Fit, LineFits, texts};

/// Stands for one number, whichever it is.
const NUMBER: &[u8] = b":?";

/// Stands for any number of lines.
const GAP: &[u8] = b"..";

/// Whether the lines that came are those that are wanted, where `:?` is any number and `..` any number of lines.
pub fn fits(want: &[Vec<u8>], came: &[Vec<u8>]) -> bool
    ensures { IsTrue result → Fit (texts want.now) (texts came.now) }
{
    let Some((first, others)) = want.split_first() else {
        return came.is_empty();
    };
    if first.as_slice() == GAP {
        for skipped in 0..=came.len() {
            if fits(others, &came[skipped..]) {
                return true;
            }
        }
        return false;
    }
    match came.split_first() {
        Some((line, rest)) => line_fits(first.as_slice(), line.as_slice()) && fits(others, rest),
        None => false,
    }
}

// Whether a line is the one that is wanted.
fn line_fits(want: &[u8], came: &[u8]) -> bool
    ensures { IsTrue result → LineFits want.now came.now }
{
    if want == NUMBER {
        return !came.is_empty() && came[0] == b':';
    }
    want == came
}
