//! A text read from run to run.
ghost use Rattle.std.specs.Prelude.{◌≡◌, ◌≤◌, ◌+◌, length, drop, take};
ghost use Rattle.token_text.specs.Runs.{begins_escape};
ghost use Rattle.token_text.specs.Slices.{between};
ghost use Rattle.token_text.specs.Tokens.{lowered, runs, split, units};

use ft_base::is_separator;
use lane_kernels::{first_separator, lower_into};

/// A run that was read: up to where its word lies in the buffer, and where it ends in the text, at a
/// separator or at the text's end.
pub(crate) struct Run {
    pub to: usize,
    pub end: usize,
}

/// Reads the run that begins at a place of a text. A buffer of the same length holds the text lowered
/// from there on. The run's word lies in it from that place on: where the backslash of an escape goes,
/// what comes after it moves up.
pub(crate) fn next_run(text: &[u8], bytes: &mut [u8], from: usize) -> Run
    requires inside { from ≤ length text.now }
    requires long { length bytes.old ≡ length text.now }
    requires lowered { drop from bytes.old ≡ lowered (drop from text.now) }
    ensures word { between bytes.new from result.to ≡ lowered (split (units (drop from text.now))).0 }
    ensures others { (split (units (drop from text.now))).1 ≡ runs (drop (result.end + 1) text.now) }
    ensures some { from ≤ result.to }
    ensures order { result.to ≤ result.end }
    ensures within { result.end ≤ length text.now }

    // What becomes of the buffer.
    ensures long { length bytes.new ≡ length bytes.old }
    ensures kept { take from bytes.new ≡ take from bytes.old }
    ensures unread { drop (result.end + 1) bytes.new ≡ lowered (drop (result.end + 1) text.now) }
{
    let mut end = first_separator(text, from);
    let mut to = end;
    'escapes: while begins_escape(&text[end..]) {
        let next = first_separator(text, end + 2);
        let more = next - end - 1;
        lower_into(&text[end + 1..next], &mut bytes[to..to + more]);
        to += more;
        end = next;
    }
    Run { to, end }
}

/// Whether a separator comes that a backslash before it escapes.
fn begins_escape(text: &[u8]) -> bool
    ensures { result ≡ begins_escape text.now }
{
    match text {
        [b'\\', escaped, ..] => is_separator(*escaped),
        _ => false,
    }
}
