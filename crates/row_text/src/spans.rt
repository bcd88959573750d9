//! Where the words of a line lie, and whether a server takes them as a command.
ghost use Rattle.std.specs.Prelude.{◌<◌, ◌↔◌, length, IsTrue};
ghost use Rattle.ft_base.specs.Words.{KeepsLimits};
ghost use Rattle.ft_base.specs.Spans.{LieIn, words_of};

use ft_base::Span;

/// The most bytes of a line, and the most words.
const LINE: usize = 200;

/// Writes where the words of a line begin and end, which has one such byte between each two. A word for which memory
/// ran out is left out.
pub fn part(line: &[u8], separator: u8, spans: &mut Vec<Span>) {
    spans.clear();
    let mut from = 0;
    for to in 0..line.len() {
        if line[to] == separator {
            let _ = spans.push(Span { from, to });
            from = to + 1;
        }
    }
    let _ = spans.push(Span {
        from,
        to: line.len(),
    });
}

/// Whether there are words that keep the limits, with much to spare.
pub fn is_small(line: &[u8], spans: &[Span]) -> bool
    ensures inside { IsTrue result → LieIn line.now spans.now }
    ensures some { IsTrue result → 0 < length spans.now }
    ensures limits { IsTrue result → KeepsLimits (words_of line.now spans.now) }
{
    if !lie_in(line, spans) {
        return false;
    }
    if LINE < line.len() {
        return false;
    }
    if LINE < spans.len() {
        return false;
    }
    0 < spans.len()
}

fn lie_in(bytes: &[u8], spans: &[Span]) -> bool
    ensures { IsTrue result ↔ LieIn bytes.now spans.now }
{
    spans
        .iter()
        .all(|span| span.from <= span.to && span.to <= bytes.len())
}
