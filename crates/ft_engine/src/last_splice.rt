//! What is kept of a splice.
use gc_splice::Spliced;
use inverted_list::Marker;

/// A splice: the marker of the list that was pictured, and what became of its repair.
#[derive(Clone, Copy)]
pub struct LastSplice {
    pub seen: Marker,
    pub answer: Spliced,
}
