//! The law of stream cursors. The function does nothing: its contract is the law.
ghost use Rattle.cursor_law.specs.Law.{Always, GivesAll, GivesHits, Rises, ShowsRows};

use query_grammar::{one_tree, tree_or_fault};

/// A stream cursor gives each document once at most, with rising ids, and only those that match when they are given;
/// once it is read to its end, each that matched with one id throughout; and the rows shown are theirs, in that order.
/// This holds in histories with scans and splices whose snapshots, names of lists and answers are of any types.
pub fn cursor_law<K, N, A>()
    ensures rises { Always K N A Rises }
    ensures hits { Always K N A GivesHits }
    ensures complete { Always K N A GivesAll }
    ensures rows { Always K N A ShowsRows }
{
    one_tree();
    tree_or_fault();
}
