//! Laws of the machine, whatever code obeys it. The functions do nothing: their contracts are the laws.
ghost use Rattle.ft_machine.specs.Clean.{HistoriesAreLegal};
ghost use Rattle.ft_machine.specs.Determined.{HasOneReply, HasOneState, InfoDiffersInRecords};

use query_grammar::{one_fault, one_tree, tree_or_fault};

/// A command has one reply, unless memory ran out, but for the records that FT.INFO tells.
pub fn one_reply()
    ensures reply { HasOneReply }
    ensures records { InfoDiffersInRecords }
{
    one_tree();
    one_fault();
    tree_or_fault();
}

/// A command that is answered so leads to one state: a history has one state behind it.
pub fn one_state()
    ensures { HasOneState }
{
    one_tree();
    one_fault();
    tree_or_fault();
}

/// A history in which FT.INFO tells just the live records of clean indexes is legal: so what holds of each legal history holds of
/// it.
pub fn histories_are_legal<K, N, A>()
    ensures { HistoriesAreLegal K N A }
{}
