//! The rule of the table under the lock, and what each step tells.
//!
//! A step sees neither its seat's number nor an argument of its call. So what it has to name of these is picked by each
//! call, as the ghost members of a type parameter.
ghost use Rattle.std.specs.Prelude.{ℕ, List, []};
ghost use Rattle.turn_gate.specs.Rule.{Kept};
ghost use Rattle.turn_gate.specs.Steps.{tried, logged, gave_back, counted, compared, checked};
ghost use Rattle.turn_gate.specs.Views.{newcomer, not_alone, another, joined, nobody};

use crate::chronicle::Chronicle;
use crate::view::View;
use atomic_table::{Join, Play, Split, TableRule};
use std::marker::{Brand, PhantomData};

/// The caller's number and the new entries, which each call of a step picks.
pub trait Picked<E> {
    ghost caller: { ℕ };

    ghost added: { List E };
}

impl<E> Picked<E> for Brand {
    ghost caller = { 0 };

    ghost added = { [] };
}

/// The rule. The table's key is the number of the log's first entry.
pub struct Lock;

impl<S: Chronicle> TableRule<Option<S>, View<S::Entry>, u64> for Lock {
    ghost holds = { λ first. Kept S.Entry.caller S.tells first };

    ghost first = { newcomer };
}

/// A swap of 1 into word 0. Where that found 0, the turn begins.
pub struct Try<B> {
    picked: PhantomData<B>,
}

impl<S: Chronicle, B: Picked<S::Entry>> Play<Option<S>, View<S::Entry>> for Try<B> {
    ghost then = { tried S.Entry.caller S.tells B.caller };
}

/// An addition to word 1, at which the log gets the new entries.
pub struct Log<B> {
    picked: PhantomData<B>,
}

impl<S: Chronicle, B: Picked<S::Entry>> Play<Option<S>, View<S::Entry>> for Log<B> {
    ghost then = { logged B.added };
}

/// A store of 0 into word 0, at which the turn ends and the slot goes home.
pub struct GiveBack;

impl<E, S> Play<Option<S>, View<E>> for GiveBack {
    ghost then = { gave_back };
}

/// A load, at which a pass finds how many passes were made.
pub struct Count<B> {
    picked: PhantomData<B>,
}

impl<S: Chronicle, B: Picked<S::Entry>> Play<Option<S>, View<S::Entry>> for Count<B> {
    ghost then = { counted B.caller };
}

/// A load, at which a new pass finds that its number is none of those that were made before it.
pub struct Compare<B> {
    picked: PhantomData<B>,
}

impl<S: Chronicle, B: Picked<S::Entry>> Play<Option<S>, View<S::Entry>> for Compare<B> {
    ghost then = { compared B.caller };
}

/// A load, at which a joined pass finds that the shorter list begins the longer one.
pub struct Check;

impl<E, S> Play<Option<S>, View<E>> for Check {
    ghost then = { checked };
}

/// How a pass is split, and how two are joined.
pub struct Passes;

impl<E> Split<View<E>> for Passes {
    ghost left = { not_alone };

    ghost right = { another };
}

impl<E> Join<View<E>> for Passes {
    ghost both = { joined };

    ghost spent = { nobody };
}
