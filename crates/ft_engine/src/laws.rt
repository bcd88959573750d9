//! A law of the engine, which is the contract of a function that does nothing.
ghost use Rattle.ft_engine.specs.Steps.{StepsAreHistory, StepsAreLegal};

/// What an engine executed, from one that was opened at a number on, is a legal history from that number, which leads to the
/// engine's state: so the entries of a run over it are.
pub fn steps_are_legal()
    ensures legal { StepsAreLegal }
    // FT.INFO tells in it just the live records of indexes that are clean.
    ensures history { StepsAreHistory }
{}
