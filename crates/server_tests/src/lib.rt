//! Tests of what no row of data can show: fakes whose calls fail, a reply that is cut, commands that are abandoned, threads,
//! and the ports of the system.
//!
//! They are against mistakes that the check would pass: a definition that says something else than a client or a reader
//! of the server's documents expects, a call that always runs out of memory, a condition that no caller can meet.
//! Read `session.rt` first, which has sessions with the engine, then `links.rt`, which makes what is in memory and has
//! sessions with the server.
#![tactic(auto)]

#[cfg(test)]
mod answers;
#[cfg(test)]
mod cycles;
#[cfg(test)]
mod events;
#[cfg(test)]
mod gates;
#[cfg(test)]
mod histories;
#[cfg(test)]
mod links;
#[cfg(test)]
mod passes;
#[cfg(test)]
mod ports;
#[cfg(test)]
mod rounds;
#[cfg(test)]
mod rows;
#[cfg(test)]
mod session;
#[cfg(test)]
mod system;
#[cfg(test)]
mod transactions;
#[cfg(test)]
mod workers;
