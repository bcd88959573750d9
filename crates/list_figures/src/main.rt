//! What pictures, repairs, splices, parts and collections of posting lists cost in time: prints it with an argument, and nothing without.
//!
//! A figure counts only where the program was built natively, as `rt run` does, and little else runs. Read `one_list.rt`, then
//! `indexes.rt`.
#![tactic(auto)]

mod clock;
mod documents;
mod indexes;
mod one_list;

use std::{env, io};

fn main(rt: HostRuntime) -> io::Result<()> {
    if env::args(&rt)?.count() < 2 {
        return Ok(());
    }
    one_list::print(&rt)?;
    indexes::print(&rt)
}
