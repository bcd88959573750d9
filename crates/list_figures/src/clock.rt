//! How long a step took, as a line of the figures says it.
use std::io;
use std::time::Instant;

/// Prints how many microseconds went by since a moment.
pub fn tell(rt: &HostRuntime, what: &str, start: Instant) -> io::Result<()> {
    let took = start.elapsed(rt)?.as_micros();
    print!(rt; ", {what} {took} us")
}

/// Prints the same, and tenths of nanoseconds for each of so many entries.
pub fn tell_each(rt: &HostRuntime, what: &str, entries: u64, start: Instant) -> io::Result<()> {
    let took = start.elapsed(rt)?;
    let tenths = took.as_nanos().saturating_mul(10) / u128::from(entries.max(1));
    print!(rt;
        ", {what} {} us ({}.{} ns each)",
        took.as_micros(),
        tenths / 10,
        tenths % 10
    )
}
