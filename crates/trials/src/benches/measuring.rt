//! What is told of measured work.
use std::fmt::Display;
use std::io;
use std::time::Instant;

/// Says on standard error how long work took.
pub(crate) fn took(rt: &HostRuntime, name: &str, start: Instant) -> io::Result<()> {
    let time = start.elapsed(rt)?;
    eprintln!(rt; "{name}: {time:?}")
}

/// Says on standard error how long work took, and on standard output what came of it.
pub(crate) fn tell<T: Display>(
    rt: &HostRuntime,
    name: &str,
    start: Instant,
    came: &T,
) -> io::Result<()> {
    took(rt, name, start)?;
    println!(rt; "{name}: {came}")
}

/// Does work, and tells what came of it and how long it took.
macro_rules! measured {
    ($rt:expr, $name:expr, $work:expr) => {
        let start = std::time::Instant::now($rt)?;
        let came = $work;
        $crate::benches::measuring::tell($rt, $name, start, &came)?;
    };
}

pub(crate) use measured;
