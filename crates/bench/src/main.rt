//! Measures how fast the parts of the simulator are. Without words it prints the names of its measurements;
//! with a name it runs that one and prints its rate.
#![tactic(auto)]

mod exchange;
mod measures;
mod parts;
mod segment;

use measures::{Measure, run};
use std::time::CpuClock;
use std::{env, io};

/// The measurement of this name.
fn measure_of(name: &str) -> Option<Measure> {
    for measure in Measure::ALL {
        if measure.name() == name {
            return Some(measure);
        }
    }
    None
}

fn print_names(rt: &HostRuntime) -> io::Result<()> {
    for measure in Measure::ALL {
        println!(rt; "{}", measure.name())?;
    }
    Ok(())
}

fn print_rate(rt: &HostRuntime, measure: Measure) -> io::Result<()> {
    let start = rt.thread_cpu_time()?;
    let Ok(done) = run(rt.alloc(), measure) else {
        return println!(rt; "{}: want of memory", measure.name());
    };
    let end = rt.thread_cpu_time()?;
    let spent = end.as_nanos().saturating_sub(start.as_nanos()).max(1);
    let rate = u128::from(done).saturating_mul(1_000_000_000) / spent;
    println!(rt; "{} {rate} {} a second", measure.name(), measure.unit())
}

fn main(rt: HostRuntime) -> io::Result<()> {
    let Some(name) = env::args(&rt)?.nth(1) else {
        return print_names(&rt);
    };
    match measure_of(name.as_str()) {
        Some(measure) => print_rate(&rt, measure),
        None => print_names(&rt),
    }
}
