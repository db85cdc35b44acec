//! The program `range_map_bench`: how long a map of slot ranges takes to be filled and looked up.
//!
//! Its arguments are how many ranges, from 1 to 16384, 1000 where there is none, and `descending`
//! where the highest is to go in first. All slots are looked up. It prints how many were found over
//! all rounds, and to standard error how many microseconds the filling took, and the looking up. Its
//! status is 1 where the arguments are others, a stream failed or memory was refused.
#![tactic(auto)]

ghost use Rattle.std.specs.Prelude.{◌<◌, IfOk};

use cluster_routing::SlotRangeMap;
use std::alloc::{AllocError, Global};
use std::process::ExitCode;
use std::time::Instant;
use std::{env, io};

const SLOTS: u16 = 16384;

const ROUNDS: u32 = 20;

/// How many ranges there are, and whether the highest goes in first.
#[derive(Clone, Copy)]
struct Filling {
    count: u16,
    descending: bool,
}

/// A map of so many ranges, all of one width and side by side, and at each its number.
fn range_map(alloc: Global, filling: Filling) -> Result<SlotRangeMap<u16>, AllocError>
    requires { 0 < filling.count }
{
    let Filling { count, descending } = filling;
    let width = SLOTS / count;
    let mut map = SlotRangeMap::new(alloc);
    for turn in 0..count {
        let number = if descending { count - 1 - turn } else { turn };
        let start = number.saturating_mul(width);
        let end = start.saturating_add(width.saturating_sub(1));
        map.insert(start, end, number)?;
    }
    Ok(map)
}

/// How many slots have a range.
fn count_served(map: &SlotRangeMap<u16>) -> u64 {
    let mut count = 0u64;
    for slot in 0..SLOTS {
        if map.get(slot).is_some() {
            count = count.saturating_add(1);
        }
    }
    count
}

/// What the arguments ask for.
fn read_arguments(rt: &HostRuntime) -> io::Result<Filling>
    ensures { IfOk result (λ filling. 0 < filling.count) }
{
    let other = || io::Error::from(io::ErrorKind::InvalidInput);
    let mut arguments = env::args(rt)?.skip(1);
    let count = match arguments.next() {
        None => 1000,
        Some(word) => word.parse::<u16>().map_err(|_| other())?,
    };
    let descending = match arguments.next() {
        None => false,
        Some(word) if word.as_str() == "descending" => true,
        Some(_) => return Err(other()),
    };
    if count == 0 || count > SLOTS {
        return Err(other());
    }
    Ok(Filling { count, descending })
}

fn run(rt: &HostRuntime) -> io::Result<()> {
    let filling = read_arguments(rt)?;
    let start = Instant::now(rt)?;
    let mut map = SlotRangeMap::new(rt.alloc());
    for _ in 0..ROUNDS {
        map = range_map(rt.alloc(), filling)?;
    }
    let filled_in = start.elapsed(rt)?;
    let start = Instant::now(rt)?;
    let mut found = 0u64;
    for _ in 0..ROUNDS {
        found = found.saturating_add(count_served(&map));
    }
    let looked_up_in = start.elapsed(rt)?;
    eprintln!(rt; "{} {}", filled_in.as_micros(), looked_up_in.as_micros())?;
    println!(rt; "{found} slots found in {ROUNDS} rounds")
}

fn main(rt: HostRuntime) -> ExitCode {
    match run(&rt) {
        Ok(()) => ExitCode::SUCCESS,
        Err(_) => ExitCode::FAILURE,
    }
}
