//! The program `example_proxy`: it tells where the commands of standard input go in a Redis Cluster.
//!
//! The commands come as clients send them, arrays of bulk strings, in pieces that end anywhere.
#![tactic(auto)]

use anyhow::{Context, Result};
use cluster_routing::{
    MultipleNodeRoutingInfo, Routable, Route, RoutingInfo, SingleNodeRoutingInfo,
};
use resp_core::{Parser, Value};
use std::io::Read;

/// How many bytes one read takes at most: few, so that commands are cut.
const PIECE: usize = 16;

/// Tells for a command its slots, or that it has none.
fn tell_route(rt: &HostRuntime, word: &str, route: Option<&RoutingInfo>) -> Result<()> {
    match route {
        Some(RoutingInfo::SingleNode(SingleNodeRoutingInfo::SpecificNode(route))) => {
            println!(rt; "{word}: slot {}", route.slot())?;
        }
        Some(RoutingInfo::MultiNode((MultipleNodeRoutingInfo::MultiSlot((parts, _)), _))) => {
            tell_parts(rt, word, parts)?;
        }
        Some(RoutingInfo::SingleNode(_)) => println!(rt; "{word}: no slot, any node")?,
        Some(RoutingInfo::MultiNode(_)) => println!(rt; "{word}: no slot, several nodes")?,
        None => println!(rt; "{word}: no slot, no node")?,
    }
    Ok(())
}

/// Tells the slot of each part of a command that is split by its keys.
fn tell_parts(rt: &HostRuntime, word: &str, parts: &[(Route, Vec<usize>)]) -> Result<()> {
    print!(rt; "{word}: slots")?;
    for (route, _) in parts {
        print!(rt; " {}", route.slot())?;
    }
    println!(rt)?;
    Ok(())
}

/// Whether a value is a command: an array of bulk strings that is not empty.
fn is_command(rt: &HostRuntime, value: &Value) -> Result<bool> {
    Ok(match value.arguments(rt.alloc())? {
        Some(arguments) => !arguments.is_empty(),
        None => false,
    })
}

/// Tells what one value of the input is.
fn tell(rt: &HostRuntime, value: &Value) -> Result<()> {
    let alloc = rt.alloc();
    if !is_command(rt, value)? {
        println!(rt; "refused: no command")?;
        return Ok(());
    }
    let name = value.command(alloc)?.context("a command without a word")?;
    let word = String::from_utf8_lossy(alloc, &name)?;
    let route = RoutingInfo::for_routable(alloc, value, &[])?;
    tell_route(rt, word.as_str(), route.as_ref())
}

/// Tells of each value that the parser has whole.
fn tell_all(rt: &HostRuntime, parser: &mut Parser) -> Result<()> {
    for _ in 0..u64::MAX {
        match parser.take_value()? {
            Some(value) => tell(rt, &value)?,
            None => break,
        }
    }
    Ok(())
}

fn main(rt: HostRuntime) -> Result<()> {
    let mut input = rt.reader();
    let mut parser = Parser::new(rt.alloc());
    let mut piece = [0u8; PIECE];
    for _ in 0..u64::MAX {
        let count = input.read(&mut piece)?;
        if count == 0 {
            break;
        }
        parser.feed(&piece[..count])?;
        tell_all(&rt, &mut parser)?;
    }
    Ok(())
}
