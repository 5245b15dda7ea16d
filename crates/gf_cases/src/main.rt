//! Runs many cases on the public calls of the crates, and writes how many of each group are right.
#![tactic(auto)]

mod calls;
mod cases;
mod cuts;
mod games;
mod given;
mod memory;
mod numbers;
mod payoffs;
mod scripts;
mod streams;
mod texts;
mod trees;
mod words;

use cases::Cases;
use memory::Came;
use std::io;
use std::rt::Env;

/// Writes the counts of a group.
fn tell(rt: &HostRuntime, group: &str, cases: &Cases) -> io::Result<()> {
    let right = cases.right;
    match cases.first {
        None => println!(rt; "{group}: {right} right"),
        Some((name, number)) => {
            let wrong = cases.wrong;
            println!(rt;
                "{group}: {right} right, {wrong} wrong; the first is case {number}, {name}"
            )
        }
    }
}

/// Runs each group with ample memory.
fn run_groups(rt: &HostRuntime) -> io::Result<()> {
    let alloc = rt.alloc();
    tell(rt, "numbers", &numbers::numbers(alloc))?;
    tell(rt, "trees", &trees::trees(alloc))?;
    tell(rt, "payoffs", &payoffs::payoffs(alloc))?;
    tell(rt, "texts", &texts::texts(alloc))?;
    tell(rt, "cuts", &cuts::cuts(alloc))?;
    tell(rt, "streams", &streams::streams(alloc))?;
    tell(rt, "streams without an end", &streams::endless(alloc))?;
    tell(rt, "words", &words::words(alloc))?;
    tell(rt, "memory", &memory::memory(alloc))
}

/// Names the calls that need memory.
fn name_calls(rt: &HostRuntime) -> io::Result<()> {
    for (name, _) in &memory::CALLS {
        println!(rt; "{name}")?;
    }
    Ok(())
}

/// Makes the call of this name, and writes what came of it. It needs no memory of its own.
fn make_call(rt: &HostRuntime, name: &[u8]) -> io::Result<()> {
    println!(rt;
        "{}",
        match memory::call(rt.alloc(), name) {
            Some(Came::Right) => "right",
            Some(Came::OutOfMemory) => "out of memory",
            Some(Came::Wrong) => "wrong",
            Some(Came::NotMade) => "not made",
            None => "no call of this name",
        }
    )
}

fn run_named(rt: &HostRuntime, name: &[u8]) -> io::Result<()> {
    if name == b"calls".as_slice() {
        name_calls(rt)
    } else {
        make_call(rt, name)
    }
}

/// Without an argument it runs all groups. With `calls` it names the calls that need memory, and
/// with such a name it makes the call.
fn main(rt: HostRuntime) -> io::Result<()> {
    let mut argument = [0; 64];
    match rt.arg(1, &mut argument) {
        Err(_) => run_groups(&rt),
        Ok(len) => run_named(&rt, &argument[..len]),
    }
}
