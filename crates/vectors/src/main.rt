// Reads cases from standard input, rebuilds each from its levels, and prints for each whether that gave what the case expects.
#![tactic(auto)]

mod case;
mod judge;
mod reading;
mod verdict;

use judge::judge_line;
use std::alloc::Global;
use std::io;
use std::io::{BufRead, BufReader};
use verdict::{Tally, Verdict};

// What a line deserves. A line that is not text is unreadable like any other that is not in the form of a case.
fn verdict_on(heap: Global, line: io::Result<String>) -> io::Result<Verdict> {
    match line {
        Ok(text) => Ok(judge_line(heap, text.as_str())?),
        Err(e) if e.kind() == io::ErrorKind::InvalidData => Ok(Verdict::Unreadable),
        Err(e) => Err(e),
    }
}

fn main(rt: HostRuntime) -> io::Result<()> {
    let heap = rt.alloc();
    let mut tally = Tally::new();
    for line in BufReader::new(heap, rt.stdin())?.lines(heap) {
        let verdict = verdict_on(heap, line)?;
        tally.add(verdict);
        let number = tally.cases;
        println!(rt; "{number}\t{verdict}")?;
    }
    println!(rt; "{tally}")
}
