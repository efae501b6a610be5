// Reads bursts from standard input, one a line, a letter a key, and prints what each measures.
#![tactic(auto)]

mod curve;
mod letters;
mod report;

use report::answer;
use std::io::{BufRead, BufReader};

// (The other program has this loop too: what is read and written has no contract, so a shared function would promise
// nothing, and no edit of it could be refused.)
fn main(rt: HostRuntime) -> anyhow::Result<()> {
    for line in BufReader::new(rt.alloc(), rt.stdin())?.split(rt.alloc(), b'\n') {
        let text = answer(rt.alloc(), &line?)?;
        print!(rt; "{text}")?;
    }
    Ok(())
}
