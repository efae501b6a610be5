// Reads scripts from standard input, one a line, and runs each on the recency stores.
#![tactic(auto)]

mod lettered;
mod script;
mod stores;
mod subjects;

use std::io::{BufRead, BufReader};
use stores::script_answer;

// (The other program has this loop too: what is read and written has no contract, so a shared function would promise
// nothing, and no edit of it could be refused.)
fn main(rt: HostRuntime) -> anyhow::Result<()> {
    for line in BufReader::new(rt.alloc(), rt.stdin())?.split(rt.alloc(), b'\n') {
        let text = script_answer(rt.alloc(), &line?)?;
        print!(rt; "{text}")?;
    }
    Ok(())
}
