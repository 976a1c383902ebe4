//! The program `hp_examples`: plays and replays the stored examples, and compares stored rows of commands.
//!
//! It reads names, a line each, and writes a line for each. `NAME` is an example: its script has to come out as the
//! journal that is stored beside it, and that journal is replayed, with its summary and without, which has to write the
//! summary. `NAME.rows` is a file of rows, as [`rows`] reads them.
#![tactic(auto)]

mod changes;
mod command;
mod examples;
mod rows;

use std::{fs, io};

/// What is said of the rows of a file.
fn rows_said(rt: &HostRuntime, file: &str) -> io::Result<String> {
    let text = fs::read_to_string(rt, file)?;
    Ok(rows::said(rt.alloc(), text.as_str())?)
}

/// What is said of the example of a name.
fn example_said(rt: &HostRuntime, name: &str) -> io::Result<String> {
    let alloc = rt.alloc();
    let script = fs::read(rt, format!(in alloc; "{name}.script")?)?;
    let text = fs::read(rt, format!(in alloc; "{name}.journal")?)?;
    let said = examples::said(alloc, script.as_slice(), text.as_slice())?;
    Ok(String::from_str(alloc, said)?)
}

fn main(rt: HostRuntime) -> io::Result<()> {
    for line in rt.lines(rt.alloc()) {
        let name = line?;
        let said = if name.as_str().ends_with(".rows") {
            rows_said(&rt, name.as_str())?
        } else {
            example_said(&rt, name.as_str())?
        };
        println!(rt; "{name}: {said}")?;
    }
    Ok(())
}
