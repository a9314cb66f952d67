// Lists the captures that data/captures.txt names, a line for each session and one for its capture, as the listing program does.
// The file stdout has what must come.
#![tactic(auto)]

use std::{fs, io};

fn listed(rt: &HostRuntime, session: &str, capture: &str) -> io::Result<()> {
    println!(rt; "capture={capture}")?;
    listing::list_events(rt, fs::open(rt, session), fs::open(rt, capture));
    Ok(())
}

fn all_listed(rt: &HostRuntime, names: &str) -> io::Result<()> {
    let mut session = None;
    for name in names.lines() {
        session = match session {
            None => Some(name),
            Some(before) => {
                listed(rt, before, name)?;
                None
            }
        };
    }
    Ok(())
}

fn main(rt: HostRuntime) -> io::Result<()> {
    let names = fs::read_to_string(&rt, "captures.txt")?;
    all_listed(&rt, names.as_str())
}
