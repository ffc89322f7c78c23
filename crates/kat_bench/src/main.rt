//! What the scripts of bench/ measure: the first word says what, the others of which size.
#![tactic(auto)]

mod conditions;
mod differences;
mod joins;
mod lines;
mod listings;
mod tokens;
mod verdicts;
mod watches;
mod words;

use std::{env, io};

fn main(rt: HostRuntime) -> io::Result<()> {
    let mut words = env::args(&rt)?;
    let _program = words.next();
    let Some(what) = words.next() else {
        return Ok(());
    };
    match what.as_str() {
        "tokens" => tokens::measure(&rt, words),
        "joins" => joins::measure(&rt, words),
        "conditions" => conditions::measure(&rt),
        "differences" => differences::measure(&rt, words),
        "lines" => lines::measure(&rt, words),
        "listing" => listings::measure(&rt, words),
        "verdicts" => verdicts::measure(&rt, words),
        "watches" => watches::measure(&rt, words),
        _ => Ok(()),
    }
}
