// Damage: writes a script for `replay` to standard output: stores that open, with finds, and stores that are damaged in
// one place, for every rule of the layout and every refusal of open. With the argument `answers` it writes what replay
// must answer, without the touches, by what it knows of the trees that it made; it does not ask the index. With
// `store FILE` it writes the file that the stored run of `payout` reads. It is for tests only, and uses `builder`.
#![tactic(auto)]

mod broken;
mod scribe;
mod sketch;
mod trees;
mod valid;

use anyhow::anyhow;
use broken::broken_stores;
use scribe::{Scribe, Side};
use sketch::Sketch;
use std::{env, fs};
use trees::WINDOW;
use valid::valid_stores;

fn write_all(rt: &HostRuntime, side: Side) -> anyhow::Result<()> {
    let scribe = Scribe::new(rt, side);
    scribe.note("Made by the program `damage`; see docs/TESTS.md.")?;
    valid_stores(scribe)?;
    broken_stores(scribe)
}

fn write_store(rt: &HostRuntime, file: &str) -> anyhow::Result<()> {
    let sketch = Sketch::new(rt.alloc(), WINDOW, 1)?;
    fs::write(rt, file, sketch.image.as_slice())?;
    Ok(())
}

fn run(rt: &HostRuntime) -> anyhow::Result<()> {
    let mut words = env::args(rt)?.skip(1);
    let Some(word) = words.next() else {
        return write_all(rt, Side::Script);
    };
    match (word.as_str(), words.next()) {
        ("answers", None) => write_all(rt, Side::Answers),
        ("store", Some(file)) => write_store(rt, file.as_str()),
        _ => Err(anyhow!("damage takes no argument, `answers`, or `store FILE`")),
    }
}

fn main(rt: HostRuntime) -> anyhow::Result<()> {
    run(&rt)
}
