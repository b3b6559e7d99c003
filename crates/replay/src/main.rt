// Replay: reads a script of calls from standard input, runs them on an index and prints one answer for each, and at the
// end, in lines that begin with #, what was accomplished. All that matters is in the layers below; this program reads,
// prints and counts. It uses the index, the stores, the kinds and the words of a script line.
#![tactic(auto)]

mod replay;
mod script;
mod session;

use crate::replay::{Counts, Replay};
use anyhow::bail;
use index::{Index, Status};
use limit_kinds::{Least, Narrow, Widest};
use records::{PoolLine, RecordKind, Ticket};
use script::{Command, KindName, StoreName, Wrong};
use session::Session;
use std::io;
use std::io::{BufRead, BufReader};
use stores::{PageStore, PlainStore, ShiftingStore};

// Answers commands on a new closed index over this store; what is left of the script, and the index's last status.
fn serve_index<'r, R: BufRead + Drop, S: PageStore + Drop, K: RecordKind + Drop>(
    replay: Replay<'r, R>,
    store: S,
    kind: K,
) -> io::Result<(Replay<'r, R>, Status)> {
    println!(replay.rt; "size {}", store.size())?;
    Session::new(replay, Index::new(store, kind)).serve()
}

// Each arm makes an index of another type, so the choice stands here and is no table.
fn serve_store<'r, R: BufRead + Drop, S: PageStore + Drop>(
    replay: Replay<'r, R>,
    kind: KindName,
    store: S,
) -> io::Result<(Replay<'r, R>, Status)> {
    match kind {
        KindName::Ticket => serve_index(replay, store, Ticket),
        KindName::PoolLine => serve_index(replay, store, PoolLine),
        KindName::Narrow => serve_index(replay, store, Narrow),
        KindName::Widest => serve_index(replay, store, Widest),
        KindName::Least => serve_index(replay, store, Least),
    }
}

fn serve_area<'r, R: BufRead + Drop>(
    replay: Replay<'r, R>,
    kind: KindName,
    name: StoreName,
    area: &mut [u8],
) -> io::Result<(Replay<'r, R>, Status)> {
    match name {
        StoreName::Plain => serve_store(replay, kind, PlainStore::new(area)),
        StoreName::Shifting => serve_store(replay, kind, ShiftingStore::new(area)),
    }
}

// Answers the whole script; what was counted, and the status in which the last store was left, if there was one.
fn run<R: BufRead + Drop>(mut replay: Replay<'_, R>) -> io::Result<(Counts, Option<Status>)> {
    let mut kind = None;
    let mut left = None;
    for _ in 0..u64::MAX {
        let Some(command) = replay.next_command()? else {
            break;
        };
        match (command, kind) {
            (Command::Kind(name), _) => {
                println!(replay.rt; "ok")?;
                kind = Some(name);
            }
            (Command::Store(name, mut area), Some(kind)) => {
                let (rest, status) = serve_area(replay, kind, name, area.as_mut_slice())?;
                replay = rest;
                left = Some(status);
            }
            (_, None) => replay.fail(Wrong::KindFirst)?,
            (_, Some(_)) => replay.fail(Wrong::StoreFirst)?,
        }
    }
    Ok((replay.counts, left))
}

fn state_line(rt: &HostRuntime, status: Status) -> io::Result<()> {
    match status {
        Status::Closed => println!(rt; "# the store was left closed"),
        Status::Open(header) => {
            print!(rt; "# the store was left open: levels {}, ", header.levels())?;
            println!(rt;
                "slots used {}, changes {}",
                header.used(),
                header.changes()
            )
        }
    }
}

fn summary(rt: &HostRuntime, counts: Counts, left: Option<Status>) -> io::Result<()> {
    let Counts {
        granted,
        refused,
        errors,
        touched,
    } = counts;
    println!(rt; "# calls granted: {granted}, refused: {refused}")?;
    println!(rt; "# pages touched: {touched}")?;
    if errors > 0 {
        println!(rt; "# lines in error: {errors}")?;
    }
    match left {
        None => println!(rt; "# no store was made"),
        Some(status) => state_line(rt, status),
    }
}

fn main(rt: HostRuntime) -> anyhow::Result<()> {
    let replay = Replay::new(&rt, BufReader::new(rt.alloc(), rt.stdin())?);
    let (counts, left) = run(replay)?;
    summary(&rt, counts, left)?;
    if counts.errors > 0 {
        bail!("some lines of the script are in error");
    }
    Ok(())
}
