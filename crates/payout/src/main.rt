// Payout: for a person at the pay-out window. It opens a file of pages as a store of tickets and says in words what
// each ticket asked for is, or what is wrong with the store. It reads, prints and counts; that a ticket is there or not
// is the answer of `index`, and the words of a person become the one key of the ticket that they name. It uses the
// index, the plain store and the ticket kind.
#![tactic(auto)]

mod bet;
mod name;
mod ticket;
mod window;
mod words;

use anyhow::bail;
use index::{Index, Status};
use records::Ticket;
use std::{env, fs, io};
use stores::PlainStore;
use window::Window;
use words::{Numbers, Why};

fn usage(rt: &HostRuntime) -> io::Result<()> {
    rt.println("payout FILE [DAY COURSE SERIAL]...")?;
    rt.println(
        "  FILE is a plain store of tickets. Says of each ticket what it is, or that it is not there.",
    )?;
    rt.println(
        "  Without tickets in the arguments, lines DAY COURSE SERIAL are read from standard input;",
    )?;
    rt.println("  blank lines and lines that begin with # are passed over.")?;
    rt.println(
        "  DAY is 1 to 365, COURSE 1 to 999, SERIAL 1 to 99999999; stakes are plain numbers, as sold.",
    )?;
    rt.println("payout --help prints this.")
}

// The words of the command line behind the program's name.
fn arguments(rt: &HostRuntime) -> anyhow::Result<Vec<String>> {
    Ok(env::args(rt)?.skip(1).collect(rt.alloc())?)
}

fn opened_line(rt: &HostRuntime, file: &str, status: Status, touches: u64) -> io::Result<()> {
    match status {
        Status::Open(header) => {
            let (levels, used, changes) = (header.levels(), header.used(), header.changes());
            print!(rt; "{file}: levels {levels}, slots used {used}, changes {changes}, ")?;
            println!(rt; "pages read by the inspection: {touches}")
        }
        Status::Closed => println!(rt; "{file}: closed"),
    }
}

// Opens the pages and answers for every ticket asked for.
fn serve(
    rt: &HostRuntime,
    file: &str,
    area: &mut [u8],
    tickets: &[[String; 3]],
) -> anyhow::Result<()> {
    let mut index = Index::new(PlainStore::new(area), Ticket);
    let touches = match index.open() {
        Ok(done) => done.touches,
        Err(refusal) => {
            let (why, numbers) = (Why(refusal), Numbers(refusal));
            println!(rt; "{file} does not open: {why}")?;
            println!(rt; "refused: {numbers}")?;
            bail!("the store does not open");
        }
    };
    opened_line(rt, file, index.status(), touches)?;
    let mut window = Window::new(rt, index, touches);
    if tickets.is_empty() {
        window.answer_lines()?;
    } else {
        window.answer_words(tickets)?;
    }
    window.print_tally()?;
    Ok(())
}

fn run(rt: &HostRuntime) -> anyhow::Result<()> {
    let words = arguments(rt)?;
    let [file, words @ ..] = words.as_slice() else {
        usage(rt)?;
        bail!("no file is named");
    };
    if file.as_str() == "--help" {
        usage(rt)?;
        return Ok(());
    }
    let (tickets, rest) = words.as_chunks::<3>();
    if !rest.is_empty() {
        usage(rt)?;
        bail!("a ticket takes three numbers");
    }
    let Ok(mut area) = fs::read(rt, file.as_str()) else {
        println!(rt; "{file} cannot be read")?;
        bail!("the file cannot be read");
    };
    serve(rt, file.as_str(), area.as_mut_slice(), tickets)
}

fn main(rt: HostRuntime) -> anyhow::Result<()> {
    run(&rt)
}
