// Bench: how fast open and find are on a store of 1,000 slots of tickets, beside a binary search in a sorted array of
// the same records. Without arguments it says what it would do; with `run` it does it and prints the results. It is run
// by hand: it is proved safe and to end, and says nothing of a time. It uses `builder`, the index and the plain store.
#![tactic(auto)]

mod array;
mod measure;

use anyhow::anyhow;
use array::{Sorted, TicketKey, ticket_key};
use builder::{KindName, Plan, Wish};
use index::{Finding, Index, Refusal};
use measure::{Rate, Touches};
use records::Ticket;
use std::time::Instant;
use std::{env, io, iter};
use stores::{PageStore, PlainStore};

// 994 nodes on five levels; the leaf nodes are full.
const TREE: Wish = Wish {
    kind: KindName::Ticket,
    fanout: 8,
    capacity: 100,
    per_page: 27,
    levels: 5,
    children: [3, 6, 6, 8, 0, 0, 0, 0, 0],
    inner_entries: 60,
    leaf_entries: 100,
    first: 1,
    stride: 3,
    bare: None,
    hollow: None,
    changes: 100_000,
};

// The slots of the store; page 0 comes before them.
const SLOTS: u32 = 1000;

const OPENS: u32 = 20;

const FINDS: usize = 200_000;

const EXPLANATION: [&str; 6] = [
    "bench run: measures open and find on a plain store of 1,000 slots of tickets.",
    "  shape: f 8, capacity 100, 27 entries on a leaf page, so 6 pages to a slot and 6,001 pages in all",
    "  tree: 994 nodes on 5 levels, 864 of them leaf nodes with 100 tickets each, 60 entries in the others",
    "  open: 20 times; pages per second",
    "  find: 200,000 keys that are there and 200,000 that are not; finds per second, pages touched by one",
    "  beside it: a binary search for the same keys in a sorted array of the same tickets",
];

fn explain(rt: &HostRuntime) -> io::Result<()> {
    for line in EXPLANATION {
        rt.println(line)?;
    }
    Ok(())
}

// The next number of a row that looks like chance.
fn drawn(n: u32) -> u32 {
    n.wrapping_mul(1_664_525).wrapping_add(1_013_904_223)
}

// Keys to be looked for, and what the results call them.
#[derive(Drop)]
struct Questions {
    text: &'static str,
    keys: Vec<TicketKey>,
}

impl Questions {
    // Keys within the range of the tree whose numbers are wanted.
    fn new<F: Fn(u32) -> bool>(
        rt: &HostRuntime,
        text: &'static str,
        wanted: F,
    ) -> anyhow::Result<Questions>
        requires { F.IsAlwaysCallable wanted }
    {
        let heap = rt.alloc();
        let mut keys = Vec::new(heap);
        let numbers = iter::successors(Some(drawn(7)), |n| Some(drawn(*n)))
            .take(u32::MAX as usize)
            .map(|n| 1 + n / 256 % 259_200)
            .filter(|number| wanted(*number))
            .take(FINDS);
        for number in numbers {
            keys.push(ticket_key(heap, number)?)?;
        }
        Ok(Questions { text, keys })
    }
}

// One find; the value is let go.
fn find_once<S: PageStore + Drop>(
    index: &mut Index<S, Ticket>,
    key: &[u8],
) -> Result<Finding, Refusal> {
    let mut value = [0; 10];
    index.find(key, &mut value)
}

// An index that is measured, and where the results are printed.
#[derive(Drop)]
struct Bench<'a, S: PageStore> {
    rt: &'a HostRuntime,
    index: Index<S, Ticket>,
}

impl<S: PageStore + Drop> Bench<'_, S> {
    fn time_open(&mut self) -> anyhow::Result<()> {
        let start = Instant::now(self.rt)?;
        let mut pages = 0u64;
        for _ in 0..OPENS {
            let opened = self.index.open();
            let done = opened.map_err(|_| anyhow!("the store does not open"))?;
            pages = pages.saturating_add(done.touches);
        }
        let took = start.elapsed(self.rt)?;
        let (opens, each) = (u64::from(OPENS), pages / u64::from(OPENS));
        println!(self.rt; "open: {}", Rate::new("open", opens, took))?;
        let rate = Rate::new("page", pages, took);
        println!(self.rt; "  pages read: {each} by each, {rate}")?;
        Ok(())
    }

    // Finds every key, and says how long it took and how many pages a find touched.
    fn time_find(&mut self, questions: &Questions) -> anyhow::Result<()> {
        let mut touches = Touches::default();
        let start = Instant::now(self.rt)?;
        for key in questions.keys.iter() {
            let found = find_once(&mut self.index, key);
            touches.add(found.map_err(|_| anyhow!("a find was refused"))?);
        }
        let took = start.elapsed(self.rt)?;
        let text = questions.text;
        println!(self.rt; "find, {text}: {}", Rate::new("find", touches.many, took))?;
        println!(self.rt; "  pages touched by one: {touches}")?;
        Ok(())
    }
}

fn time_array(rt: &HostRuntime, sorted: &Sorted, questions: &Questions) -> anyhow::Result<()> {
    let start = Instant::now(rt)?;
    let keys = questions.keys.iter();
    let found = keys.filter(|key| sorted.find(key).is_some()).count();
    let took = start.elapsed(rt)?;
    let rate = Rate::new("search", questions.keys.len() as u64, took);
    let text = questions.text;
    println!(rt; "sorted array, {text}: {rate}; found {found}")?;
    Ok(())
}

fn measure_all(rt: &HostRuntime) -> anyhow::Result<()> {
    let heap = rt.alloc();
    let plan = Plan::new(heap, TREE)?;
    let pages = SLOTS.saturating_mul(plan.slot_pages()?).saturating_add(1);
    let mut image = plan.image(heap, pages)?;
    let sorted = Sorted::new(heap, &plan)?;
    println!(rt;
        "store: {pages} pages, {} nodes, {} tickets",
        plan.nodes.len(),
        sorted.len()
    )?;
    let there = Questions::new(rt, "keys that are there", |number| sorted.has(number))?;
    let missing = Questions::new(rt, "keys that are not", |number| !sorted.has(number))?;
    let index = Index::new(PlainStore::new(image.as_mut_slice()), Ticket);
    let mut bench = Bench { rt, index };
    bench.time_open()?;
    bench.time_find(&there)?;
    bench.time_find(&missing)?;
    time_array(rt, &sorted, &there)?;
    time_array(rt, &sorted, &missing)
}

fn run(rt: &HostRuntime) -> anyhow::Result<()> {
    let mut words = env::args(rt)?.skip(1);
    let Some(word) = words.next() else {
        explain(rt)?;
        return Ok(());
    };
    match word.as_str() {
        "run" => measure_all(rt),
        _ => Err(anyhow!("bench takes no argument, or `run`")),
    }
}

fn main(rt: HostRuntime) -> anyhow::Result<()> {
    run(&rt)
}
