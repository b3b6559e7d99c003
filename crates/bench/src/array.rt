// The same tickets in a sorted array.
use builder::{KindName, Plan};
use records::{RecordKind, Ticket};
use std::alloc::Global;
use std::collections::BTreeMap;

// The bytes of a ticket's key.
pub(crate) type TicketKey = [u8; 8];

pub(crate) fn ticket_key(heap: Global, number: u32) -> anyhow::Result<TicketKey> {
    let key = KindName::Ticket.key(heap, number)?;
    Ok(TicketKey::try_from(key.as_slice())?)
}

// A key that is there, and its number.
#[derive(Clone, Copy)]
struct Row {
    number: u32,
    key: TicketKey,
}

// The rows, ascending by number and so by key.
#[derive(Drop)]
pub(crate) struct Sorted {
    rows: Vec<Row>,
}

impl Sorted {
    // Every key that the tree has; the highest node with an entry decides.
    pub(crate) fn new(heap: Global, plan: &Plan) -> anyhow::Result<Sorted> {
        let mut all = BTreeMap::new(heap);
        for node in plan.nodes.iter().rev() {
            for item in node.items.iter() {
                all.insert(item.key, item.value.is_some())?;
            }
        }
        let mut rows = Vec::new(heap);
        for (number, live) in all.iter() {
            if *live {
                let number = *number;
                let key = ticket_key(heap, number)?;
                rows.push(Row { number, key })?;
            }
        }
        Ok(Sorted { rows })
    }

    pub(crate) fn len(&self) -> usize {
        self.rows.len()
    }

    // Whether the key of this number is there.
    pub(crate) fn has(&self, number: u32) -> bool {
        let rows = self.rows.as_slice();
        rows.binary_search_by_key(&number, |row| row.number).is_ok()
    }

    // The place of a key, by halving.
    pub(crate) fn find(&self, key: &TicketKey) -> Option<usize> {
        let rows = self.rows.as_slice();
        rows.binary_search_by(|row| Ticket.compare(&row.key, key))
            .ok()
    }
}
