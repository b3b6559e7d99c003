// Stores with a few bytes changed: for every rule the first place and a later one where it can break.
use crate::scribe::{Refusal, Rule, Scribe, Spot, Store};
use crate::sketch::{Sketch, Trial, small};
use crate::trees::{LINES, TICKETS};
use crate::valid::no_key;
use anyhow::Context;
use builder::{KindName, Node, Wish};

// The pages and the places on them that belong to one node of the plan.
#[derive(Clone, Copy)]
struct Pages {
    // the number of children and of entries
    children: u32,
    entries: u32,
    // the widths of keys and of records, the entries of a full leaf page
    key: u32,
    record: u32,
    each: u32,
    node: u32,
}

impl Pages {
    fn on_node(&self, offset: u32) -> Spot {
        Spot {
            page: self.node,
            offset,
        }
    }

    fn on_head(&self, offset: u32) -> Spot {
        Spot {
            page: self.node.saturating_add(1),
            offset,
        }
    }

    fn on_leaf(&self, leaf: u32, offset: u32) -> Spot {
        Spot {
            page: self.node.saturating_add(2).saturating_add(leaf),
            offset,
        }
    }

    fn child(&self, i: u32) -> Spot {
        self.on_node(i.saturating_mul(2).saturating_add(3))
    }

    // S-key i; past the last one, where the zeros start.
    fn s_key(&self, i: u32) -> Spot {
        let first = self.child(self.children).offset;
        self.on_node(first.saturating_add(i.saturating_mul(self.key)))
    }

    fn node_rest(&self) -> Spot {
        self.s_key(self.children.saturating_sub(1))
    }

    // How many leaf pages are filled.
    fn filled(&self) -> u32 {
        self.entries.div_ceil(self.each.max(1))
    }

    fn last_leaf(&self) -> u32 {
        self.filled().saturating_sub(1)
    }

    // First key i; past the last one, where the zeros start.
    fn first_key(&self, i: u32) -> Spot {
        self.on_head(i.saturating_mul(self.key).saturating_add(1))
    }

    // Entry i of a leaf page; past the last one, where the zeros start.
    fn entry(&self, leaf: u32, i: u32) -> Spot {
        self.on_leaf(leaf, i.saturating_mul(self.record).saturating_add(9))
    }

    fn value(&self, leaf: u32, i: u32) -> Spot {
        let entry = self.entry(leaf, i);
        Spot {
            offset: entry.offset.saturating_add(self.key),
            ..entry
        }
    }

    // The entries of the last filled leaf page.
    fn last(&self) -> u32 {
        let before = self.last_leaf().saturating_mul(self.each);
        self.entries.saturating_sub(before)
    }

    // The last entry's place on the last filled leaf page.
    fn last_entry(&self) -> u32 {
        self.last().saturating_sub(1)
    }
}

// A place on page 0.
fn header(offset: u32) -> Spot {
    Spot { page: 0, offset }
}

// The lowest two bytes of a number.
fn two(n: u32) -> [u8; 2] {
    let [_, _, high, low] = n.to_be_bytes();
    [high, low]
}

impl Trial<'_> {
    fn node(&self, place: u32) -> anyhow::Result<&Node> {
        let nodes = &self.sketch.plan.nodes;
        nodes.get(place as usize).context("there is no such node")
    }

    fn pages(&self, place: u32) -> anyhow::Result<Pages> {
        let plan = &self.sketch.plan;
        let node = self.node(place)?;
        let kind = plan.wish.kind;
        Ok(Pages {
            children: small(node.children.len()),
            entries: small(node.items.len()),
            key: small(kind.key_width()),
            record: small(kind.key_width() + kind.value_width()),
            each: u32::from(plan.wish.per_page),
            node: plan.node_page(place)?,
        })
    }

    // Changes these bytes at each of the places, opens, and puts the bytes back.
    fn hit(
        &self,
        text: &str,
        spots: &[Spot],
        bytes: &[u8],
        refusal: Refusal,
    ) -> anyhow::Result<()> {
        self.scribe.note(text)?;
        for spot in spots {
            self.scribe.poke(*spot, bytes)?;
        }
        self.scribe.call("open", refusal)?;
        for spot in spots {
            let sound = self.sketch.sound(*spot, bytes.len())?;
            self.scribe.poke(*spot, sound)?;
        }
        Ok(())
    }

    // A page that breaks a rule by what stands on it.
    fn break_rule(&self, rule: Rule, text: &str, spot: Spot, bytes: &[u8]) -> anyhow::Result<()> {
        let page = spot.page;
        self.hit(text, &[spot], bytes, Refusal::Broken { page, rule })
    }

    fn key(&self, n: u32) -> anyhow::Result<Vec<u8>> {
        Ok(self.sketch.plan.wish.kind.key(self.scribe.heap(), n)?)
    }

    fn no_key(&self) -> anyhow::Result<Vec<u8>> {
        Ok(no_key(self.scribe.heap(), self.sketch.plan.wish.kind)?)
    }

    // Bytes of the value width that are no value.
    fn no_value(&self) -> anyhow::Result<Vec<u8>> {
        let kind = self.sketch.plan.wish.kind;
        let fill = match kind {
            KindName::Ticket => 0,
            _ => 0xff,
        };
        Ok(vec![in self.scribe.heap(); fill; kind.value_width()]?)
    }

    fn used(&self) -> u32 {
        small(self.sketch.plan.nodes.len())
    }

    // The number of an s-key of a node.
    fn s_key(&self, place: u32, i: usize) -> anyhow::Result<u32> {
        let s_keys = &self.node(place)?.s_keys;
        s_keys.get(i).copied().context("there is no such s-key")
    }

    // The key number of an entry of a node.
    fn item_key(&self, place: u32, i: usize) -> anyhow::Result<u32> {
        let items = &self.node(place)?.items;
        let item = items.get(i).context("there is no such entry")?;
        Ok(item.key)
    }

    fn other_kind(&self) -> anyhow::Result<()> {
        let refusal = Refusal::OtherKind;
        let other = match self.sketch.plan.wish.kind {
            KindName::Ticket => KindName::PoolLine,
            _ => KindName::Ticket,
        };
        self.hit(
            "page 0: the number of another kind",
            &[header(0)],
            &[other.number()],
            refusal,
        )?;
        self.hit("page 0: the number of no kind", &[header(0)], &[0], refusal)?;
        let text = "page 0: another kind and no shape; the kind is tested first";
        self.hit(text, &[header(0)], &[255, 0], refusal)
    }

    // Bytes of page 0 that give no shape.
    fn bad_shape(&self, text: &str, offset: u32, bytes: &[u8]) -> anyhow::Result<()> {
        self.hit(text, &[header(offset)], bytes, Refusal::ShapeLimits)
    }

    fn no_shape(&self) -> anyhow::Result<()> {
        let fanout = self.sketch.plan.wish.fanout;
        let record = self.pages(0)?.record.clamp(1, 503);
        let [_, most] = two(503 / record + 1);
        self.bad_shape("page 0: f is 2", 1, &[2])?;
        self.bad_shape("page 0: f is 9", 1, &[9])?;
        self.bad_shape("page 0: the capacity is f", 2, &[0, fanout])?;
        let text = "page 0: the capacity is 257, and 27 entries stand on a leaf page";
        self.bad_shape(text, 2, &[1, 1, 27])?;
        self.bad_shape("page 0: no entries on a leaf page", 4, &[0])?;
        self.bad_shape("page 0: 65 entries on a leaf page", 4, &[65])?;
        let text = "page 0: one entry more than a leaf page holds";
        self.bad_shape(text, 4, &[most])?;
        self.bad_shape("page 0: 17 leaf pages", 2, &[0, 33, 2])?;
        let text = "page 0: no shape and no levels; the shape is tested first";
        self.bad_shape(text, 4, &[0, 0])
    }

    // Numbers and zeros of page 0 that break its rule.
    fn bad_header(&self, text: &str, offset: u32, bytes: &[u8]) -> anyhow::Result<()> {
        self.break_rule(Rule::Header, text, header(offset), bytes)
    }

    fn bad_headers(&self) -> anyhow::Result<()> {
        let used = two(self.used());
        self.bad_header("page 0: no levels", 5, &[0])?;
        self.bad_header("page 0: eleven levels", 5, &[11])?;
        self.bad_header("page 0: no used slots", 6, &[0, 0])?;
        self.bad_header("page 0: 1,025 used slots", 6, &[4, 1])?;
        self.bad_header("page 0: the root's slot is not a used one", 8, &used)?;
        let text = "page 0: the byte behind the numbers is not zero";
        self.bad_header(text, 14, &[1])?;
        self.bad_header("page 0: the last byte is not zero", 511, &[128])
    }

    // The store has room for two slots more than are used.
    fn slots_past_the_store(&self) -> anyhow::Result<()> {
        let pages = self.sketch.plan.slot_pages()?;
        let size = self.sketch.pages;
        let many = self.used().saturating_add(3);
        let page = many.saturating_mul(pages);
        let text = "page 0: one used slot more than the store has pages for";
        self.hit(
            text,
            &[header(6)],
            &two(many),
            Refusal::NoPage { page, size },
        )?;
        let page = pages.saturating_mul(1024);
        let text = "page 0: 1,024 used slots";
        self.hit(text, &[header(6)], &[4, 0], Refusal::NoPage { page, size })
    }

    fn wrong_children(&self) -> anyhow::Result<()> {
        let rule = Rule::Children;
        let root = self.pages(0)?.on_node(0);
        let inner = self.pages(3)?.on_node(0);
        let (first, last) = (self.pages(4)?.on_node(0), self.pages(9)?.on_node(0));
        let more = self.sketch.plan.wish.fanout.saturating_add(1);
        self.break_rule(rule, "the root has no children", root, &[0])?;
        self.break_rule(rule, "the root has one child", root, &[1])?;
        self.break_rule(rule, "the root has more children than f", root, &[more])?;
        self.break_rule(rule, "an inner node has one child", inner, &[1])?;
        self.break_rule(rule, "the first leaf node has a child", first, &[1])?;
        self.break_rule(rule, "the last leaf node has two children", last, &[2])
    }

    // A number of levels by which this node has the wrong number of children.
    fn wrong_levels(&self, text: &str, levels: u8, place: u32) -> anyhow::Result<()> {
        let page = self.pages(place)?.node;
        let rule = Rule::Children;
        self.hit(
            text,
            &[header(5)],
            &[levels],
            Refusal::Broken { page, rule },
        )
    }

    fn children_by_levels(&self) -> anyhow::Result<()> {
        let text = "page 0: one level, so the root should be a leaf node";
        self.wrong_levels(text, 1, 0)?;
        let text = "page 0: two levels, so the root's children should be leaf nodes";
        self.wrong_levels(text, 2, 1)?;
        let text = "page 0: four levels, so the leaf nodes should have children";
        self.wrong_levels(text, 4, 4)
    }

    fn too_many_entries(&self) -> anyhow::Result<()> {
        let more = two(u32::from(self.sketch.plan.wish.capacity).saturating_add(1));
        let (root, leaf) = (self.pages(0)?.on_node(1), self.pages(9)?.on_node(1));
        let text = "the root has one entry too many";
        self.break_rule(Rule::Entries, text, root, &more)?;
        let text = "the last leaf node has 65,535 entries";
        self.break_rule(Rule::Entries, text, leaf, &[255, 255])
    }

    fn child_slots_of_the_root(&self) -> anyhow::Result<()> {
        let rule = Rule::ChildSlots;
        let plan = &self.sketch.plan;
        let root = self.pages(0)?;
        let beyond = two(self.used());
        let (own, first) = (two(plan.slot(0)?), two(plan.slot(1)?));
        let text = "the root's first child is no used slot";
        self.break_rule(rule, text, root.child(0), &beyond)?;
        let text = "the root's last child is the root";
        self.break_rule(rule, text, root.child(2), &own)?;
        let text = "the root has one child twice";
        self.break_rule(rule, text, root.child(1), &first)
    }

    fn child_slots_below(&self) -> anyhow::Result<()> {
        let rule = Rule::ChildSlots;
        let plan = &self.sketch.plan;
        let (first, third) = (self.pages(1)?, self.pages(3)?);
        let (sibling, leaf) = (two(plan.slot(2)?), two(plan.slot(4)?));
        let text = "an inner node has its sibling as a child";
        self.break_rule(rule, text, first.child(0), &sibling)?;
        let text = "two inner nodes share a leaf node";
        self.break_rule(rule, text, third.child(1), &leaf)?;
        let text = "the last inner node has a child of slot 65,535";
        self.break_rule(rule, text, third.child(1), &[255, 255])
    }

    fn bad_s_keys(&self) -> anyhow::Result<()> {
        let rule = Rule::SKeys;
        let (root, first, third) = (self.pages(0)?, self.pages(1)?, self.pages(3)?);
        let (low, high) = (self.s_key(0, 0)?, self.s_key(0, 1)?);
        let no_key = self.no_key()?;
        let (at_low, at_high) = (self.key(low)?, self.key(high)?);
        let below = self.key(high.saturating_sub(1))?;
        let text = "the root's first s-key is not valid";
        self.break_rule(rule, text, root.s_key(0), no_key.as_slice())?;
        let text = "the root's last s-key is not valid";
        self.break_rule(rule, text, root.s_key(1), no_key.as_slice())?;
        let text = "the root has an s-key twice";
        self.break_rule(rule, text, root.s_key(1), at_low.as_slice())?;
        let text = "the root has the last s-key first too";
        self.break_rule(rule, text, root.s_key(0), at_high.as_slice())?;
        let text = "the first inner node's s-key is the end of its range";
        self.break_rule(rule, text, first.s_key(0), at_low.as_slice())?;
        let text = "the last inner node's s-key is below its range";
        self.break_rule(rule, text, third.s_key(0), below.as_slice())
    }

    fn node_rests(&self) -> anyhow::Result<()> {
        let rule = Rule::NodeRest;
        let (root, leaf) = (self.pages(0)?, self.pages(9)?);
        let text = "a byte behind the root's s-keys is not zero";
        self.break_rule(rule, text, root.node_rest(), &[1])?;
        let text = "the last byte of the root's node page is not zero";
        self.break_rule(rule, text, root.on_node(511), &[1])?;
        let text = "a byte behind the last leaf node's numbers is not zero";
        self.break_rule(rule, text, leaf.node_rest(), &[9])
    }

    fn bad_heads(&self) -> anyhow::Result<()> {
        let rule = Rule::Head;
        let (root, leaf) = (self.pages(0)?, self.pages(9)?);
        let [_, more] = two(root.filled().saturating_add(1));
        let [_, fewer] = two(leaf.filled().saturating_sub(1));
        let rest = root.first_key(root.filled());
        let text = "the root's head page counts one leaf page more";
        self.break_rule(rule, text, root.on_head(0), &[more])?;
        let text = "the root's head page counts none";
        self.break_rule(rule, text, root.on_head(0), &[0])?;
        let text = "a byte behind the root's first keys is not zero";
        self.break_rule(rule, text, rest, &[1])?;
        let text = "the last leaf node's head page counts one leaf page fewer";
        self.break_rule(rule, text, leaf.on_head(0), &[fewer])?;
        let text = "the last byte of the last leaf node's head page is not zero";
        self.break_rule(rule, text, leaf.on_head(511), &[255])
    }

    fn leaf_counts(&self) -> anyhow::Result<()> {
        let rule = Rule::LeafCount;
        let (root, leaf) = (self.pages(0)?, self.pages(9)?);
        let [_, fewer] = two(root.each.saturating_sub(1));
        let [_, more] = two(root.last().saturating_add(1));
        let text = "the root's first leaf page counts one entry fewer";
        self.break_rule(rule, text, root.on_leaf(0, 0), &[fewer])?;
        let text = "the root's first leaf page counts none";
        self.break_rule(rule, text, root.on_leaf(0, 0), &[0])?;
        let text = "the root's last leaf page counts one entry more";
        self.break_rule(rule, text, root.on_leaf(root.last_leaf(), 0), &[more])?;
        let text = "the last leaf page of all counts 255 entries";
        self.break_rule(rule, text, leaf.on_leaf(leaf.last_leaf(), 0), &[255])
    }

    fn bad_marks(&self) -> anyhow::Result<()> {
        let rule = Rule::Marks;
        let (root, first, leaf) = (self.pages(0)?, self.pages(4)?, self.pages(9)?);
        let [_, bit] = two(1 << root.each.min(7));
        let text = "a mark behind the entries of the root's first leaf page";
        self.break_rule(rule, text, root.on_leaf(0, 8), &[bit])?;
        let text = "the highest mark on the root's last leaf page";
        self.break_rule(rule, text, root.on_leaf(root.last_leaf(), 1), &[128])?;
        let text = "a tombstone in the first leaf node";
        self.break_rule(rule, text, first.on_leaf(0, 8), &[1])?;
        let text = "a tombstone in the last leaf node";
        self.break_rule(rule, text, leaf.on_leaf(leaf.last_leaf(), 8), &[1])
    }

    // A key of a leaf page that the head page gives too, changed there or at both places.
    fn bad_first_key(
        &self,
        text: &str,
        spots: &[Spot],
        page: u32,
        key: &[u8],
    ) -> anyhow::Result<()> {
        let rule = Rule::Keys;
        self.hit(text, spots, key, Refusal::Broken { page, rule })
    }

    fn bad_keys_of_the_root(&self) -> anyhow::Result<()> {
        let rule = Rule::Keys;
        let root = self.pages(0)?;
        let no_key = self.no_key()?;
        let first = self.key(self.item_key(0, 0)?)?;
        let second = self.key(self.item_key(0, 1)?)?;
        let text = "the root's first key is not valid";
        self.break_rule(rule, text, root.entry(0, 0), no_key.as_slice())?;
        let text = "the root's first key is not the head page's";
        let page = root.entry(0, 0).page;
        self.bad_first_key(text, &[root.first_key(0)], page, second.as_slice())?;
        let text = "the root has its first key twice";
        self.break_rule(rule, text, root.entry(0, 1), first.as_slice())?;
        let text = "the root's second leaf page begins below the end of the first";
        let entry = root.entry(1, 0);
        let spots = [root.first_key(1), entry];
        self.bad_first_key(text, &spots, entry.page, second.as_slice())
    }

    fn bad_keys_of_leaf_nodes(&self) -> anyhow::Result<()> {
        let rule = Rule::Keys;
        let (first, leaf) = (self.pages(4)?, self.pages(9)?);
        let high = self.key(self.s_key(1, 0)?)?;
        let below = self.key(self.s_key(3, 0)?.saturating_sub(1))?;
        let no_key = self.no_key()?;
        let text = "the last key of the first leaf node is the end of its range";
        let last = first.entry(first.last_leaf(), first.last_entry());
        self.break_rule(rule, text, last, high.as_slice())?;
        let text = "the first key of the last leaf node is below its range";
        let entry = leaf.entry(0, 0);
        let spots = [leaf.first_key(0), entry];
        self.bad_first_key(text, &spots, entry.page, below.as_slice())?;
        let text = "the last key of all is not valid";
        let last = leaf.entry(leaf.last_leaf(), leaf.last_entry());
        self.break_rule(rule, text, last, no_key.as_slice())
    }

    fn bad_values(&self) -> anyhow::Result<()> {
        let rule = Rule::Values;
        let (root, leaf) = (self.pages(0)?, self.pages(9)?);
        let no_value = self.no_value()?;
        let end = leaf.last_leaf();
        let text = "a tombstone in the root has a value";
        self.break_rule(rule, text, root.value(0, 0), &[1])?;
        let text = "a live value in the root is not valid";
        self.break_rule(rule, text, root.value(0, 1), no_value.as_slice())?;
        let text = "a byte behind the root's first entries is not zero";
        self.break_rule(rule, text, root.entry(0, root.each), &[7])?;
        let text = "the last value of all is not valid";
        let last = leaf.value(end, leaf.last_entry());
        self.break_rule(rule, text, last, no_value.as_slice())?;
        let text = "the last byte of the last leaf page is not zero";
        self.break_rule(rule, text, leaf.on_leaf(end, 511), &[1])
    }

    fn slots_not_reached(&self) -> anyhow::Result<()> {
        let more = two(self.used().saturating_add(1));
        let many = two(self.used().saturating_add(2));
        let text = "page 0: one used slot more than the tree has";
        self.break_rule(Rule::Reached, text, header(6), &more)?;
        let text = "page 0: two used slots more than the tree has";
        self.break_rule(Rule::Reached, text, header(6), &many)
    }

    // All rules in their order.
    fn all_rules(&self) -> anyhow::Result<()> {
        self.other_kind()?;
        self.no_shape()?;
        self.bad_headers()?;
        self.slots_past_the_store()?;
        self.wrong_children()?;
        self.children_by_levels()?;
        self.too_many_entries()?;
        self.child_slots_of_the_root()?;
        self.child_slots_below()?;
        self.bad_s_keys()?;
        self.node_rests()?;
        self.bad_heads()?;
        self.leaf_counts()?;
        self.bad_marks()?;
        self.bad_keys_of_the_root()?;
        self.bad_keys_of_leaf_nodes()?;
        self.bad_values()?;
        self.slots_not_reached()
    }
}

// A store of these trees, damaged in every way; at the end it is whole again, and opens.
fn damaged(scribe: Scribe, text: &str, store: Store, wish: Wish) -> anyhow::Result<()> {
    scribe.note(text)?;
    let trial = Trial::lay(scribe, store, wish, 2)?;
    trial.all_rules()?;
    let key = trial.key(wish.first)?;
    scribe.note("after a refused open the index is closed; mended, it opens")?;
    scribe.find(key.as_slice(), 64, Refusal::Closed)?;
    scribe.call("open", "ok")?;
    trial.find(wish.first.saturating_add(1), 0)?;
    scribe.call("close", "ok")?;
    Ok(())
}

// Stores without page 0, and one that is a page too short for its used slots.
fn short_stores(scribe: Scribe) -> anyhow::Result<()> {
    let sketch = Sketch::new(scribe.heap(), TICKETS, 0)?;
    let pages = sketch.pages.saturating_sub(1);
    let no_pages = Refusal::NoPage { page: 0, size: 0 };
    let too_few = Refusal::NoPage {
        page: pages,
        size: pages,
    };
    scribe.note("stores of no pages, and one of a page too few")?;
    scribe.kind(KindName::Ticket)?;
    scribe.store(Store::Plain, 0)?;
    scribe.call("open", no_pages)?;
    scribe.call("area plain 511", "size 0")?;
    scribe.call("open", no_pages)?;
    scribe.store(Store::Shifting, 0)?;
    scribe.call("open", no_pages)?;
    for store in [Store::Plain, Store::Shifting] {
        scribe.store(store, pages)?;
        scribe.poke(header(0), sketch.sound(header(0), 14)?)?;
        scribe.call("open", too_few)?;
    }
    Ok(())
}

pub(crate) fn broken_stores(scribe: Scribe) -> anyhow::Result<()> {
    short_stores(scribe)?;
    let text = "tickets on a plain store, damaged";
    damaged(scribe, text, Store::Plain, TICKETS)?;
    let text = "pool lines on a shifting store, damaged";
    damaged(scribe, text, Store::Shifting, LINES)
}
