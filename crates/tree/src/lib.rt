// The tree of an index as a pure model: what an index means, what a put or a remove does to it step by step, and what
// it keeps. It promises laws of that model, each by the contract of a function here, for keys and values that are byte
// strings, every order of keys and every legal shape. No code runs on it: the crates that keep the tree on pages cite
// its definitions and rest on its laws. It uses the crates of records and of shapes.
#![tactic(auto)]

ghost use Rattle.tree.specs.Laws.{Everywhere, StaysSound, ChangesItsKey, ChangesTheMap, FewBatches, FewSlots};
ghost use Rattle.tree.specs.Laws.{NothingOverflows, WeightBoundsBatches, PotentialGrowsByOne, AlwaysSound};
ghost use Rattle.tree.specs.Laws.{AlwaysWithinSlots, AlwaysTheMap, BatchesInAll, LeavesInAll, ManyLeaves};
ghost use Rattle.tree.specs.Laws.{TenLevels, TenLevelsRefuse, MergeIsUnion, HeavyIsLeftmost, PathIsPinned};
ghost use Rattle.tree.specs.Laws.{ReliefKeepsTheMap, ReliefFollowsPath};
ghost use Rattle.tree.specs.Keys.{KindsOrderKeys};
ghost use Rattle.tree.specs.Examples.{WorkedExamples};

// A change that is not refused keeps the index sound, and finds the slots that it takes.
pub fn changes_keep_the_index_sound()
    ensures { Everywhere StaysSound }
{}

// A put or a remove changes the map at its own key, as it should, and nowhere else.
pub fn changes_change_their_key_alone()
    ensures { Everywhere ChangesItsKey }
{}

// An index that means an ordered map means, after a change, that map after the put or the remove.
pub fn changes_change_the_map()
    ensures { Everywhere ChangesTheMap }
{}

// A change moves at most levels - 1 batches.
pub fn changes_move_few_batches()
    ensures { Everywhere FewBatches }
{}

// A change takes at most levels + 1 slots, and levels never fall.
pub fn changes_take_few_slots()
    ensures { Everywhere FewSlots }
{}

// Every node on the path has a full batch to move, and no node holds too much on the way.
pub fn relief_overflows_nothing()
    ensures { Everywhere NothingOverflows }
{}

// What a change moves lowers the weight, which is the sum of height times entries, and the new entry adds its height.
pub fn weight_bounds_batches()
    ensures { Everywhere WeightBoundsBatches }
{}

// A change raises the leaf potential by at most one.
pub fn leaf_potential_grows_by_one()
    ensures { Everywhere PotentialGrowsByOne }
{}

// From the empty index every list of changes that fits into 1,024 slots leaves a sound index.
pub fn histories_stay_sound()
    ensures { Everywhere AlwaysSound }
{}

// In 1,024 slots or fewer every list of changes asked for, refused or not, leaves a sound index.
pub fn histories_stay_within_slots()
    ensures { Everywhere AlwaysWithinSlots }
{}

// From the empty index every list of changes leaves the plain ordered map of the same puts and removes.
pub fn histories_keep_the_map()
    ensures { Everywhere AlwaysTheMap }
{}

// Of n changes, all batches together move at most n times levels - 1 entries.
pub fn histories_move_few_batches()
    ensures { Everywhere BatchesInAll }
{}

// Of n changes, every g make at most one leaf node more.
pub fn histories_make_few_leaves()
    ensures { Everywhere LeavesInAll }
{}

// Two levels and more have at least two times u to the power levels - 2 leaf nodes.
pub fn levels_have_many_leaves()
    ensures { Everywhere ManyLeaves }
{}

// In 1,024 slots there are at most ten levels.
pub fn slots_bound_the_levels()
    ensures { Everywhere TenLevels }
{}

// At ten levels every change that may take slots is refused.
pub fn ten_levels_refuse_relief()
    ensures { Everywhere TenLevelsRefuse }
{}

// A merge is the union in order in which the mover wins, and the merge of two lists entry by entry is that.
pub fn merge_is_the_union()
    ensures { Everywhere MergeIsUnion }
{}

// The heavy child has the largest tally, and the leftmost of those.
pub fn heavy_child_is_leftmost()
    ensures { Everywhere HeavyIsLeftmost }
{}

// The path is the one list of nodes that follows its rule.
pub fn path_is_pinned()
    ensures { Everywhere PathIsPinned }
{}

// Relief of a full inner root leaves a sound root and the same map.
pub fn relief_keeps_the_map()
    ensures { Everywhere ReliefKeepsTheMap }
{}

// The nodes that move a batch are those of the path.
pub fn relief_follows_the_path()
    ensures { Everywhere ReliefFollowsPath }
{}

// The order of any record kind is an order of all byte strings, so every law above holds with it.
pub fn kinds_order_keys()
    ensures { KindsOrderKeys }
{}

// The worked examples of docs/TREE.md hold, by computation.
pub fn examples_hold()
    ensures { WorkedExamples }
{}
