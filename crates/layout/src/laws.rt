// The laws of the inspection, each by the contract of a function. Nothing runs here.
ghost use Rattle.layout.specs.Laws.{Everywhere, AcceptsWhatIsHeld, HoldsOne, FormatHoldsTheEmpty};
ghost use Rattle.layout.specs.Named.{OtherPagesAreFree};
ghost use Rattle.layout.specs.Descent.{SKeysTellTheChild};
ghost use Rattle.layout.specs.Search.{SearchByFirstKeys, ComparesAsTheTree};
ghost use Rattle.layout.specs.WalkReads.{WalkReadsFew};
ghost use Rattle.layout.specs.Examples.{InspectedExamples};

// The inspection accepts an index exactly when the pages hold it.
pub fn inspection_accepts_what_is_held()
    ensures { Everywhere AcceptsWhatIsHeld }
{}

// The pages hold at most one index.
pub fn pages_hold_one_index()
    ensures { Everywhere HoldsOne }
{}

// After format the pages hold the empty index.
pub fn format_holds_the_empty_index()
    ensures { Everywhere FormatHoldsTheEmpty }
{}

// What leaf pages past the filled ones and slots that are not used hold does not matter.
pub fn other_pages_are_free()
    ensures { OtherPagesAreFree }
{}

// The first keys on the head page tell the one leaf page that decides what a node's entries say of a key, and how many
// of them are below it.
pub fn first_keys_tell_the_page()
    ensures { SearchByFirstKeys }
{}

// The s-keys on a node page tell the one child that decides what a node says of a key beside its own entries, and that
// child stands on its pages too.
pub fn s_keys_tell_the_child()
    ensures { Everywhere SKeysTellTheChild }
{}

// On valid keys the kind's comparison is the one that the tree goes by.
pub fn kinds_compare_as_the_tree()
    ensures { ComparesAsTheTree }
{}

// On pages that hold an index the walk reads at most W pages for each used slot.
pub fn walk_reads_few_pages()
    ensures { Everywhere WalkReadsFew }
{}

// Stores that hold an index are accepted, and with a byte changed the first rule broken is told with its page, for
// every rule.
pub fn examples_are_inspected()
    ensures { InspectedExamples }
{}
