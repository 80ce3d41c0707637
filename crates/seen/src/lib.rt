#![tactic(auto)]
// The lent table of the nodes that a stalled search has met. An entry is ten words: a node's root, interval, edge, polygon left and
// polygon entered, as bits. It is found by the sum of its words, which wraps, and then by the next entry, behind the last the first.
// Only these functions know where an entry lies.

ghost use Rattle.std.specs.Prelude.{◌≡◌, ◌+◌, ◌*◌, ◌<◌, ◌≤◌, true, length};
ghost use Rattle.seen.specs.Table.{words_per_entry, key_of, entries_in, is_used, holds, sum_to, next, found_in, entry_put, laid_out, remembered_of, remembered};
ghost use Rattle.seen.specs.Kept.{IsKey, Records};

use places::MOST_PLACES;
use queue::NONE;
use steps::Node;

// Words of an entry.
pub const ENTRY: usize = 10;

// The word of an entry that says whether it is used.
const ENTERED: usize = 9;

// What comes of a node that is looked up.
#[derive(Clone, Copy)]
pub enum Entry {
    // It was met for the first time, or nothing is recorded.
    New,
    // It was met before.
    Seen,
    // It was not, and no entry is left for it.
    NoRoom,
}

// Where looking up ends.
#[derive(Clone, Copy)]
pub enum Spot {
    // At the entry that holds the key.
    Held,
    // At an unused entry, this one.
    Free(usize),
    // Every entry is used, and none holds the key.
    Nowhere,
}

// How many entries the lent words hold.
#[tactic(auto, unfolding(crate::specs::Table::entries_in))]
pub fn entries_in(table: &[u32]) -> usize
    ensures { result ≡ entries_in table.now }
{
    let words = table.len();
    if MOST_PLACES * ENTRY <= words {
        return MOST_PLACES;
    }
    (words as u32 / 10) as usize
}

// No entry is used.
#[tactic(auto, unfolding(crate::specs::Table::entries_in, crate::specs::Table::laid_out))]
pub fn lay_out(table: &mut [u32])
    ensures { table.new ≡ laid_out table.old }
{
    let entries = entries_in(table);
    queue::clear(table, entries * ENTRY);
}

// The ten words by which a node is told apart.
#[tactic(auto, unfolding(crate::specs::Table::key_of))]
fn key_of(node: Node) -> [u32; ENTRY]
    ensures { result ≡ key_of node }
{
    let root = node.root;
    let interval = node.interval;
    let right = interval.0;
    let left = interval.1;
    [
        float::to_bits(root.x),
        float::to_bits(root.y),
        float::to_bits(right.x),
        float::to_bits(right.y),
        float::to_bits(left.x),
        float::to_bits(left.y),
        node.first,
        node.second,
        node.left,
        node.polygon,
    ]
}

// The sum of the ten words, wrapped at 32 bits.
#[tactic(auto, unfolding(crate::specs::Table::sum_to))]
fn sum_of(key: &[u32; ENTRY]) -> u32
    ensures { result ≡ sum_to key.now words_per_entry }
{
    let mut sum: u32 = 0;
    for word in key {
        sum = sum.wrapping_add(*word);
    }
    sum
}

// Whether an entry is used.
#[tactic(auto, unfolding(crate::specs::Table::entry_word, crate::specs::Table::is_used))]
fn is_used(table: &[u32], j: usize) -> bool
    requires { (j + 1) * words_per_entry ≤ length table.now }
    ensures { result ≡ is_used table.now j }
{
    table[j * ENTRY + ENTERED] != NONE
}

// Whether all ten words of an entry are those of the key.
#[tactic(auto, unfolding(crate::specs::Table::entry_word))]
fn holds(table: &[u32], j: usize, key: &[u32; ENTRY]) -> bool
    requires { (j + 1) * words_per_entry ≤ length table.now }
    ensures { result ≡ holds table.now key.now j }
{
    let row = j * ENTRY;
    for k in 0..ENTRY {
        if table[row + k] != key[k] {
            return false;
        }
    }
    true
}

// The next entry, behind the last the first.
#[tactic(auto, unfolding(crate::specs::Table::next))]
fn next(entries: usize, j: usize) -> usize
    requires { j < entries }
    ensures { result ≡ next entries j }
{
    if j + 1 == entries {
        return 0;
    }
    j + 1
}

// Looks a key up: from the slot that its sum gives to the entry that holds it, or to an unused one, or all the way round.
fn look_up(table: &[u32], key: &[u32; ENTRY]) -> Spot
    ensures { let held = table.now in result ≡ found_in held key.now (entries_in held) }
{
    let entries = entries_in(table);
    if entries == 0 {
        return Spot::Nowhere;
    }
    let mut j = (sum_of(key) % entries as u32) as usize;
    for _ in 0..entries {
        if !is_used(table, j) {
            return Spot::Free(j);
        }
        if holds(table, j, key) {
            return Spot::Held;
        }
        j = next(entries, j);
    }
    Spot::Nowhere
}

// Stores a key as an entry.
#[tactic(auto, unfolding(crate::specs::Table::stored_to, crate::specs::Table::entry_put))]
fn put_entry(table: &mut [u32], j: usize, key: &[u32; ENTRY])
    requires { (j + 1) * words_per_entry ≤ length table.old }
    ensures { table.new ≡ entry_put table.old j key.now }
{
    let row = j * ENTRY;
    for k in 0..ENTRY {
        table[row + k] = key[k];
    }
}

// Looks a node up, and enters it where it is new. Where nothing is recorded the table stays, and every node is new.
#[tactic(auto, unfolding(crate::specs::Table::remembered))]
pub fn remember(recording: bool, table: &mut [u32], node: Node) -> Entry
    requires records { recording ≡ true → Records table.old }
    requires key { IsKey (key_of node) }
    ensures { remembered_of result table.new ≡ remembered recording table.old (key_of node) }
{
    if !recording {
        return Entry::New;
    }
    let key = key_of(node);
    match look_up(table, &key) {
        Spot::Held => Entry::Seen,
        Spot::Free(j) => {
            put_entry(table, j, &key);
            Entry::New
        }
        Spot::Nowhere => Entry::NoRoom,
    }
}
