// Free runs, blocks held, the blocks that a file needs, and the least end of the data area.

#![tactic(auto)]

ghost use Rattle.std.specs.Prelude.{◌≡◌, List, ℕ, ◌+◌, ◌^◌, ◌≤◌, ◌<◌, drop, leb};
ghost use Rattle.std.proofs.Math.Option.{none, some};
ghost use Rattle.rules.specs.Lists.{pick, All};
ghost use Rattle.rules.specs.Index.{Entry};
ghost use Rattle.rules.specs.Regions.{held_blocks, lowest_free, blocks_needed};
ghost use Rattle.rules.specs.Writing.{least_end};
ghost use Rattle.slots.specs.View.{head_view};
ghost use Rattle.index.specs.View.{SumsFrom};
ghost use Rattle.index.specs.Steps.{Walks, entries_from};
ghost use Rattle.ordering.specs.Regions.{free_from, Small};
ghost use Rattle.regions.specs.Gathering.{HasRegions};
ghost use Rattle.free_runs.specs.View.{free_view, is_gone, staying};
ghost use Rattle.free_runs.specs.Sums.{file_blocks, kept_end};

use index::Cursor;
use slots::Head;
use units::{Block, Slot};

// The blocks of `len` bytes that a file of so many bytes needs.
pub fn blocks_needed(len: u64, bytes: u64) -> u64
    requires { 0 < len }
    ensures { result ≡ blocks_needed len bytes }
{
    bytes.div_ceil(len)
}

// ---- the lowest free run

// Where a search for k free blocks from `low` on stops, among the regions of the keys from place `from` on, in order.
fn free_from(keys: &[u64], from: usize, k: u64, low: Block) -> Block
    ensures { result.0 ≡ free_from k low.0 (drop from keys.now) }
{
    let mut b = low;
    for &key in keys.iter().skip(from) {
        if b.has_room(k, regions::key_start(key)) {
            return b;
        }
        b = b.max(regions::key_end(key));
    }
    b
}

// The answer of a search that stops at b: k blocks from there on, if they end at or below `ceiling`.
fn free_below(b: Block, k: u64, ceiling: Block) -> Option<Block>
    ensures { free_view result ≡ pick (leb (b.0 + k) ceiling.0) (some b.0) none }
{
    b.has_room(k, ceiling).then_some(b)
}

// The lowest start, at or past `low`, of k blocks that end at or below `ceiling` and that are free of the regions of the keys from place i on.
// These are in order, and the search passes over them once.
pub fn lowest_free(keys: &[u64], i: usize, k: u64, low: Block, ceiling: Block) -> Option<Block>
    requires { 1 ≤ k }
    ensures { (es : List Entry) → HasRegions es (drop i keys.now) → free_view result ≡ lowest_free es k low.0 ceiling.0 }
{
    let b = free_from(keys, i, k, low);
    free_below(b, k, ceiling)
}

// ---- sums and ends over all entries

// The blocks of a live or deleted file, 0 of any other entry.
fn file_blocks(h: Head) -> u64
    requires { h.end.0 + 1 < 2 ^ 64 }
    ensures { (s : List ℕ) → result ≡ file_blocks (head_view s h) }
{
    if slots::is_file(h.kind) {
        slots::past_end(h).blocks_past(h.start)
    } else {
        0
    }
}

// The blocks of live and deleted files from the cursor on.
pub fn held_blocks(img: &[u8], sums: &[u8], from: Cursor) -> u64
    requires { Walks img.now from × All Small (entries_from img.now from) × SumsFrom img.now sums.now from }
    ensures { result ≡ held_blocks (entries_from img.now from) }
{
    let mut c = from;
    let mut held = 0;
    while let Some((e, rest)) = index::next_entry(img, sums, c) {
        held += file_blocks(e);
        c = rest;
    }
    held
}

// The entries that a call takes away: all deleted ones, or the one whose first slot this is.
#[derive(Clone, Copy)]
pub enum Gone {
    Deleted,
    At(Slot),
}

fn is_gone(h: Head, gone: Gone) -> bool
    ensures { (s : List ℕ) → result ≡ is_gone gone (head_view s h) }
{
    match gone {
        Gone::Deleted => slots::is_deleted(h.kind),
        Gone::At(slot) => h.slot == slot,
    }
}

// The end of a region that is kept, 0 of an entry that goes.
fn kept_end(h: Head, gone: Gone) -> Block
    requires { h.end.0 + 1 < 2 ^ 64 }
    ensures { (s : List ℕ) → result.0 ≡ kept_end (is_gone gone) (head_view s h) }
{
    if is_gone(h, gone) {
        Block::at(0)
    } else {
        slots::past_end(h)
    }
}

// The least end that the data area can have once these entries are gone.
pub fn last_end(img: &[u8], sums: &[u8], from: Cursor, gone: Gone) -> Block
    requires { Walks img.now from × All Small (entries_from img.now from) × SumsFrom img.now sums.now from }
    ensures { result.0 ≡ least_end (staying gone (entries_from img.now from)) }
{
    let mut c = from;
    let mut last = Block::at(0);
    while let Some((e, rest)) = index::next_entry(img, sums, c) {
        last = last.max(kept_end(e, gone));
        c = rest;
    }
    last
}
