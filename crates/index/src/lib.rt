// The index area: what stands at a slot, whether the index is sound, the walk from entry to entry, and unused slots.

#![tactic(auto)]

ghost use Rattle.std.specs.Prelude.{◌≡◌, true, ℕ, ◌+◌, ◌*◌, ◌≤◌, ◌<◌, length, drop};
ghost use Rattle.rules.specs.Index.Items.{faultless, step_slots};
ghost use Rattle.rules.specs.Writing.{lowest_unused};
ghost use Rattle.editions.specs.View.{edition_view};
ghost use Rattle.sums.specs.Summed.{Summed};
ghost use Rattle.index.specs.View.{SumsFrom, Behind, run_step, unusable_step, step_at, StepIs, Inside, Past, items_from};
ghost use Rattle.index.specs.Steps.{Walks, Onward, Stops, Told};
ghost use Rattle.index.specs.Unused.{unused_view};

use editions::Edition;
use slots::{Head, Spot};
use units::{Offset, Slot};

// Where a walk stands: the edition, the place of the next slot, its number, and how many slots are left.
#[derive(Clone, Copy)]
pub struct Cursor {
    pub edition: Edition,
    pub at: Offset,
    pub slot: Slot,
    pub left: u64,
}

// A slot that a walk stands at, an entry's first, an unused one or one left over, and the cursor behind what stands there.
#[derive(Clone, Copy)]
pub struct Ahead {
    pub here: Spot,
    pub rest: Cursor,
}

// The cursor n slots further.
fn past(c: Cursor, n: u64) -> Cursor
    requires { (n ≤ c.left) × (c.at.0 + 64 * c.left ≤ 16_777_216) × (c.slot.0 + c.left ≤ 16_777_216) }
    ensures { Past c n result }
{
    Cursor {
        edition: c.edition,
        at: c.at.after_slots(n),
        slot: c.slot.after(n),
        left: c.left - n,
    }
}

// ---- whether the index is sound

// The slots of the run at `at`, none where it is at fault.
fn run_step(img: &[u8], sums: &[u8], ed: Edition, at: Offset, k: Slot, left: u64) -> Option<u64>
    requires { (0 < left) × (at.0 + 64 * left ≤ length img.now) × Summed (edition_view ed) img.now sums.now at.0 k.0 left }
    ensures { StepIs left (run_step (edition_view ed) left (drop at.0 img.now)) result }
{
    if !slots::is_whole(img, sums, ed, at, k, left) {
        return None;
    }
    if !names::path_field_good(slots::name_field(img, ed, at)) {
        return None;
    }
    Some(slots::slots_at(img, ed, at))
}

// One slot for an unusable entry at `at`, none where its sum is wrong.
fn unusable_step(img: &[u8], sums: &[u8], ed: Edition, at: Offset, k: Slot) -> Option<u64>
    requires { Summed (edition_view ed) img.now sums.now at.0 k.0 1 }
    ensures { StepIs 1 (unusable_step (edition_view ed) (drop at.0 img.now)) result }
{
    sums::is_good(ed, sums, k, 1).then_some(1)
}

// The slots of what stands at `at`, none where it is at fault.
fn slot_step(img: &[u8], sums: &[u8], ed: Edition, at: Offset, k: Slot, left: u64) -> Option<u64>
    requires { (0 < left) × (at.0 + 64 * left ≤ length img.now) × Summed (edition_view ed) img.now sums.now at.0 k.0 left }
    ensures { StepIs left (step_at (edition_view ed) left (drop at.0 img.now)) result }
{
    let kind = slots::kind_at(img, at);
    if slots::is_stale(ed, kind) {
        return Some(slots::stale_slots(img, sums, ed, at, k, left, kind));
    }
    if slots::is_run(kind) {
        return run_step(img, sums, ed, at, k, left);
    }
    if kind == slots::UNUSABLE {
        return unusable_step(img, sums, ed, at, k);
    }
    if slots::is_stray(kind) {
        return None;
    }
    Some(1)
}

// Whether no slot from the cursor on is at fault.
pub fn walk_sound(img: &[u8], sums: &[u8], from: Cursor) -> bool
    requires { Inside img.now from × SumsFrom img.now sums.now from }
    ensures { result ≡ faultless (items_from img.now from) }
{
    let mut c = from;
    while 0 < c.left {
        let Some(n) = slot_step(img, sums, c.edition, c.at, c.slot, c.left) else {
            return false;
        };
        c = past(c, n);
    }
    true
}

// ---- from entry to entry

// What stands at the cursor, of this kind and n slots, and the cursor behind it.
fn step_over(c: Cursor, kind: u8, n: u64) -> Ahead
    requires { (n ≤ c.left) × (c.at.0 + 64 * c.left ≤ 16_777_216) × (c.slot.0 + c.left ≤ 16_777_216) }
    ensures here { (result.here.edition ≡ c.edition) × (result.here.at.0 ≡ c.at.0) × (result.here.slot.0 ≡ c.slot.0) × (result.here.kind ≡ kind) }
    ensures rest { Past c n result.rest }
{
    let here = Spot {
        edition: c.edition,
        at: c.at,
        kind,
        slot: c.slot,
    };
    Ahead {
        here,
        rest: past(c, n),
    }
}

// What stands at the cursor, and the cursor behind it.
pub fn further(img: &[u8], sums: &[u8], c: Cursor) -> Ahead
    requires { Walks img.now c × (0 < c.left) × SumsFrom img.now sums.now c }
    ensures { Onward img.now c result.here result.rest }
{
    let kind = slots::kind_at(img, c.at);
    let n = slots::slots_from(img, sums, c.edition, c.at, c.slot, c.left, kind);
    step_over(c, kind, n)
}

// The same where it takes one slot: the cursor behind it does not wait for a count.
pub fn single(img: &[u8], c: Cursor) -> Ahead
    requires { Walks img.now c × (0 < c.left) × (step_slots (edition_view c.edition) c.left (drop c.at.0 img.now) ≡ 1) }
    ensures { Onward img.now c result.here result.rest }
{
    step_over(c, slots::kind_at(img, c.at), 1)
}

// The next entry from the cursor on, by where it stands, and the cursor behind it: unused slots are passed over.
pub fn next_spot(img: &[u8], sums: &[u8], from: Cursor) -> Option<Ahead>
    requires { Walks img.now from × SumsFrom img.now sums.now from }
    ensures { Stops img.now from result }
{
    let mut c = from;
    while 0 < c.left {
        let next = further(img, sums, c);
        if slots::is_entry(next.here.edition, next.here.kind) {
            return Some(next);
        }
        c = next.rest;
    }
    None
}

// The same with all numbers of the entry.
pub fn next_entry(img: &[u8], sums: &[u8], from: Cursor) -> Option<(Head, Cursor)>
    requires { Walks img.now from × SumsFrom img.now sums.now from }
    ensures { Told img.now from result }
{
    let Ahead { here, rest } = next_spot(img, sums, from)?;
    let head = slots::head_at(img, here.edition, here.at, here.slot);
    Some((head, rest))
}

// ---- unused slots

// The cursor behind the entries of one slot each that stand here. The loop need not wait for a count to know where the next slot is.
fn past_singles(img: &[u8], from: Cursor) -> Cursor
    requires { Walks img.now from }
    ensures { Walks img.now result × (result.left ≤ from.left) × ((n : ℕ) → 1 ≤ n → lowest_unused n (items_from img.now result) ≡ lowest_unused n (items_from img.now from)) × Behind from result }
{
    let mut c = from;
    while 0 < c.left {
        if !slots::is_entry(c.edition, slots::kind_at(img, c.at)) {
            return c;
        }
        if !slots::is_single(img, c.edition, c.at) {
            return c;
        }
        c = past(c, 1);
    }
    c
}

// The lowest n unused slots in a row; all from `first` up to the cursor's are unused.
pub fn lowest_unused(img: &[u8], sums: &[u8], from: Cursor, n: u64) -> Option<Slot>
    requires { Walks img.now from × (1 ≤ n) × SumsFrom img.now sums.now from }
    ensures { unused_view result ≡ lowest_unused n (items_from img.now from) }
{
    let mut c = from;
    let mut first = from.slot;
    while 0 < c.left {
        let Ahead { here, rest } = further(img, sums, c);
        if slots::is_entry(here.edition, here.kind) {
            c = past_singles(img, rest);
            first = c.slot;
        } else {
            c = rest;
            if n <= first.slots_to(c.slot) {
                return Some(first);
            }
        }
    }
    None
}
