// Slots of the index area: the one owner of their layout in code. What a slot's first byte says, and an entry's fields and name.

#![tactic(auto)]

ghost use Rattle.std.specs.Prelude.{◌≡◌, true, false, List, ℕ, ◌+◌, ◌*◌, ◌/◌, ◌^◌, ◌≤◌, ◌<◌, length, get_or, take, drop, leb};
ghost use Rattle.rules.specs.Editions.{sum_good, keeps_deleted};
ghost use Rattle.rules.specs.Index.{file_type, run_type, live_type, deleted_type, stray_type, stale_type, name_at, continuing, run_slots, run_whole, stale_slots, name_field, file_field, entry_at};
ghost use Rattle.rules.specs.Index.Items.{entry_type, step_slots, head_of};
ghost use Rattle.rules.specs.Writing.{deleted_kind, live_kind};
ghost use Rattle.editions.specs.View.{edition_view};
ghost use Rattle.sums.specs.Summed.{Summed};
ghost use Rattle.slots.specs.Types.{entry_types};
ghost use Rattle.slots.specs.View.{head_view, HeadIn};

use editions::Edition;
use units::{Block, Offset, Slot};

// ---- what a slot's first byte says

pub const IDENTIFIER: u8 = 0x01;

pub const MARKER: u8 = 0x02;

pub const UNUSED: u8 = 0x10;

pub const DIRECTORY: u8 = 0x11;

pub const FILE: u8 = 0x12;

pub const UNUSABLE: u8 = 0x18;

pub const DELETED_DIRECTORY: u8 = 0x19;

pub const DELETED_FILE: u8 = 0x1A;

// The least first byte that is no type.
const STRAY: u8 = 0x20;

// A live or deleted file.
pub fn is_file(kind: u8) -> bool
    ensures { result ≡ file_type kind }
{
    matches!(kind, FILE | DELETED_FILE)
}

// A type that starts a run. Walks ask it of every slot, and most are live files.
pub fn is_run(kind: u8) -> bool
    ensures { result ≡ run_type kind }
{
    is_live(kind) || is_deleted(kind)
}

// A slot that is left over: a deleted run, or a stray slot. An edition that keeps deleted entries has none.
pub fn is_stale(ed: Edition, kind: u8) -> bool
    ensures { result ≡ stale_type (edition_view ed) kind }
{
    !ed.keeps_deleted() && (is_deleted(kind) || STRAY <= kind)
}

// The types that start an entry, as bits.
const ENTRIES: u64 = 0x0106_0000;

// In an edition that keeps deleted entries these too.
const DELETED: u64 = 0x0600_0000;

fn entry_types(ed: Edition) -> u64
    ensures { result ≡ entry_types (edition_view ed) }
{
    if ed.keeps_deleted() {
        ENTRIES + DELETED
    } else {
        ENTRIES
    }
}

// A type that starts an entry. Walks ask it of every slot: as bits, the edition is no case to split on there.
pub fn is_entry(ed: Edition, kind: u8) -> bool
    ensures { result ≡ entry_type (edition_view ed) kind }
{
    // Kept: as one test joined by `&&` it misses the bar of speed, a walk takes a tenth longer for each slot.
    if STRAY <= kind {
        return false;
    }
    (entry_types(ed) >> kind) % 2 == 1
}

pub fn is_live(kind: u8) -> bool
    ensures { result ≡ live_type kind }
{
    matches!(kind, DIRECTORY | FILE)
}

pub fn is_deleted(kind: u8) -> bool
    ensures { result ≡ deleted_type kind }
{
    matches!(kind, DELETED_DIRECTORY | DELETED_FILE)
}

// The type that an entry of this type has once it is deleted.
pub fn deleted_kind(kind: u8) -> u8
    ensures { result ≡ deleted_kind kind }
{
    if is_file(kind) {
        DELETED_FILE
    } else {
        DELETED_DIRECTORY
    }
}

// The type that an entry of this type has once it is restored.
pub fn live_kind(kind: u8) -> u8
    ensures { result ≡ live_kind kind }
{
    if is_file(kind) { FILE } else { DIRECTORY }
}

// A first byte that is a fault where it starts no entry. In 1.10 those from 0x20 on were taken as left over before this is asked.
pub fn is_stray(kind: u8) -> bool
    ensures { result ≡ stray_type kind }
{
    STRAY <= kind || matches!(kind, IDENTIFIER | MARKER)
}

// ---- where an entry's fields lie in its first slot, those of a run behind its sum

pub const COUNT: u64 = 1;

pub const STAMP: u64 = 2;

pub const START: u64 = 10;

pub const END: u64 = 18;

pub const LENGTH: u64 = 26;

const FILE_NAME: u64 = 34;

const DIRECTORY_NAME: u64 = 10;

// An entry as it stands in its first slot; the stamp is held as its bits, and the end as it is stored.
#[derive(Clone, Copy)]
pub struct Head {
    pub edition: Edition,
    pub at: Offset,
    pub kind: u8,
    pub slot: Slot,
    pub slots: u64,
    pub stamp: u64,
    pub start: Block,
    pub end: Block,
    pub length: u64,
}

// A slot that starts an entry, or is unused or left over: its edition, place, first byte and number.
#[derive(Clone, Copy)]
pub struct Spot {
    pub edition: Edition,
    pub at: Offset,
    pub kind: u8,
    pub slot: Slot,
}

// The first byte of the slot at `at`.
pub fn kind_at(img: &[u8], at: Offset) -> u8
    requires { at.0 < length img.now }
    ensures { result ≡ get_or img.now at.0 0 }
{
    let i = at.index();
    img[i]
}

// The slots of the run at `at`: the first, and those that continue its name.
pub fn slots_at(img: &[u8], ed: Edition, at: Offset) -> u64
    requires { at.0 + 64 ≤ length img.now }
    ensures { (result ≡ run_slots (edition_view ed) (drop at.0 img.now)) × (1 ≤ result) × (result ≤ 256) }
{
    let i = at.after(ed.sum_length() + COUNT).index();
    1 + u64::from(img[i])
}

// Where it says yes, a walk goes on by one slot from `at`; a no says nothing. The count is only tested, so that where the next slot is does not depend on it.
pub fn is_single(img: &[u8], ed: Edition, at: Offset) -> bool
    requires { at.0 + 64 ≤ length img.now }
    ensures { result ≡ true → (left : ℕ) → step_slots (edition_view ed) left (drop at.0 img.now) ≡ 1 }
{
    let i = at.after(ed.sum_length() + COUNT).index();
    img[i] == 0
}

// All bytes of so many slots from `at` on.
pub fn bytes_of(img: &[u8], at: Offset, n: u64) -> &[u8]
    requires { at.0 + 64 * n ≤ length img.now }
    ensures { result.now ≡ take (64 * n) (drop at.0 img.now) }
{
    let end = at.after_slots(n).index();
    let start = at.index();
    &img[start..end]
}

// Whether the sum of the entry that has so many slots from `at` on is right.
pub fn sum_good(img: &[u8], ed: Edition, at: Offset, n: u64) -> bool
    requires { at.0 + 64 * n ≤ length img.now }
    ensures { result ≡ sum_good (edition_view ed) (take (64 * n) (drop at.0 img.now)) }
{
    ed.sum_good(bytes_of(img, at, n))
}

// Whether the run at `at`, which is slot k, lies among the `left` slots from there on and its sum is right.
pub fn is_whole(img: &[u8], sums: &[u8], ed: Edition, at: Offset, k: Slot, left: u64) -> bool
    requires { (0 < left) × (at.0 + 64 * left ≤ length img.now) × Summed (edition_view ed) img.now sums.now at.0 k.0 left }
    ensures { result ≡ run_whole (edition_view ed) left (drop at.0 img.now) }
{
    let slots = slots_at(img, ed, at);
    slots <= left && sums::is_good(ed, sums, k, slots)
}

// How many slots are left over at `at`, which is slot k: those of a deleted run that is whole, else one. Where something is left over, entries have sums: the edition is
// not asked, as `is_whole` does, since walks ask this of every such slot.
pub fn stale_slots(
    img: &[u8],
    sums: &[u8],
    ed: Edition,
    at: Offset,
    k: Slot,
    left: u64,
    kind: u8,
) -> u64
    requires { (0 < left) × (at.0 + 64 * left ≤ length img.now) × (kind ≡ get_or img.now at.0 0) × Summed (edition_view ed) img.now sums.now at.0 k.0 left × (keeps_deleted (edition_view ed) ≡ false) }
    ensures { (result ≡ stale_slots (edition_view ed) left (drop at.0 img.now)) × (result ≤ 256) × (result ≤ left) }
{
    if !is_deleted(kind) {
        return 1;
    }
    let n = slots_at(img, ed, at);
    if left < n {
        return 1;
    }
    if !sums::sum_to_zero(sums, k, n) {
        return 1;
    }
    n
}

// The slots of the entry at `at`.
fn entry_slots(img: &[u8], ed: Edition, at: Offset, kind: u8) -> u64
    requires { (at.0 + 64 ≤ length img.now) × (kind ≡ get_or img.now at.0 0) × (entry_type (edition_view ed) kind ≡ true) }
    ensures { ((left : ℕ) → result ≡ step_slots (edition_view ed) left (drop at.0 img.now)) × (result ≤ 256) }
{
    if kind == UNUSABLE {
        return 1;
    }
    slots_at(img, ed, at)
}

// How many of the `left` slots a walk goes on from `at`: those of an entry, or of what is left over, else one.
pub fn slots_from(
    img: &[u8],
    sums: &[u8],
    ed: Edition,
    at: Offset,
    k: Slot,
    left: u64,
    kind: u8,
) -> u64
    requires { (0 < left) × (at.0 + 64 * left ≤ length img.now) × (kind ≡ get_or img.now at.0 0) × Summed (edition_view ed) img.now sums.now at.0 k.0 left }
    ensures { (result ≡ step_slots (edition_view ed) left (drop at.0 img.now)) × (result ≤ 256) }
{
    if is_entry(ed, kind) {
        return entry_slots(img, ed, at, kind);
    }
    if !is_deleted(kind) {
        return 1;
    }
    stale_slots(img, sums, ed, at, k, left, kind)
}

// ---- a name in its run

// Where the name starts in the first slot of an entry of this kind.
pub fn name_at(ed: Edition, kind: u8) -> u64
    ensures { (result ≡ name_at (edition_view ed) kind) × (result ≤ 35) }
{
    let sum = ed.sum_length();
    if is_file(kind) {
        sum + FILE_NAME
    } else {
        sum + DIRECTORY_NAME
    }
}

// The fewest slots that continue a name of n bytes and its zero. n is taken apart so that no sum wraps, however large it is.
fn continuing(ed: Edition, kind: u8, n: u64) -> u64
    ensures { (result ≡ continuing (edition_view ed) kind n) × (result ≤ n / 64 + 1) }
{
    n / units::SLOT_BYTES + (n % units::SLOT_BYTES + name_at(ed, kind)) / units::SLOT_BYTES
}

// The fewest slots of a run whose name has n bytes.
pub fn run_slots(ed: Edition, kind: u8, n: u64) -> u64
    ensures { result ≡ 1 + continuing (edition_view ed) kind n }
{
    1 + continuing(ed, kind, n)
}

// The name of the run at `at`: its field and the slots that continue it, in one piece.
pub fn name_field(img: &[u8], ed: Edition, at: Offset) -> &[u8]
    requires { at.0 + 64 * run_slots (edition_view ed) (drop at.0 img.now) ≤ length img.now }
    ensures { result.now ≡ name_field (edition_view ed) (drop at.0 img.now) }
{
    let name = at.after(name_at(ed, kind_at(img, at)));
    let rest = at.after_slots(slots_at(img, ed, at));
    let start = name.index();
    let end = rest.index();
    &img[start..end]
}

// ---- an entry

// A field of a file at `at`; a directory has 0.
fn file_field(img: &[u8], at: Offset, o: u64) -> u64
    requires { (at.0 + 64 ≤ length img.now) × (o + 8 ≤ 64) }
    ensures { result ≡ file_field (drop at.0 img.now) o }
{
    if is_file(kind_at(img, at)) {
        return fields::le64_at(img, at.after(o));
    }
    0
}

fn run_head(img: &[u8], edition: Edition, at: Offset, slot: Slot) -> Head
    requires { (at.0 + 64 ≤ length img.now) × (run_type (get_or img.now at.0 0) ≡ true) }
    ensures result_value { head_view img.now result ≡ entry_at (edition_view edition) slot.0 (drop at.0 img.now) }
    ensures place { (result.edition ≡ edition) × (result.at.0 ≡ at.0) × (result.slots ≤ 256) }
{
    let sum = edition.sum_length();
    Head {
        edition,
        at,
        kind: kind_at(img, at),
        slot,
        slots: slots_at(img, edition, at),
        stamp: fields::le64_at(img, at.after(sum + STAMP)),
        start: Block::at(file_field(img, at, sum + START)),
        end: Block::at(file_field(img, at, sum + END)),
        length: file_field(img, at, sum + LENGTH),
    }
}

// The numbers of the entry whose first slot is at `at`; an unusable entry has a region only, at places of its own.
pub fn head_at(img: &[u8], edition: Edition, at: Offset, slot: Slot) -> Head
    requires { at.0 + 64 ≤ length img.now }
    ensures result_value { head_view img.now result ≡ head_of (edition_view edition) slot.0 (drop at.0 img.now) }
    ensures place { (result.edition ≡ edition) × (result.at.0 ≡ at.0) × (result.slots ≤ 256) }
{
    if is_run(kind_at(img, at)) {
        return run_head(img, edition, at, slot);
    }
    Head {
        edition,
        at,
        kind: UNUSABLE,
        slot,
        slots: 1,
        stamp: 0,
        start: Block::at(fields::le64_at(img, at.after(START))),
        end: Block::at(fields::le64_at(img, at.after(END))),
        length: 0,
    }
}

// The block past the region of an entry.
pub fn past_end(h: Head) -> Block
    requires { h.end.0 + 1 < 2 ^ 64 }
    ensures { (s : List ℕ) → result.0 ≡ (head_view s h).end }
{
    let ed = h.edition;
    ed.past_end(h.end)
}

// Whether the region of an entry ends at or before block b, at any 64-bit end.
pub fn ends_by(h: Head, b: Block) -> bool
    ensures { (s : List ℕ) → result ≡ leb (head_view s h).end b.0 }
{
    let ed = h.edition;
    ed.ends_by(h.end, b)
}

// The path of a run, as a part of the image.
pub fn path_of(img: &[u8], h: Head) -> &[u8]
    requires { HeadIn img.now h × (run_type h.kind ≡ true) }
    ensures { result.now ≡ (head_view img.now h).path }
{
    let field = name_field(img, h.edition, h.at);
    let n = fields::zero_at(field);
    &field[..n]
}
