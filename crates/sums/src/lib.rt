// Sums of slots, taken once for a walk: two of them tell whether a run sums right, so that no slot is summed anew for every run that claims it.

#![tactic(auto)]

ghost use Rattle.std.specs.Prelude.{◌≡◌, ◌+◌, ◌*◌, ◌%◌, ◌≤◌, ◌<◌, length, take, drop};
ghost use Rattle.editions.specs.View.{edition_view};
ghost use Rattle.rules.specs.Fields.{byte_sum};
ghost use Rattle.sums.specs.Summed.{Summed, AddsUp, alike, good_by};

use editions::Edition;
use units::{Offset, Slot};

// Room for the sums of the longest index: one before each slot, and one past the last.
pub const ROOM: usize = 4_096;

// The sum of slot i from `at` on, modulo 256.
fn slot_sum(img: &[u8], at: Offset, i: u64) -> u64
    requires { (at.0 + 64 * (i + 1) ≤ length img.now) × (length img.now ≤ 16_777_216) }
    ensures { (result ≡ byte_sum (take 64 (drop (at.0 + 64 * i) img.now)) % 256) × (result < 256) }
{
    let slot = at.after_slots(i);
    let start = slot.index();
    let end = slot.after_slots(1).index();
    fields::sum_of(&img[start..end])
}

// Place first + i gets the sum of the i slots from `at` on, modulo 256, for each i up to n.
fn add_up(img: &[u8], at: Offset, first: usize, n: u64, sums: &mut [u8])
    requires { (at.0 + 64 * n ≤ length img.now) × (length img.now ≤ 16_777_216) × (first + n < length sums.old) }
    ensures { AddsUp img.now sums.new at.0 first n }
{
    let mut sum: u64 = 0;
    sums[first] = 0;
    for i in 0..n {
        sum = (sum + slot_sum(img, at, i)) % 256;
        sums[first + i as usize + 1] = sum as u8;
    }
}

// The sums of n slots from slot `first` on, which stands at `at`. An edition whose entries have no sum needs none.
pub fn take(img: &[u8], ed: Edition, at: Offset, first: Slot, n: u64, sums: &mut [u8])
    requires { (at.0 + 64 * n ≤ length img.now) × (length img.now ≤ 16_777_216) × (first.0 + n < length sums.old) }
    ensures { Summed (edition_view ed) img.now sums.new at.0 first.0 n }
{
    if ed.sum_length() == 0 {
        return;
    }
    add_up(img, at, first.number() as usize, n, sums);
}

// Whether n slots from slot k on sum to 0, in an edition whose entries have sums.
pub fn sum_to_zero(sums: &[u8], k: Slot, n: u64) -> bool
    requires { k.0 + n < length sums.now }
    ensures { result ≡ alike sums.now k.0 n }
{
    let first = k.number() as usize;
    let past = first + n as usize;
    sums[first] == sums[past]
}

// Whether n slots from slot k on sum right.
pub fn is_good(ed: Edition, sums: &[u8], k: Slot, n: u64) -> bool
    requires { k.0 + n < length sums.now }
    ensures { result ≡ good_by (edition_view ed) sums.now k.0 n }
{
    ed.sum_length() == 0 || sum_to_zero(sums, k, n)
}
