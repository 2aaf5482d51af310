// A whole listing: a record for each live entry from a slot on, up to the first that does not fit, in one judging.

#![tactic(auto)]

ghost use Rattle.std.specs.Prelude.{◌≡◌, true, false, List, ◌++◌, ℕ, ◌+◌, ◌≤◌, length, leb};
ghost use Rattle.rules.specs.Fields.{le_bytes, stamp_bytes, signed_of};
ghost use Rattle.rules.specs.Index.{run_type};
ghost use Rattle.rules.specs.Outcome.{numbers_of};
ghost use Rattle.rules.specs.Outcome.Laws.{denied};
ghost use Rattle.rules.specs.Records.{record_bytes, Recorded, no_records, records_outcome, list_all_of};
ghost use Rattle.refusals.specs.View.{number_of};
ghost use Rattle.reading.specs.Told.{told_as};
ghost use Rattle.contracts.specs.Promises.{ListsAll, records_view};
ghost use Rattle.editions.specs.View.{edition_view};
ghost use Rattle.slots.specs.View.{head_view, HeadIn};
ghost use Rattle.index.specs.View.{SumsFrom};
ghost use Rattle.index.specs.Steps.{Walks};
ghost use Rattle.text.specs.Wrote.{Wrote};
ghost use Rattle.judging.specs.View.{Opened};
ghost use Rattle.laws.proofs.Records.Packed.{record_length};
ghost use Rattle.records.specs.View.{place_bytes, extent_bytes, next_slot, PutOf, PutAll};

use contracts::Records;
use index::Cursor;
use refusals::Refusal;
use slots::Head;
use units::{Offset, Slot};

// The bytes of a record before its path: seven numbers.
const NUMBERS: usize = 56;

// ---- a record. Writers take a place in a lent output and return the place behind what they wrote.

fn put_number(out: &mut [u8], at: usize, n: u64) -> usize
    requires { at + 8 ≤ length out.old }
    ensures { Wrote out.old at (le_bytes 8 n) out.new result }
{
    fields::put_le(out, Offset::at(at), 8, n);
    at + 8
}

fn put_stamp(out: &mut [u8], at: usize, bits: u64) -> usize
    requires { at + 8 ≤ length out.old }
    ensures { Wrote out.old at (stamp_bytes (signed_of bits)) out.new result }
{
    fields::put_stamp(out, Offset::at(at), bits);
    at + 8
}

// Slot, kind and start.
fn put_place(h: Head, out: &mut [u8], at: usize) -> usize
    requires { at + 24 ≤ length out.old }
    ensures { Wrote out.old at (place_bytes h) out.new result }
{
    let kind = put_number(out, at, h.slot.number());
    let start = put_number(out, kind, fields::wide(h.kind));
    put_number(out, start, h.start.number())
}

// End, length and stamp.
fn put_extent(h: Head, out: &mut [u8], at: usize) -> usize
    requires { at + 24 ≤ length out.old }
    ensures { Wrote out.old at (extent_bytes h) out.new result }
{
    let length = put_number(out, at, h.end.number());
    let stamp = put_number(out, length, h.length);
    put_stamp(out, stamp, h.stamp)
}

fn put_path(out: &mut [u8], at: usize, path: &[u8]) -> usize
    requires { at + (8 + length path.now) ≤ length out.old }
    ensures { Wrote out.old at (le_bytes 8 (length path.now) ++ path.now) out.new result }
{
    let bytes = put_number(out, at, path.len() as u64);
    text::put_bytes(out, bytes, path)
}

fn put_record(img: &[u8], h: Head, out: &mut [u8], at: usize) -> usize
    requires { HeadIn img.now h × (run_type h.kind ≡ true) × (at + record_length (head_view img.now h) ≤ length out.old) }
    ensures { Wrote out.old at (record_bytes (numbers_of (edition_view h.edition) (head_view img.now h)) (head_view img.now h).path) out.new result }
{
    let extent = put_place(h, out, at);
    let count = put_extent(h, out, extent);
    put_path(out, count, slots::path_of(img, h))
}

// ---- all records

// Whether the entry's record fits.
fn fits(img: &[u8], h: Head, room: usize) -> bool
    requires { HeadIn img.now h × (run_type h.kind ≡ true) }
    ensures { result ≡ leb (record_length (head_view img.now h)) room }
{
    if room < NUMBERS {
        return false;
    }
    slots::path_of(img, h).len() <= room - NUMBERS
}

// What was put into an output: the place behind the last record, and, where the next record does not fit, the slot to go on from.
#[derive(Clone, Copy)]
struct Put {
    count: u64,
    end: usize,
    next: Option<Slot>,
}

fn put_records(img: &[u8], sums: &[u8], from: Cursor, slot: Slot, out: &mut [u8]) -> Put
    requires { Walks img.now from × SumsFrom img.now sums.now from }
    ensures { PutAll img.now from slot.0 out.old result out.new }
{
    let room = out.len();
    let mut c = from;
    let mut count = 0;
    let mut end: usize = 0;
    let mut next = slot;
    while let Some((h, rest)) = paths::next_live(img, sums, c, slot) {
        if !fits(img, h, room - end) {
            return Put {
                count,
                end,
                next: Some(next),
            };
        }
        end = put_record(img, h, out, end);
        next = h.slot.after(1);
        count += 1;
        c = rest;
    }
    Put {
        count,
        end,
        next: None,
    }
}

// ---- the call

fn no_records(r: Refusal) -> Records
    ensures { (s out : List ℕ) → records_view s out result ≡ denied no_records s out (number_of r) }
{
    Records {
        refusal: u32::from(r),
        ..Records::default()
    }
}

// The slot to go on from is 0 where no entry is left.
fn records_of(put: Put) -> Records
    ensures { (result.refusal ≡ 0) × (result.count ≡ put.count) × (result.length ≡ put.end) × (result.next ≡ next_slot put.next) }
{
    Records {
        refusal: 0,
        count: put.count,
        length: put.end as u64,
        next: put.next.map_or(0, Slot::number),
    }
}

// 18 where not even the first record fits.
fn told(put: Put) -> Result<Records, Refusal>
    ensures { (s out after : List ℕ) (g : Recorded) → PutOf g out put after → told_as records_view no_records s after result ≡ records_outcome s out g }
{
    if put.next.is_some() && put.count == 0 {
        return Err(Refusal::TooShort);
    }
    Ok(records_of(put))
}

fn list_all_from(img: &[u8], slot: Slot, out: &mut [u8]) -> Result<Records, Refusal>
    ensures { told_as records_view no_records img.now out.new result ≡ list_all_of img.now slot.0 out.old }
{
    let g = judging::judge(img)?;
    let mut sums = [0u8; sums::ROOM];
    let from = super_block::first_slot(img, g, &mut sums);
    let put = put_records(img, &sums, from, slot, out);
    told(put)
}

pub fn list_all(img: &[u8], slot: u64, out: &mut [u8]) -> Records
    ensures { ListsAll img.now slot out.old result out.new }
{
    // Kept: a match. By unwrap_or_else the clause of the function that it calls is out of the proof's reach.
    match list_all_from(img, Slot::at(slot), out) {
        Ok(records) => records,
        Err(e) => no_records(e),
    }
}
