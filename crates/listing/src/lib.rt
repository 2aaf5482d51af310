// The text of the listing program: the volume name, a line for each live entry and a count, or a refusal.
// Writers take a place in a lent output and return the place behind what they wrote. A date asks for 30 bytes of room.

#![tactic(auto)]

ghost use Rattle.std.specs.Prelude.{◌≡◌, true, List, ℕ, ◌+◌, ◌≤◌, length, take};
ghost use Rattle.rules.specs.Lists.{only, All};
ghost use Rattle.rules.specs.Index.{run_type};
ghost use Rattle.rules.specs.Paths.{is_live};
ghost use Rattle.rules.specs.Listing.{mark_of, line_of, refused_line, listing_of};
ghost use Rattle.ordering.specs.Regions.{Small};
ghost use Rattle.slots.specs.View.{head_view, HeadIn};
ghost use Rattle.index.specs.Steps.{Walks, entries_from};
ghost use Rattle.judging.specs.View.{Opened};
ghost use Rattle.text.specs.Wrote.{Wrote};
ghost use Rattle.index.specs.View.{SumsFrom};
ghost use Rattle.listing.specs.Lines.{numbers_text, date_text, path_text, entry_text, live_text, live_one};
ghost use Rattle.listing.specs.Volume.{count_text, name_text, entries_text, opened_text};

use geometry::Geometry;
use index::Cursor;
use slots::Head;
use text::{put_byte, put_bytes, put_counted, put_moment, put_number};

// The room that a text asks for.
pub const ROOM: usize = 131_072;

fn put_refused(out: &mut [u8], n: u32) -> usize
    requires { length (refused_line n) ≤ length out.old }
    ensures { Wrote out.old 0 (refused_line n) out.new result }
{
    let end = put_counted(out, 0, b"refused ", u64::from(n));
    put_byte(out, end, b'\n')
}

// ---- a line

fn mark_of(kind: u8) -> u8
    ensures { result ≡ mark_of kind }
{
    if slots::is_file(kind) { b'F' } else { b'D' }
}

fn put_numbers(h: Head, out: &mut [u8], at: usize) -> usize
    requires { at + length (numbers_text h.kind h.length) ≤ length out.old }
    ensures { Wrote out.old at (numbers_text h.kind h.length) out.new result }
{
    let mark = put_byte(out, at, mark_of(h.kind));
    put_counted(out, mark, b" ", h.length)
}

fn put_date(h: Head, out: &mut [u8], at: usize) -> usize
    requires { at + 31 ≤ length out.old }
    ensures { Wrote out.old at (date_text h.stamp) out.new result }
{
    let space = put_byte(out, at, b' ');
    put_moment(out, space, h.stamp)
}

fn put_path(img: &[u8], h: Head, out: &mut [u8], at: usize) -> usize
    requires { HeadIn img.now h × (run_type h.kind ≡ true) × (at + length (path_text (head_view img.now h).path) ≤ length out.old) }
    ensures { Wrote out.old at (path_text (head_view img.now h).path) out.new result }
{
    let space = put_byte(out, at, b' ');
    let end = put_bytes(out, space, slots::path_of(img, h));
    put_byte(out, end, b'\n')
}

fn put_line(img: &[u8], h: Head, out: &mut [u8], at: usize) -> usize
    requires { HeadIn img.now h × (run_type h.kind ≡ true) × (at + length (line_of (head_view img.now h)) + 30 ≤ length out.old) }
    ensures { Wrote out.old at (line_of (head_view img.now h)) out.new result }
{
    let numbers = put_numbers(h, out, at);
    let date = put_date(h, out, numbers);
    put_path(img, h, out, date)
}

// ---- all lines

// Only a live entry has a line.
fn put_entry(img: &[u8], h: Head, out: &mut [u8], at: usize) -> usize
    requires { HeadIn img.now h × (at + length (entry_text (head_view img.now h)) + 30 ≤ length out.old) }
    ensures { Wrote out.old at (entry_text (head_view img.now h)) out.new result }
{
    if slots::is_live(h.kind) {
        return put_line(img, h, out, at);
    }
    at
}

fn put_lines(img: &[u8], sums: &[u8], from: Cursor, out: &mut [u8], at: usize) -> usize
    requires { Walks img.now from × (at + length (live_text (entries_from img.now from)) + 30 ≤ length out.old) × SumsFrom img.now sums.now from }
    ensures { Wrote out.old at (live_text (entries_from img.now from)) out.new result }
{
    let mut c = from;
    let mut end = at;
    while let Some((h, rest)) = index::next_entry(img, sums, c) {
        end = put_entry(img, h, out, end);
        c = rest;
    }
    end
}

// ---- the count

fn live_one(h: Head) -> u64
    ensures { ((s : List ℕ) → result ≡ live_one (head_view s h)) × (result ≤ 1) }
{
    u64::from(slots::is_live(h.kind))
}

fn count_live(img: &[u8], sums: &[u8], from: Cursor) -> u64
    requires { Walks img.now from × SumsFrom img.now sums.now from }
    ensures { result ≡ length (only is_live (entries_from img.now from)) }
{
    let mut c = from;
    let mut live = 0;
    while let Some((h, rest)) = index::next_entry(img, sums, c) {
        live += live_one(h);
        c = rest;
    }
    live
}

fn put_count(out: &mut [u8], at: usize, live: u64, held: u64) -> usize
    requires { at + length (count_text live held) ≤ length out.old }
    ensures { Wrote out.old at (count_text live held) out.new result }
{
    let end = put_counted(out, at, b"live ", live);
    let last = put_counted(out, end, b" held ", held);
    put_byte(out, last, b'\n')
}

// ---- the whole text

fn put_name(img: &[u8], out: &mut [u8]) -> usize
    requires { (64 ≤ length img.now) × (length (name_text img.now) ≤ length out.old) }
    ensures { Wrote out.old 0 (name_text img.now) out.new result }
{
    let end = put_bytes(out, 0, ends::volume_name(img));
    put_byte(out, end, b'\n')
}

// The lines, and the count behind them.
fn put_entries(img: &[u8], sums: &[u8], from: Cursor, out: &mut [u8], at: usize) -> usize
    requires { Walks img.now from × All Small (entries_from img.now from) × (at + length (entries_text (entries_from img.now from)) + 30 ≤ length out.old) × SumsFrom img.now sums.now from }
    ensures { Wrote out.old at (entries_text (entries_from img.now from)) out.new result }
{
    let end = put_lines(img, sums, from, out, at);
    let live = count_live(img, sums, from);
    let held = free_runs::held_blocks(img, sums, from);
    put_count(out, end, live, held)
}

fn put_volume(img: &[u8], g: Geometry, out: &mut [u8]) -> usize
    requires { Opened img.now g × (length (opened_text img.now g) + 30 ≤ length out.old) }
    ensures { Wrote out.old 0 (opened_text img.now g) out.new result }
{
    let end = put_name(img, out);
    let mut sums = [0u8; sums::ROOM];
    let from = super_block::first_slot(img, g, &mut sums);
    put_entries(img, &sums, from, out, end)
}

// What the program writes for an image, which is judged once. The second promise lets a caller lend the text on.
pub fn listing(img: &[u8], out: &mut [u8]) -> usize
    requires { 131_072 ≤ length out.old }
    ensures wrote { Wrote out.old 0 (listing_of img.now) out.new result }
    ensures lent { (result ≤ length out.new) × (result ≡ length (take result out.new)) }
{
    match judging::judge_read(img) {
        Ok(g) => put_volume(img, g, out),
        Err(e) => put_refused(out, u32::from(e)),
    }
}
