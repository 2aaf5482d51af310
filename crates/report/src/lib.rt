// A report on many images: a table of sums, six kinds by slots, blocks and bytes, carried from image to image; counts of files that could not
// be read and of refusals; and the text of both. Sums and counts wrap at 64 bits, which no report on 1,000 images reaches.

#![tactic(auto)]

ghost use Rattle.std.specs.Prelude.{◌≡◌, ℕ, ◌+◌, ◌^◌, ◌<◌, ◌≤◌, List, [], ◌∷◌, length, take, drop};
ghost use Rattle.rules.specs.Lists.{both, All};
ghost use Rattle.rules.specs.Fields.{splice};
ghost use Rattle.rules.specs.Regions.{blocks_of};
ghost use Rattle.rules.specs.Refusals.{judge_read};
ghost use Rattle.rules.specs.Report.{entry_kind, sums_of, plus64, added, one_more, no_report, with_image, with_source, unread, pairs, table_lines, kind_words, count_lines, report_text, report_in, report_numbers, verdict_number, count_image};
ghost use Rattle.laws.proofs.Report.Table.{counted_at};
ghost use Rattle.ordering.specs.Regions.{Small};
ghost use Rattle.geometry.specs.View.{geometry_view};
ghost use Rattle.slots.specs.View.{head_view};
ghost use Rattle.index.specs.View.{SumsFrom, items_from};
ghost use Rattle.index.specs.Steps.{Walks, entries_from};
ghost use Rattle.judging.specs.View.{Opened, judged_view, volume_of};
ghost use Rattle.text.specs.Wrote.{Wrote};
ghost use Rattle.report.specs.Items.{Onto};
ghost use Rattle.report.specs.View.{kind_place, as_report, report_view, counted_view, kind_text, upper_text, lower_text, pair_text};

mod held;

use geometry::Geometry;
pub use held::{COUNTS, Report};
use index::Cursor;
use refusals::Refusal;
use slots::Head;
use text::{put_byte, put_bytes, put_counted};

// The kinds of a table, in the order of the lines.
#[derive(Clone, Copy, Debug, PartialEq, Eq)]
enum Kind {
    File,
    DeletedFile,
    Directory,
    DeletedDirectory,
    Unusable,
    Unused,
}

impl Kind {
    // Its place in a table.
    fn place(self) -> usize
        ensures value { result ≡ kind_place self }
        ensures low { result < 6 }
    {
        self as usize
    }
}

// The numbers of a report as calls have it: the sums, then the counts.
const SUMS: usize = 18;

pub const NUMBERS: usize = SUMS + COUNTS;

// The room that any text fits.
pub const ROOM: usize = 1024;

// The kind of an entry of this type.
fn kind_of(kind: u8) -> Kind
    ensures { kind_place result ≡ entry_kind kind }
{
    match kind {
        slots::FILE => Kind::File,
        slots::DELETED_FILE => Kind::DeletedFile,
        slots::DIRECTORY => Kind::Directory,
        slots::DELETED_DIRECTORY => Kind::DeletedDirectory,
        _ => Kind::Unusable,
    }
}

fn row_with(row: [u64; 3], slots: u64, blocks: u64, bytes: u64) -> [u64; 3]
    ensures { result ≡ both plus64 row (slots ∷ blocks ∷ bytes ∷ []) }
{
    [
        row[0].wrapping_add(slots),
        row[1].wrapping_add(blocks),
        row[2].wrapping_add(bytes),
    ]
}

// ---- counting

// One more at a place of any counts.
pub fn count_one(counts: &mut [u64], place: u8)
    requires { place < length counts.old }
    ensures { counts.new ≡ one_more place counts.old }
{
    let i = place as usize;
    counts[i] = counts[i].wrapping_add(1);
}

impl Report {
    // Before the first image.
    pub fn new() -> Report
        ensures { report_view result ≡ no_report }
    {
        Report {
            table: [[0; 3]; 6],
            counts: [0; COUNTS],
        }
    }

    // Of any sums and counts.
    pub fn with(table: [[u64; 3]; 6], counts: [u64; COUNTS]) -> Report
        ensures { report_view result ≡ as_report table counts }
    {
        Report { table, counts }
    }

    fn count(&mut self, kind: Kind, slots: u64, blocks: u64, bytes: u64)
        ensures table { self.new.table ≡ counted_at self.old.table (kind_place kind) (slots ∷ blocks ∷ bytes ∷ []) }
        ensures counts { self.new.counts ≡ self.old.counts }
    {
        let place = kind.place();
        self.table[place] = row_with(self.table[place], slots, blocks, bytes);
    }

    // The entry at h, of n slots. In 1.10 the block past its region is one more than its stored end.
    fn count_entry(&mut self, h: Head, n: u64)
        requires { h.end.0 + 1 < 2 ^ 64 }
        ensures table { (s : List ℕ) → self.new.table ≡ counted_at self.old.table (entry_kind (head_view s h).kind) (n ∷ blocks_of (head_view s h) ∷ (head_view s h).length ∷ []) }
        ensures counts { self.new.counts ≡ self.old.counts }
    {
        let blocks = slots::past_end(h).blocks_past(h.start);
        self.count(kind_of(h.kind), n, blocks, h.length);
    }

    // What stands from the cursor c up to the cursor behind it.
    fn count_item(&mut self, img: &[u8], c: Cursor, rest: Cursor)
        requires { Onto img.now c rest }
        ensures rest_value { added self.new.table (sums_of (items_from img.now rest)) ≡ added self.old.table (sums_of (items_from img.now c)) }
        ensures counts { self.new.counts ≡ self.old.counts }
    {
        let n = c.slot.slots_to(rest.slot);
        if slots::is_entry(c.edition, slots::kind_at(img, c.at)) {
            self.count_entry(slots::head_at(img, c.edition, c.at, c.slot), n);
        } else {
            self.count(Kind::Unused, n, 0, 0);
        }
    }

    // All from the cursor on.
    fn count_items(&mut self, img: &[u8], sums: &[u8], from: Cursor)
        requires { Walks img.now from × All Small (entries_from img.now from) × SumsFrom img.now sums.now from }
        ensures table { self.new.table ≡ added self.old.table (sums_of (items_from img.now from)) }
        ensures counts { self.new.counts ≡ self.old.counts }
    {
        let mut c = from;
        while 0 < c.left {
            let rest = index::further(img, sums, c).rest;
            self.count_item(img, c, rest);
            c = rest;
        }
    }

    fn count_volume(&mut self, img: &[u8], g: Geometry)
        requires { Opened img.now g }
        ensures table { self.new.table ≡ added self.old.table (sums_of (volume_of img.now (geometry_view g)).items) }
        ensures counts { self.new.counts ≡ self.old.counts }
    {
        let mut sums = [0u8; sums::ROOM];
        let from = super_block::first_slot(img, g, &mut sums);
        self.count_items(img, &sums, from);
    }

    // One more at a place: 0 is a file that could not be read, any other a refusal.
    fn count_one(&mut self, place: u32)
        requires { place < 9 }
        ensures table { self.new.table ≡ self.old.table }
        ensures counts { self.new.counts ≡ one_more place self.old.counts }
    {
        let i = place as usize;
        self.counts[i] = self.counts[i].wrapping_add(1);
    }

    pub fn count_unread(&mut self)
        ensures { report_view self.new ≡ with_source unread (report_view self.old) }
    {
        self.count_one(0);
    }

    // What was judged of the image is added to the table, or counted.
    fn add_judged(&mut self, img: &[u8], judged: Result<Geometry, Refusal>)
        requires { judged_view img.now judged ≡ judge_read img.now }
        ensures { report_view self.new ≡ with_image img.now (report_view self.old) }
    {
        match judged {
            Err(e) => self.count_one(u32::from(e)),
            Ok(g) => self.count_volume(img, g),
        }
    }

    // An image's sums are added to the table; a refused one's number is counted.
    pub fn add_image(&mut self, img: &[u8])
        ensures { report_view self.new ≡ with_image img.now (report_view self.old) }
    {
        self.add_judged(img, judging::judge_read(img));
    }
}

// ---- the text

// A refusal and how often it occurred, nothing where it did not.
fn put_pair(out: &mut [u8], at: usize, n: u64, count: u64) -> usize
    requires { at + length (pair_text n count) ≤ length out.old }
    ensures { Wrote out.old at (pair_text n count) out.new result }
{
    if count == 0 {
        return at;
    }
    let end = put_counted(out, at, b" ", n);
    put_counted(out, end, b":", count)
}

impl Report {
    // A word and the three sums of its kind.
    fn put_row(&self, out: &mut [u8], at: usize, word: &[u8], kind: Kind) -> usize
        requires { at + length (kind_text self.now.table (kind_place kind) word.now) ≤ length out.old }
        ensures { Wrote out.old at (kind_text self.now.table (kind_place kind) word.now) out.new result }
    {
        let row = self.table[kind.place()];
        let slots = put_bytes(out, at, word);
        let blocks = put_counted(out, slots, b" ", row[0]);
        let bytes = put_counted(out, blocks, b" ", row[1]);
        let end = put_counted(out, bytes, b" ", row[2]);
        put_byte(out, end, b'\n')
    }

    // The first three kinds: with more rows in one function its proof has too many places to look back to.
    fn put_upper(&self, out: &mut [u8], at: usize) -> usize
        requires { at + length (upper_text self.now.table) ≤ length out.old }
        ensures { Wrote out.old at (upper_text self.now.table) out.new result }
    {
        let deleted = self.put_row(out, at, b"file", Kind::File);
        let directory = self.put_row(out, deleted, b"deleted-file", Kind::DeletedFile);
        self.put_row(out, directory, b"dir", Kind::Directory)
    }

    // The others.
    fn put_lower(&self, out: &mut [u8], at: usize) -> usize
        requires { at + length (lower_text self.now.table) ≤ length out.old }
        ensures { Wrote out.old at (lower_text self.now.table) out.new result }
    {
        let unusable = self.put_row(out, at, b"deleted-dir", Kind::DeletedDirectory);
        let unused = self.put_row(out, unusable, b"unusable", Kind::Unusable);
        self.put_row(out, unused, b"unused", Kind::Unused)
    }

    fn put_table(&self, out: &mut [u8]) -> usize
        requires { length (table_lines kind_words self.now.table) ≤ length out.old }
        ensures { Wrote out.old 0 (table_lines kind_words self.now.table) out.new result }
    {
        let middle = self.put_upper(out, 0);
        self.put_lower(out, middle)
    }

    // The pairs of the counts from place 1 on.
    fn put_pairs(&self, out: &mut [u8], at: usize) -> usize
        requires { at + length (pairs 1 (drop 1 self.now.counts)) ≤ length out.old }
        ensures { Wrote out.old at (pairs 1 (drop 1 self.now.counts)) out.new result }
    {
        let mut end = at;
        for i in 1..COUNTS {
            end = put_pair(out, end, i as u64, self.counts[i]);
        }
        end
    }

    fn put_counts(&self, out: &mut [u8], at: usize) -> usize
        requires { at + length (count_lines self.now.counts) ≤ length out.old }
        ensures { Wrote out.old at (count_lines self.now.counts) out.new result }
    {
        let pairs = put_bytes(out, at, b"refused");
        let unread = self.put_pairs(out, pairs);
        let end = put_counted(out, unread, b"\nunread ", self.counts[0]);
        put_byte(out, end, b'\n')
    }

    // The whole text. The second promise lets a caller lend it on.
    pub fn put_text(&self, out: &mut [u8]) -> usize
        requires { 1_024 ≤ length out.old }
        ensures wrote { Wrote out.old 0 (report_text (report_view self.now)) out.new result }
        ensures lent { (result ≤ length out.new) × (result ≡ length (take result out.new)) }
    {
        let end = self.put_table(out);
        self.put_counts(out, end)
    }
}

// ---- as calls, on 27 numbers

impl Report {
    // A report's numbers.
    // Kept: written out. An array that is filled and then moved would make the library for C need memcpy from outside.
    pub fn of(numbers: &[u64]) -> Report
        requires { 27 ≤ length numbers.now }
        ensures { report_view result ≡ report_in numbers.now }
    {
        Report {
            table: [
                [numbers[0], numbers[1], numbers[2]],
                [numbers[3], numbers[4], numbers[5]],
                [numbers[6], numbers[7], numbers[8]],
                [numbers[9], numbers[10], numbers[11]],
                [numbers[12], numbers[13], numbers[14]],
                [numbers[15], numbers[16], numbers[17]],
            ],
            counts: [
                numbers[18],
                numbers[19],
                numbers[20],
                numbers[21],
                numbers[22],
                numbers[23],
                numbers[24],
                numbers[25],
                numbers[26],
            ],
        }
    }

    fn store(&self, numbers: &mut [u64])
        requires { 27 ≤ length numbers.old }
        ensures { numbers.new ≡ splice numbers.old 0 (report_numbers (report_view self.now)) }
    {
        for (k, row) in self.table.iter().enumerate() {
            numbers[3 * k..3 * k + 3].copy_from_slice(row);
        }
        numbers[SUMS..NUMBERS].copy_from_slice(&self.counts);
    }
}

fn refusal_of(judged: Result<Geometry, Refusal>) -> u32
    ensures { (s : List ℕ) → result ≡ verdict_number (judged_view s judged) }
{
    match judged {
        Err(e) => u32::from(e),
        Ok(_) => 0,
    }
}

// Counts an image; the answer is its refusal, or 18 where the report has too few numbers.
pub fn count_image(img: &[u8], report: &mut [u64]) -> u32
    ensures { counted_view result report.new ≡ count_image img.now report.old }
{
    if report.len() < NUMBERS {
        return u32::from(Refusal::TooShort);
    }
    let judged = judging::judge_read(img);
    let mut counted = Report::of(report);
    counted.add_judged(img, judged);
    counted.store(report);
    refusal_of(judged)
}

// The text of a report's numbers.
pub fn put_numbers(report: &[u64], out: &mut [u8]) -> usize
    requires { (27 ≤ length report.now) × (1_024 ≤ length out.old) }
    ensures { Wrote out.old 0 (report_text (report_in report.now)) out.new result }
{
    Report::of(report).put_text(out)
}
