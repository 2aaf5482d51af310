// Reads names of image files from standard input, one a line, and writes a report on the images to standard output.

#![tactic(auto)]

ghost use Rattle.std.specs.Prelude.{◌≡◌, true, ℕ, ◌≤◌, length, IfSome, IsSome};
ghost use Rattle.rules.specs.Report.{Report, no_report, name_of_file};
ghost use Rattle.lines.specs.Feeding.{GoneOn};
ghost use Rattle.report.specs.View.{report_view};
ghost use Rattle.report_main.specs.Files.{CountedFile, Counting, CountedAll};

use lines::{Fed, Lines};
use report::Report as Held;
use std::fs;
use std::io::{Read, Write};
use std::ops::Range;
use std::rt::Files;

// How many bytes of the input are read at once.
const PIECE: usize = 65_536;

// How many bytes of the file that a line names are at the start of img. Only a name in UTF-8 can be opened.
fn open_and_read<R: Files>(files: &R, line: &[u8], img: &mut [u8]) -> Option<usize>
    ensures bound { IfSome result (λ n. n ≤ length img.new) }
    ensures named { IsSome result → name_of_file line.now ≡ true }
{
    if !lines::is_name(line) {
        return None;
    }
    let name = str::from_utf8(line).ok()?;
    let mut file = fs::open(files, name).ok()?;
    inputs::read_full(&mut file, img).ok()
}

// Counts the image that a line names; a line that is no name and a file that cannot be read are counted too.
fn count_file<R: Files>(files: &R, line: &[u8], img: &mut [u8], report: &mut Held)
    ensures { CountedFile line.now (report_view report.old) (report_view report.new) }
{
    match open_and_read(files, line, img) {
        Some(n) => report.add_image(&img[..n]),
        None => report.count_unread(),
    }
}

// The part of a piece of the input that is still to be fed: the whole next piece where this one is used up; it ends at 0 where there is none. Where the
// input cannot be read further, it ends.
fn refill<I: Read>(input: &mut I, left: Range<usize>, piece: &mut [u8]) -> Range<usize>
    requires { left.end ≤ length piece.old }
    ensures { (result.start ≤ result.end) × (result.end ≤ length piece.new) }
{
    if left.start < left.end {
        return left;
    }
    0..input.read(piece).unwrap_or(0)
}

// Counts the line that has ended, if one has.
fn count_fed<R: Files>(files: &R, fed: Fed, line: &[u8], img: &mut [u8], report: &mut Held)
    requires { IfSome fed.line (λ n. n ≤ length line.now) }
    ensures { (left from n : ℕ) (b : Report) → GoneOn left from fed n → Counting left b (report_view report.old) → Counting fed.next.left b (report_view report.new) }
{
    if let Some(n) = fed.line {
        count_file(files, &line[..n], img, report);
    }
}

// What was read of a line when the input ended is the last one where it has bytes.
fn count_last<R: Files>(files: &R, state: Lines, line: &[u8], img: &mut [u8], report: &mut Held)
    requires { state.length ≤ length line.now }
    ensures { (b : Report) → Counting state.left b (report_view report.old) → CountedAll b (report_view report.new) }
{
    if lines::is_last(state) {
        count_file(files, &line[..state.length], img, report);
    }
}

// Counts all images that are named. A proved loop has to end, and nothing says that the input does: the turns are more than any run has.
fn count_named<I: Read, R: Files>(
    input: &mut I,
    files: &R,
    piece: &mut [u8],
    line: &mut [u8],
    img: &mut [u8],
    report: &mut Held,
)
    requires { 256 ≡ length line.old }
    ensures { CountedAll (report_view report.old) (report_view report.new) }
{
    let mut state = lines::start();
    let mut left = 0..0;
    for _turn in 0..u64::MAX {
        left = refill(input, left, piece);
        if left.end == 0 {
            count_last(files, state, line, img, report);
            return;
        }
        let fed = lines::feed(state, &piece[..left.end], left.start, line);
        count_fed(files, fed, line, img, report);
        state = fed.next;
        if state.left == 0 {
            return;
        }
        left.start = fed.at;
    }
}

// The report on all images that are named, from none on.
fn report_of<I: Read, R: Files>(
    input: &mut I,
    files: &R,
    piece: &mut [u8],
    line: &mut [u8],
    img: &mut [u8],
) -> Held
    requires { 256 ≡ length line.old }
    ensures { CountedAll no_report (report_view result) }
{
    let mut report = Held::new();
    count_named(input, files, piece, line, img, &mut report);
    report
}

fn main(rt: HostRuntime) {
    let mut piece = [0u8; PIECE];
    let mut line = [0u8; lines::KEPT];
    // One byte more than is taken, so that a longer file is seen.
    let mut img = [0u8; judging::LONGEST + 1];
    let report = report_of(&mut rt.stdin(), &rt, &mut piece, &mut line, &mut img);
    let mut out = [0u8; report::ROOM];
    let end = report.put_text(&mut out);
    // A report that cannot be written is not told of.
    let _ = rt.stdout().write_all(&out[..end]);
}
