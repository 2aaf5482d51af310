// The lines of an input that comes in pieces of any size, as names of files. Between pieces only the first 256 bytes of a line are kept, in a lent
// buffer: one more than a name may have, so that a longer line is seen.

#![tactic(auto)]

ghost use Rattle.std.specs.Prelude.{◌≡◌, List, [], ◌∷◌, ◌++◌, true, ℕ, ◌≤◌, ◌<◌, length};
ghost use Rattle.rules.specs.Report.{name_of_file};
ghost use Rattle.lines.specs.Feeding.{LineKept, FedTo, GoneOn, AllFed, LineEnded, LastLine, newline_at};

// The bytes of a line that are kept.
pub const KEPT: usize = 256;

// The longest name.
const LONGEST: usize = 255;

// How many lines are used.
const MOST: u64 = 1_000;

// Where feeding stands between pieces: how many bytes of the line so far are kept, and how many lines may still be used.
#[derive(Clone, Copy)]
pub struct Lines {
    pub length: usize,
    pub left: u64,
}

// Where a piece goes on; how many bytes are kept of the line that has ended before that place, if one has; and where feeding stands.
#[derive(Clone, Copy)]
pub struct Fed {
    pub at: usize,
    pub line: Option<usize>,
    pub next: Lines,
}

// Before the first piece.
pub fn start() -> Lines
    ensures { (result.length ≡ 0) × (result.left ≡ 1_000) }
{
    Lines {
        length: 0,
        left: MOST,
    }
}

// The piece is used up.
fn all_fed(at: usize, n: usize, left: u64) -> Fed
    ensures { AllFed at n left result }
{
    Fed {
        at,
        line: None,
        next: Lines { length: n, left },
    }
}

// A line of which n bytes are kept has ended.
fn line_ended(at: usize, n: usize, left: u64) -> Fed
    ensures { LineEnded at n left result }
{
    Fed {
        at,
        line: Some(n),
        next: Lines { length: 0, left },
    }
}

fn newline_in(bytes: &[u8]) -> Option<usize>
    ensures { result ≡ newline_at bytes.now }
{
    bytes.iter().position(|b| *b == b'\n')
}

// Feeds a piece from a place on, up to the end of a line or of the piece; past the last line that is used, all of it. `line` is the caller's to keep as it is between
// feedings.
pub fn feed(lines: Lines, piece: &[u8], from: usize, line: &mut [u8]) -> Fed
    requires { (256 ≡ length line.old) × (from ≤ length piece.now) × (lines.length ≤ 256) }
    ensures by_index { (p : List ℕ) → LineKept p lines.length line.old → FedTo lines.left p piece.now from result line.new }
    ensures on { GoneOn lines.left from result (length piece.now) }
{
    if lines.left == 0 {
        return all_fed(piece.len(), 0, 0);
    }
    let rest = &piece[from..];
    let newline = newline_in(rest);
    let read = &rest[..newline.unwrap_or(rest.len())];
    let n = lines.length;
    let kept = n + read.len().min(line.len() - n);
    line[n..kept].copy_from_slice(&read[..kept - n]);
    match newline {
        Some(i) => line_ended(from + i + 1, kept, lines.left - 1),
        None => all_fed(piece.len(), kept, lines.left),
    }
}

// Whether what was read of a line when the input ended is the last one.
pub fn is_last(lines: Lines) -> bool
    ensures by_index { (p line : List ℕ) → LineKept p lines.length line → LastLine lines.left result p }
    ensures used { result ≡ true → 0 < lines.left }
{
    lines.length != 0 && lines.left != 0
}

// ---- names

// Whether a line is a name. What is kept of a longer one has 256 bytes, which are none (`kept-name`).
pub fn is_name(line: &[u8]) -> bool
    ensures { result ≡ name_of_file line.now }
{
    if line.is_empty() || LONGEST < line.len() {
        return false;
    }
    !line.contains(&0)
}
