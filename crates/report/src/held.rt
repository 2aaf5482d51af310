// A report as it is held between images.

ghost use Rattle.std.specs.Prelude.{ℕ, ◌<◌, ◌^◌, slice_index};
ghost use Rattle.report.specs.Stored.{HeldTable};

// How many counts there are: files that could not be read, then refusals 1 to 8.
pub const COUNTS: usize = 9;

// The sums by kind, and the counts.
#[derive(Clone, Copy)]
pub struct Report {
    pub table: [[u64; 3]; 6],
    pub counts: [u64; COUNTS],
    ghost stored: { HeldTable table },
    ghost fit: { (k : ℕ) → slice_index counts k < 2 ^ 64 },
}
