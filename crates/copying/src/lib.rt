// Bytes copied into a lent slice, zeros behind them, and the places that lend a part of an image for writing and reading.

#![tactic(auto)]

ghost use Rattle.std.specs.Prelude.{◌≡◌, ◌+◌, ◌-◌, ◌*◌, ◌≤◌, ◌<◌, ◌++◌, length, drop, replicate};
ghost use Rattle.rules.specs.Lists.{padded, part};
ghost use Rattle.rules.specs.Fields.{splice};

use units::{Block, Offset};

// The first elements of dst become src; the others stay.
// Kept: one by one. By copy_from_slice the library for C would need memmove from outside; the machine copies sixteen bytes at once here too.
pub fn copy_into<T: Copy>(dst: &mut [T], src: &[T])
    requires { length src.now ≤ length dst.old }
    ensures { dst.new ≡ src.now ++ drop (length src.now) dst.old }
{
    for (i, &x) in src.iter().enumerate() {
        dst[i] = x;
    }
}

// The bytes of dst from `from` on become zero.
pub fn zero_from(dst: &mut [u8], from: usize)
    requires { from ≤ length dst.old }
    ensures { dst.new ≡ splice dst.old from (replicate (length dst.old - from) 0) }
{
    dst[from..].fill(0);
}

// dst becomes src, with zeros behind it.
pub fn copy_and_zero(dst: &mut [u8], src: &[u8])
    requires { length src.now ≤ length dst.old }
    ensures { dst.new ≡ padded src.now (length dst.old) }
{
    copy_into(dst, src);
    zero_from(dst, src.len());
}

// The bytes of img from a up to e become src, with zeros behind it: a part of the image is lent on.
pub fn write_part(img: &mut [u8], a: Offset, e: Offset, src: &[u8])
    requires { (a.0 + length src.now ≤ e.0) × (e.0 ≤ length img.old) }
    ensures { img.new ≡ splice img.old a.0 (padded src.now (e.0 - a.0)) }
{
    let start = a.index();
    let end = e.index();
    copy_and_zero(&mut img[start..end], src)
}

// The blocks of `len` bytes from `start` up to `end` become src, with zeros behind it: a region is lent on as a part of the image.
pub fn write_blocks(img: &mut [u8], len: u64, start: Block, end: Block, src: &[u8])
    requires { (length img.old ≤ 16_777_216) × (start.0 ≤ end.0) × (end.0 * len ≤ length img.old) × (length src.now ≤ (end.0 - start.0) * len) }
    ensures { img.new ≡ splice img.old (start.0 * len) (padded src.now ((end.0 - start.0) * len)) }
{
    let first = start.offset(len);
    let past = end.offset(len);
    write_part(img, first, past, src)
}

// The first n bytes of out become those of img from `at` on.
pub fn copy_out(out: &mut [u8], img: &[u8], at: Offset, n: usize)
    requires { (at.0 + n ≤ length img.now) × (n ≤ length out.old) }
    ensures { out.new ≡ splice out.old 0 (part img.now at.0 n) }
{
    let start = at.index();
    let end = start + n;
    copy_into(out, &img[start..end]);
}
