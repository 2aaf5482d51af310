// Reads an image from standard input and writes its listing to standard output.

#![tactic(auto)]

use std::io::Write;

fn main(rt: HostRuntime) {
    // One byte more than is taken, so that longer input is seen.
    let mut img = [0u8; judging::LONGEST + 1];
    // An input that cannot be read further has ended.
    let (Ok(n) | Err(n)) = inputs::read_full(&mut rt.stdin(), &mut img);
    let mut out = [0u8; listing::ROOM];
    let end = listing::listing(&img[..n], &mut out);
    // A listing that cannot be written is not told of.
    let _ = rt.stdout().write_all(&out[..end]);
}
