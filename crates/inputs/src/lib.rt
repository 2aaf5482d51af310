// An input that is read into a lent buffer, by the programs.

#![tactic(auto)]

ghost use Rattle.std.specs.Prelude.{◌+◌, ◌≤◌, ◌<◌, ◌≡◌, ℕ, List, length, take, unwrap_or, IfSome, Some};
ghost use Rattle.std.specs.declared.option.Option.{Option};
ghost use Rattle.std.specs.Io.KnownBytes.{Consumes, IsAtEnd};
ghost use Rattle.inputs.specs.Full.{Filled, ReadAll};

use std::io::Read;

// Reads once, from a place of buf on. How many bytes were read: 0 at the end of the input, where there was room.
fn read_more<R: Read>(input: &mut R, buf: &mut [u8], at: usize) -> Option<usize>
    requires { at ≤ length buf.old }
    ensures bound { IfSome result (λ n. at + n ≤ length buf.new) }
    ensures read { (a : Option (List ℕ)) → Consumes a (R.remaining input.old) (take at buf.old) → Consumes a (R.remaining input.new) (take (at + unwrap_or result 0) buf.new) }
    ensures end { result ≡ Some 0 → at < length buf.new → IsAtEnd (R.remaining input.new) }
{
    input.read(&mut buf[at..]).ok()
}

// Reads until buf is full or the input ends. How many bytes of the input are at the start of buf; `Err` where it could not be read further.
pub fn read_full<R: Read>(input: &mut R, buf: &mut [u8]) -> Result<usize, usize>
    ensures bound { Filled result buf.new }
    ensures read { ReadAll (R.remaining input.old) (R.remaining input.new) result buf.new }
{
    let mut done = 0;
    while done < buf.len() {
        match read_more(input, buf, done) {
            None => return Err(done),
            Some(0) => return Ok(done),
            Some(n) => done += n,
        }
    }
    Ok(done)
}
