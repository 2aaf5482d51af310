// The name rule and the path rules, over the bytes of a name.

#![tactic(auto)]

ghost use Rattle.std.specs.Prelude.{length, ◌≡◌, ◌&&◌, List, ◌∷◌, ℕ, ◌≤◌, eqb, ltb, Some, None};
ghost use Rattle.rules.specs.Lists.{pick};
ghost use Rattle.rules.specs.Fields.{up_to_zero, has_zero};
ghost use Rattle.rules.specs.Names.{text_good, path_good, new_path_good, volume_text_good, volume_name_good};
ghost use Rattle.rules.specs.Index.{name_good};
ghost use Rattle.names.specs.Automaton.{part_step};
ghost use Rattle.names.specs.View.{part_view, stepped_view};
ghost use Rattle.names.specs.Masks.{bit_of, turns_nothing};
ghost use Rattle.names.specs.Texts.{ascii_good, good_from};
ghost use Rattle.names.specs.Reader.{good_at, Plain, In};

// ---- characters of one byte

// One bit for each character of ASCII from 0x00 and from 0x40 on: those that a name may have.
const NAME: u64 = 0x2BFF_FBFB_0000_0000;

const NAME_HIGH: u64 = 0x7FFF_FFFF_EFFF_FFFF;

// The same without the slash and the dot, on which the parts of a path turn.
const PART: u64 = 0x2BFF_3BFB_0000_0000;

// The word that has the bit of b.
fn half(low: u64, high: u64, b: u8) -> u64
    ensures { result ≡ pick (ltb b 64) low high }
{
    if b < 64 { low } else { high }
}

// The bit of b.
fn bit(low: u64, high: u64, b: u8) -> bool
    ensures { result ≡ bit_of low high b }
{
    (half(low, high, b) >> (b % 64)) % 2 == 1
}

// Whether b is a character of ASCII that a name may have.
fn is_ascii(b: u8) -> bool
    ensures { result ≡ ascii_good b }
{
    b < 128 && bit(NAME, NAME_HIGH, b)
}

// The same, but neither slash nor dot.
fn is_plain(b: u8) -> bool
    ensures { result ≡ (ascii_good b && turns_nothing b) }
{
    b < 128 && bit(PART, NAME_HIGH, b)
}

// ---- the name rule: an automaton, stepped byte by byte

// Where a reader of a name stands: so many bytes are due to end the character that was begun, the next of them from low to high.
#[derive(Clone, Copy)]
struct Reader {
    due: u8,
    low: u8,
    high: u8,
}

// Between two characters, where a name begins and may end.
const BETWEEN: Reader = Reader {
    due: 0,
    low: 0x80,
    high: 0xBF,
};

// Nothing goes on from here: there is no byte from 1 to 0.
const NOWHERE: Reader = Reader {
    due: 1,
    low: 1,
    high: 0,
};

fn due(n: u8, low: u8, high: u8) -> Reader
    ensures { (bs : List ℕ) → good_at result bs ≡ good_from n low high bs }
{
    Reader { due: n, low, high }
}

// After the first of two bytes. U+0080 to U+00A0 are in no name.
fn first_of_two(b: u8) -> Reader
    requires { (0xC2 ≤ b) × (b ≤ 0xDF) }
    ensures { (bs : List ℕ) → good_at result bs ≡ text_good (b ∷ bs) }
{
    match b {
        0xC2 => due(1, 0xA1, 0xBF),
        _ => due(1, 0x80, 0xBF),
    }
}

// After the first of three bytes. What two bytes can say is not said in three, and U+D800 to U+DFFF are no characters.
fn first_of_three(b: u8) -> Reader
    requires { (0xE0 ≤ b) × (b ≤ 0xEF) }
    ensures { (bs : List ℕ) → good_at result bs ≡ text_good (b ∷ bs) }
{
    match b {
        0xE0 => due(2, 0xA0, 0xBF),
        0xED => due(2, 0x80, 0x9F),
        _ => due(2, 0x80, 0xBF),
    }
}

// After the first of four bytes. What three bytes can say is not said in four, and the last code is U+10FFFF.
fn first_of_four(b: u8) -> Reader
    requires { (0xF0 ≤ b) × (b ≤ 0xF4) }
    ensures { (bs : List ℕ) → good_at result bs ≡ text_good (b ∷ bs) }
{
    match b {
        0xF0 => due(3, 0x90, 0xBF),
        0xF4 => due(3, 0x80, 0x8F),
        _ => due(3, 0x80, 0xBF),
    }
}

// After the first byte of a character. 0x80 to 0xBF are first bytes of none, 0xC0 and 0xC1 of none that needs two.
fn begun(b: u8) -> Reader
    ensures { (bs : List ℕ) → good_at result bs ≡ text_good (b ∷ bs) }
{
    if is_ascii(b) {
        return BETWEEN;
    }
    match b {
        0xC2..=0xDF => first_of_two(b),
        0xE0..=0xEF => first_of_three(b),
        0xF0..=0xF4 => first_of_four(b),
        _ => NOWHERE,
    }
}

// After one byte more.
fn step(p: Reader, b: u8) -> Reader
    ensures { (bs : List ℕ) → good_at result bs ≡ good_at p (b ∷ bs) }
{
    if p.due == 0 {
        return begun(b);
    }
    if b < p.low || p.high < b {
        return NOWHERE;
    }
    due(p.due - 1, 0x80, 0xBF)
}

// ---- paths

// What was read of a part so far: nothing, `.`, `..` or any other bytes.
#[derive(Clone, Copy, Debug, PartialEq, Eq)]
enum Part {
    Nothing,
    Dot,
    Dots,
    Other,
}

// After one byte more: none where a slash ends a part that is not good.
fn part_step(part: Part, b: u8) -> Option<Part>
    ensures { stepped_view result ≡ part_step (part_view part) b }
{
    match (b, part) {
        (b'/', Part::Other) => Some(Part::Nothing),
        (b'/', _) => None,
        (b'.', Part::Nothing) => Some(Part::Dot),
        (b'.', Part::Dot) => Some(Part::Dots),
        _ => Some(Part::Other),
    }
}

// The reader stops after n bytes, which are a good name where no character is begun and the last part is good.
fn ended(reader: Reader, part: Part, n: usize) -> Option<usize>
    ensures { result ≡ pick (eqb reader.due 0 && eqb (part_view part) 3) (Some n) None }
{
    if reader.due == 0 && part == Part::Other {
        Some(n)
    } else {
        None
    }
}

// Where the plain characters from place `from` on end.
fn plain_from(s: &[u8], from: usize) -> usize
    requires { from ≤ length s.now }
    ensures { (from ≤ result) × (result ≤ length s.now) × Plain s.now from result }
{
    for i in from..s.len() {
        if !is_plain(s[i]) {
            return i;
        }
    }
    s.len()
}

// The name rule, the rule on parts and the search for the zero, in one pass: how many bytes stand before the first zero byte, or are all there is, where they are a
// good name. Most bytes are plain characters, which begin and end nothing.
// Kept: a place that jumps behind plain characters. One `for` over all bytes misses the bar of speed: an index takes twice as long to judge.
fn path_in(s: &[u8]) -> Option<usize>
    ensures { In path_good s.now result }
{
    let mut reader = BETWEEN;
    let mut part = Part::Nothing;
    let mut i = 0;
    while i < s.len() {
        let b = s[i];
        if reader.due == 0 && is_plain(b) {
            part = Part::Other;
            i = plain_from(s, i + 1);
            continue;
        }
        if b == 0 {
            return ended(reader, part, i);
        }
        part = part_step(part, b)?;
        reader = step(reader, b);
        i += 1;
    }
    ended(reader, part, i)
}

// The field of a stored path, with the slots that continue it.
pub fn path_field_good(field: &[u8]) -> bool
    ensures { result ≡ name_good field.now }
{
    path_in(field).is_some_and(|n| n < field.len())
}

pub fn path_good(s: &[u8]) -> bool
    ensures { result ≡ path_good s.now }
{
    path_in(s) == Some(s.len())
}

// A path to create.
pub fn new_path_good(s: &[u8]) -> bool
    ensures { result ≡ new_path_good s.now }
{
    path_good(s) && s.len() <= 285
}

// ---- volume names

// The name rule, the search for a slash and that for the zero, in one pass: how many bytes, as of a path.
fn volume_name_in(s: &[u8]) -> Option<usize>
    ensures { In volume_text_good s.now result }
{
    let mut reader = BETWEEN;
    for (i, &b) in s.iter().enumerate() {
        if b == 0 {
            return ended(reader, Part::Other, i);
        }
        if b == b'/' {
            return None;
        }
        reader = step(reader, b);
    }
    ended(reader, Part::Other, s.len())
}

// The field of a stored volume name.
pub fn volume_field_good(field: &[u8]) -> bool
    ensures { result ≡ (has_zero field.now && volume_text_good (up_to_zero field.now)) }
{
    volume_name_in(field).is_some_and(|n| n < field.len())
}

fn volume_text_good(s: &[u8]) -> bool
    ensures { result ≡ volume_text_good s.now }
{
    volume_name_in(s) == Some(s.len())
}

// The name of a volume to format.
pub fn volume_name_good(s: &[u8]) -> bool
    ensures { result ≡ volume_name_good s.now }
{
    volume_text_good(s) && s.len() <= 51
}
