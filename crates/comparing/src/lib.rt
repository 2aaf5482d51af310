// A name compared with a path: the byte at the path's last place, then both from the start. The bytes of the name that are looked at are counted.

#![tactic(auto)]

ghost use Rattle.std.specs.Prelude.{◌≡◌, false, ◌≤◌, length};
ghost use Rattle.rules.specs.Comparing.{at_last, last_alike, goes_on, walked, looked};
ghost use Rattle.comparing.specs.Walk.{is_then};

#[derive(Clone, Copy)]
pub struct Compared {
    pub same: bool,
    pub looked: usize,
}

// A no, for which so many bytes of a name were looked at.
pub fn apart(looked: usize) -> Compared
    ensures { (result.same ≡ false) × (result.looked ≡ looked) }
{
    Compared {
        same: false,
        looked,
    }
}

// The test before the walk: the path's last byte, at its place in the name. An empty path has none.
fn compare_last(name: &[u8], path: &[u8]) -> Compared
    requires { length path.now ≤ length name.now }
    ensures same_value { result.same ≡ last_alike name.now path.now }
    ensures counted { result.looked ≡ length (at_last path.now name.now) }
{
    let Some((last, before)) = path.split_last() else {
        return Compared {
            same: true,
            looked: 0,
        };
    };
    Compared {
        same: name[before.len()] == *last,
        looked: 1,
    }
}

// Whether the walk goes on behind a byte of the name.
fn goes_on(b: u8, p: u8) -> bool
    ensures { result ≡ goes_on b p }
{
    b == p && b != 0
}

// The walk through both, up to the first difference. The name is cut to the path's length first: the walk has one end to look for.
fn walk(name: &[u8], path: &[u8], end: u8) -> Compared
    requires { length path.now ≤ length name.now }
    ensures same_value { result.same ≡ is_then end name.now path.now }
    ensures counted { result.looked ≡ walked name.now path.now }
{
    let (front, rest) = name.split_at(path.len());
    let stop = front.iter().zip(path).position(|(b, p)| !goes_on(*b, *p));
    if let Some(i) = stop {
        return apart(i + 1);
    }
    match rest.first() {
        Some(b) => Compared {
            same: *b == end,
            looked: path.len() + 1,
        },
        None => apart(path.len()),
    }
}

// Whether the name is the path and then the byte `end`: zero where it is the path itself, a slash where it lies below the path. The name
// comes with all bytes that its run has for it, since its zero is not sought first. No image is longer than the bound, under which no count wraps.
pub fn compare(name: &[u8], path: &[u8], end: u8) -> Compared
    requires { length name.now ≤ 16_777_216 }
    ensures same_value { result.same ≡ is_then end name.now path.now }
    ensures counted { result.looked ≡ looked name.now path.now }
{
    if name.len() < path.len() {
        return apart(0);
    }
    let test = compare_last(name, path);
    if !test.same {
        return test;
    }
    let rest = walk(name, path, end);
    Compared {
        same: rest.same,
        looked: test.looked + rest.looked,
    }
}
