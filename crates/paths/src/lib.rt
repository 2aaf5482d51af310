// Paths of entries, compared with a path and looked up, by walks from slot to slot. What is looked at of the names is counted.

#![tactic(auto)]

ghost use Rattle.std.specs.Prelude.{◌≡◌, true, List, ℕ};
ghost use Rattle.rules.specs.Lists.{any, first};
ghost use Rattle.rules.specs.Index.{run_type};
ghost use Rattle.rules.specs.Paths.{is_live, live_at, deleted_at, lookup, live_from, directory_live, any_below};
ghost use Rattle.rules.specs.Comparing.{looked};
ghost use Rattle.comparing.specs.Walk.{is_then};
ghost use Rattle.editions.specs.View.{edition_view};
ghost use Rattle.slots.specs.View.{spot_view, SpotIn};
ghost use Rattle.index.specs.View.{SumsFrom};
ghost use Rattle.index.specs.Steps.{Walks, entries_from};
ghost use Rattle.paths.specs.Searching.{FewLooked, Goes, Ends};
ghost use Rattle.paths.specs.View.{Hits, HitOf, Searched, FoundOf, passes, sought_kind, compares, OfRuns, name_of, spot_looked, LookedFrom};

use comparing::{Compared, apart, compare};
use index::{Ahead, Cursor, further, next_spot, single};
use slots::{Head, Spot};
use units::Slot;

// ---- one entry

// What an entry is looked for by, beside a path: its type is one of the two, and its name is the path and then this byte, zero for the path itself,
// a slash for what lies below it.
// Kept: plain numbers and no enum, for speed: a search would match on an enum at every entry, a jump for each (docs/PROVING.md, "An enum that a loop matches on").
#[derive(Clone, Copy)]
struct Sought {
    one: u8,
    other: u8,
    end: u8,
}

const LIVE: Sought = Sought {
    one: slots::DIRECTORY,
    other: slots::FILE,
    end: 0,
};

const DELETED: Sought = Sought {
    one: slots::DELETED_DIRECTORY,
    other: slots::DELETED_FILE,
    end: 0,
};

const DIRECTORY: Sought = Sought {
    one: slots::DIRECTORY,
    other: slots::DIRECTORY,
    end: 0,
};

const BELOW: Sought = Sought {
    one: slots::DIRECTORY,
    other: slots::FILE,
    end: b'/',
};

// Whether an entry of this type may pass.
fn is_sought(what: Sought, kind: u8) -> bool
    ensures { result ≡ sought_kind what kind }
{
    kind == what.one || kind == what.other
}

// The name of the run's entry, compared with the path and the byte `end` behind it.
fn compare_name(img: &[u8], e: Spot, path: &[u8], end: u8) -> Compared
    requires { SpotIn img.now e × (run_type e.kind ≡ true) }
    ensures same_value { result.same ≡ is_then end (name_of img.now e) path.now }
    ensures counted { result.looked ≡ looked (name_of img.now e) path.now }
{
    compare(slots::name_field(img, e.edition, e.at), path, end)
}

// Whether what stands there passes (`same`), and how many bytes of its name were looked at. A name is compared only where the type is sought.
fn passes(img: &[u8], e: Spot, what: Sought, path: &[u8]) -> Compared
    requires { OfRuns (edition_view e.edition) what × (sought_kind what e.kind ≡ true → SpotIn img.now e) }
    ensures same_value { result.same ≡ passes what path.now (spot_view img.now e) }
    ensures counted { result.looked ≡ spot_looked img.now e what path.now }
{
    if !is_sought(what, e.kind) {
        return apart(0);
    }
    compare_name(img, e, path, what.end)
}

// ---- searches

// How far a search came, and how many bytes of names it looked at: to a cursor, with nothing that passes before it, or to an entry that passes, with
// the cursor behind it.
#[derive(Clone, Copy)]
enum Way {
    On(Cursor, usize),
    At(Ahead, usize),
}

// A search taken on over the slots that stand by themselves, as most do, up to one with more slots behind it. The loop does not wait for a count to
// know where the next slot is.
fn pass_singles(img: &[u8], from: Cursor, what: Sought, path: &[u8], looked: usize) -> Way
    requires { Walks img.now from × OfRuns (edition_view from.edition) what × FewLooked from looked }
    ensures { Goes img.now what path.now from looked result }
{
    let mut c = from;
    let mut n = looked;
    while 0 < c.left {
        if !slots::is_single(img, c.edition, c.at) {
            return Way::On(c, n);
        }
        let next = single(img, c);
        let tried = passes(img, next.here, what, path);
        n += tried.looked;
        if tried.same {
            return Way::At(next, n);
        }
        c = next.rest;
    }
    Way::On(c, n)
}

// The same over all slots: where it comes to a cursor, that is the end.
fn pass_over(img: &[u8], sums: &[u8], from: Cursor, what: Sought, path: &[u8]) -> Way
    requires { Walks img.now from × OfRuns (edition_view from.edition) what × SumsFrom img.now sums.now from }
    ensures goes { Goes img.now what path.now from 0 result }
    ensures ended { Ends result }
{
    let mut c = from;
    let mut n: usize = 0;
    loop {
        let way = pass_singles(img, c, what, path, n);
        let Way::On(at, looked) = way else {
            return way;
        };
        if at.left == 0 {
            return way;
        }
        let next = further(img, sums, at);
        let tried = passes(img, next.here, what, path);
        n = looked + tried.looked;
        if tried.same {
            return Way::At(next, n);
        }
        c = next.rest;
    }
}

// What a search comes to, the entry and the cursor behind it, and how many bytes of the names on its way it looked at.
#[derive(Clone, Copy)]
struct Met {
    hit: Option<(Head, Cursor)>,
    looked: usize,
}

#[derive(Clone, Copy)]
pub struct Found {
    pub entry: Option<Head>,
    pub looked: usize,
}

// The first entry that passes, and where the walk goes on behind it. Only its numbers are read.
fn next_hit(img: &[u8], sums: &[u8], from: Cursor, what: Sought, path: &[u8]) -> Met
    requires { Walks img.now from × OfRuns (edition_view from.edition) what × SumsFrom img.now sums.now from }
    ensures hits { Hits img.now (passes what path.now) (entries_from img.now from) result.hit }
    ensures counted { LookedFrom img.now from (compares what) (passes what path.now) path.now result.looked }
    ensures edition { HitOf from result.hit }
{
    match pass_over(img, sums, from, what, path) {
        Way::On(_, looked) => Met { hit: None, looked },
        Way::At(next, looked) => {
            let e = next.here;
            let h = slots::head_at(img, e.edition, e.at, e.slot);
            Met {
                hit: Some((h, next.rest)),
                looked,
            }
        }
    }
}

// The first entry that passes, and how many bytes of names were looked at.
fn seek(img: &[u8], sums: &[u8], from: Cursor, what: Sought, path: &[u8]) -> Found
    requires { Walks img.now from × OfRuns (edition_view from.edition) what × SumsFrom img.now sums.now from }
    ensures searched { Searched img.now (first (passes what path.now) (entries_from img.now from)) result.entry }
    ensures counted { LookedFrom img.now from (compares what) (passes what path.now) path.now result.looked }
    ensures edition { FoundOf from.edition result.entry }
{
    let met = next_hit(img, sums, from, what, path);
    Found {
        entry: met.hit.map(|(h, _)| h),
        looked: met.looked,
    }
}

// Whether an entry passes.
fn any_passes(img: &[u8], sums: &[u8], from: Cursor, what: Sought, path: &[u8]) -> bool
    requires { Walks img.now from × OfRuns (edition_view from.edition) what × SumsFrom img.now sums.now from }
    ensures { result ≡ any (passes what path.now) (entries_from img.now from) }
{
    next_hit(img, sums, from, what, path).hit.is_some()
}

// The live entry of the path, and how many bytes of names were looked at.
pub fn find(img: &[u8], sums: &[u8], from: Cursor, path: &[u8]) -> Found
    requires { Walks img.now from × SumsFrom img.now sums.now from }
    ensures searched { Searched img.now (lookup path.now (entries_from img.now from)) result.entry }
    ensures counted { LookedFrom img.now from is_live (live_at path.now) path.now result.looked }
    ensures edition { FoundOf from.edition result.entry }
{
    seek(img, sums, from, LIVE, path)
}

// The live entry of the path.
pub fn lookup(img: &[u8], sums: &[u8], from: Cursor, path: &[u8]) -> Option<Head>
    requires { Walks img.now from × SumsFrom img.now sums.now from }
    ensures { Searched img.now (lookup path.now (entries_from img.now from)) result }
{
    find(img, sums, from, path).entry
}

// The first deleted entry of the path. Where none are kept there is none.
pub fn first_deleted(img: &[u8], sums: &[u8], from: Cursor, path: &[u8]) -> Option<(Head, Cursor)>
    requires { Walks img.now from × SumsFrom img.now sums.now from }
    ensures hits { Hits img.now (deleted_at path.now) (entries_from img.now from) result }
    ensures place { HitOf from result }
{
    if !from.edition.keeps_deleted() {
        return None;
    }
    next_hit(img, sums, from, DELETED, path).hit
}

// Whether a deleted entry has this path.
pub fn any_deleted(img: &[u8], sums: &[u8], from: Cursor, path: &[u8]) -> bool
    requires { Walks img.now from × SumsFrom img.now sums.now from }
    ensures { result ≡ any (deleted_at path.now) (entries_from img.now from) }
{
    first_deleted(img, sums, from, path).is_some()
}

// Whether the entry is live and starts at this slot or behind it.
fn is_from(e: Spot, slot: Slot) -> bool
    ensures { (s : List ℕ) → result ≡ live_from slot.0 (spot_view s e) }
{
    slots::is_live(e.kind) && slot <= e.slot
}

// The live entry with the lowest first slot not below this one, and where the walk goes on behind it.
pub fn next_live(img: &[u8], sums: &[u8], from: Cursor, slot: Slot) -> Option<(Head, Cursor)>
    requires { Walks img.now from × SumsFrom img.now sums.now from }
    ensures hits { Hits img.now (live_from slot.0) (entries_from img.now from) result }
    ensures place { HitOf from result }
{
    let mut c = from;
    while let Some(next) = next_spot(img, sums, c) {
        let e = next.here;
        if is_from(e, slot) {
            return Some((slots::head_at(img, e.edition, e.at, e.slot), next.rest));
        }
        c = next.rest;
    }
    None
}

// Whether a live directory has this path.
pub fn directory_live(img: &[u8], sums: &[u8], from: Cursor, path: &[u8]) -> bool
    requires { Walks img.now from × SumsFrom img.now sums.now from }
    ensures { result ≡ directory_live (entries_from img.now from) path.now }
{
    any_passes(img, sums, from, DIRECTORY, path)
}

// Whether a live entry lies below this path.
pub fn any_below(img: &[u8], sums: &[u8], from: Cursor, path: &[u8]) -> bool
    requires { Walks img.now from × SumsFrom img.now sums.now from }
    ensures { result ≡ any_below path.now (entries_from img.now from) }
{
    any_passes(img, sums, from, BELOW, path)
}
