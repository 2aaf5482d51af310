// Where a new entry may go: anywhere, or before the entries of all its leading directories.

#![tactic(auto)]

ghost use Rattle.std.specs.Prelude.{◌≡◌, ◌≤◌, eqb};
ghost use Rattle.rules.specs.Lists.{any};
ghost use Rattle.rules.specs.Fields.{up_to_zero};
ghost use Rattle.rules.specs.Names.{slash, is_below};
ghost use Rattle.rules.specs.Writing.{is_above};
ghost use Rattle.slots.specs.View.{spot_view, SpotIn};
ghost use Rattle.index.specs.Steps.{Walks};
ghost use Rattle.index.specs.View.{SumsFrom};
ghost use Rattle.places.specs.Cut.{PlacesBefore, PlacesFor};

use index::{Ahead, Cursor, next_spot};
use slots::Spot;

// Whether the path lies below what the name field names: a slash stands in the path where the name has its zero.
fn leads_to(name: &[u8], path: &[u8]) -> bool
    ensures { result ≡ is_below (up_to_zero name.now) path.now }
{
    for (&x, &y) in name.iter().zip(path) {
        if x == 0 {
            return y == b'/';
        }
        if x != y {
            return false;
        }
    }
    path.get(name.len()) == Some(&b'/')
}

// Whether the entry is a live directory that the path lies below.
fn is_above(img: &[u8], e: Spot, path: &[u8]) -> bool
    requires { SpotIn img.now e }
    ensures { result ≡ is_above path.now (spot_view img.now e) }
{
    if e.kind != slots::DIRECTORY {
        return false;
    }
    leads_to(slots::name_field(img, e.edition, e.at), path)
}

// How many slots from the cursor on stand before the first live directory that the path lies below, all where there is none.
fn slots_before(img: &[u8], sums: &[u8], from: Cursor, path: &[u8]) -> u64
    requires { Walks img.now from × SumsFrom img.now sums.now from }
    ensures { PlacesBefore img.now from path.now result }
{
    let mut c = from;
    while let Some(Ahead { here, rest }) = next_spot(img, sums, c) {
        if is_above(img, here, path) {
            return from.slot.slots_to(here.slot);
        }
        c = rest;
    }
    from.left
}

// Whether a path has a slash: one without has no directories.
fn has_slash(path: &[u8]) -> bool
    ensures { result ≡ any (eqb slash) path.now }
{
    path.contains(&b'/')
}

// The cursor over the slots that a new entry of the path may have: those before the entries of its directories, where the edition asks for it.
pub fn places_for(img: &[u8], sums: &[u8], from: Cursor, path: &[u8]) -> Cursor
    requires { Walks img.now from × SumsFrom img.now sums.now from }
    ensures { PlacesFor img.now from path.now result }
{
    if !from.edition.before_directories() {
        return from;
    }
    if !has_slash(path) {
        return from;
    }
    Cursor {
        left: slots_before(img, sums, from, path),
        ..from
    }
}
