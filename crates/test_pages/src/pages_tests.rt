//! Lists in pages: places that go, pages that go with them, and what is found.
ghost use Rattle.std.specs.Prelude.{◌≢◌, ◌<◌, None, IsTrue, length, slice_index_or};

use pages::Pages;
use std::alloc::Global;
use std::test::Fail;

// What a test does to a list, or what it looks whether it is so. A place has a number or none.
#[derive(Clone, Copy)]
enum Turn {
    // Puts in so many places, each with its own number.
    Push(usize),
    // Puts in a place with none.
    PushNone,
    // Gives a place with a number another one.
    Set(usize, usize),
    // Makes the places from one up to another one blank.
    Clear(usize, usize),
    Truncate(usize),
    // Looks what stands at a place, and how many places there are.
    Has(usize, Option<usize>),
    Len(usize),
    // Looks for the first place from one on, and the last one before one.
    Next(usize, Option<usize>),
    Last(usize, Option<usize>),
}

fn value_at(places: &Pages<Option<usize>>, at: usize) -> Option<usize> {
    match places.get(at) {
        Some(value) => *value,
        None => None,
    }
}

fn push(places: &mut Pages<Option<usize>>, count: usize) -> Result<bool, Fail> {
    for _ in 0..count {
        let value = Some(places.len());
        places.push(value)?;
    }
    Ok(true)
}

fn is_filled(places: &Pages<Option<usize>>, at: usize) -> bool
    ensures { IsTrue result → (at < length places.now) × (slice_index_or places.now at None ≢ None) }
{
    match places.get(at) {
        Some(Some(_)) => true,
        _ => false,
    }
}

fn set(places: &mut Pages<Option<usize>>, at: usize, value: usize) -> bool {
    if !is_filled(places, at) {
        return false;
    }
    places.set(at, Some(value));
    true
}

fn clear(places: &mut Pages<Option<usize>>, from: usize, to: usize) -> bool {
    for at in from..to {
        if at >= places.len() {
            return false;
        }
        places.clear(at);
    }
    true
}

fn take(places: &mut Pages<Option<usize>>, turn: Turn) -> Result<bool, Fail> {
    Ok(match turn {
        Turn::Push(count) => push(places, count)?,
        Turn::PushNone => {
            places.push(None)?;
            true
        }
        Turn::Set(at, value) => set(places, at, value),
        Turn::Clear(from, to) => clear(places, from, to),
        Turn::Truncate(count) => {
            places.truncate(count);
            true
        }
        Turn::Has(at, value) => value_at(places, at) == value,
        Turn::Len(count) => places.len() == count,
        Turn::Next(from, at) => places.next_filled(from) == at,
        Turn::Last(below, at) => places.last_filled(below) == at,
    })
}

// The number of the first turn that doesn't go as told, if there is one.
fn first_wrong(alloc: Global, turns: &[Turn]) -> Result<Option<usize>, Fail> {
    let mut places = Pages::new(alloc);
    for number in 0..turns.len() {
        if !take(&mut places, turns[number])? {
            return Ok(Some(number));
        }
    }
    Ok(None)
}

// Four pages and a bit. The second page goes whole, and the third one but for a place, which goes at the end.
const GONE: [Turn; 24] = [
    Turn::Next(0, None),
    Turn::Last(5, None),
    Turn::Push(260),
    Turn::Len(260),
    Turn::Has(0, Some(0)),
    Turn::Has(259, Some(259)),
    Turn::Has(260, None),
    Turn::Clear(60, 191),
    Turn::Has(59, Some(59)),
    Turn::Has(60, None),
    Turn::Has(100, None),
    Turn::Has(191, Some(191)),
    Turn::Next(59, Some(59)),
    Turn::Next(60, Some(191)),
    Turn::Next(64, Some(191)),
    Turn::Last(191, Some(59)),
    Turn::Last(1_000, Some(259)),
    Turn::Next(260, None),
    Turn::Set(191, 7),
    Turn::Has(191, Some(7)),
    Turn::Push(1),
    Turn::Has(260, Some(260)),
    Turn::Clear(191, 192),
    Turn::Next(60, Some(192)),
];

// A list is cut within a page that went, and grows again.
const CUT: [Turn; 13] = [
    Turn::Push(130),
    Turn::Clear(64, 128),
    Turn::Truncate(70),
    Turn::Len(70),
    Turn::Last(70, Some(63)),
    Turn::Push(2),
    Turn::Has(69, None),
    Turn::Has(70, Some(70)),
    Turn::Next(64, Some(70)),
    Turn::PushNone,
    Turn::Has(72, None),
    Turn::Truncate(64),
    Turn::Last(100, Some(63)),
];

#[test]
fn places_go_and_come(rt: HostRuntime) -> Result<(), Fail> {
    assert_eq!(rt; first_wrong(rt.alloc(), &GONE)?, None);
    assert_eq!(rt; first_wrong(rt.alloc(), &CUT)?, None);
    Ok(())
}
