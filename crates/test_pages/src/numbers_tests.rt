//! Lists of numbers: small ones and great ones, and last ones that come into the place of others.
use short_numbers::Numbers;
use std::alloc::Global;
use std::test::Fail;

// The least number that takes more than 32 bits allow.
const GREAT: usize = 4_294_967_294;

// Writes a number, and whether it is read again.
fn write(numbers: &mut Numbers, at: usize, number: Option<usize>) -> bool {
    if at >= numbers.len() {
        return false;
    }
    numbers.set(at, number);
    numbers.get(at) == number
}

// The first four numbers.
fn front(numbers: &Numbers) -> Option<[Option<usize>; 4]> {
    if numbers.len() < 4 {
        return None;
    }
    Some([
        numbers.get(0),
        numbers.get(1),
        numbers.get(2),
        numbers.get(3),
    ])
}

// Writes these numbers one after the other, and puts the last two into the place of the second and the third.
fn write_and_move(numbers: &mut Numbers, values: &[Option<usize>]) -> bool {
    for at in 0..values.len() {
        if !write(numbers, at, values[at]) {
            return false;
        }
    }
    if numbers.len() < 3 {
        return false;
    }
    numbers.move_last(1, 2);
    true
}

// What is left of six numbers, the last two of which come into the place of the second and the third.
fn moved(alloc: Global, values: [Option<usize>; 6]) -> Result<Option<[Option<usize>; 4]>, Fail> {
    let mut numbers = Numbers::new(alloc);
    numbers.reserve(6)?;
    numbers.push_none(6);
    if !write_and_move(&mut numbers, &values) {
        return Ok(None);
    }
    Ok(front(&numbers))
}

#[test]
fn small_and_great_numbers_stand_in_one_list(rt: HostRuntime) -> Result<(), Fail> {
    let values = [
        Some(1),
        None,
        Some(GREAT - 1),
        Some(GREAT),
        Some(GREAT + 1),
        Some(usize::MAX),
    ];
    let left = [Some(1), Some(GREAT + 1), Some(usize::MAX), Some(GREAT)];
    assert_eq!(rt; moved(rt.alloc(), values)?, Some(left));
    Ok(())
}
