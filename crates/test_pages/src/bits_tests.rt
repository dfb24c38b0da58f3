//! Lists of bits, over more than one word.
use pages::Bits;
use std::alloc::Global;
use std::test::Fail;

// How many bits are set.
fn count(bits: &Bits) -> usize {
    let mut count = 0;
    for at in 0..bits.len() {
        if bits.get(at) {
            count += 1;
        }
    }
    count
}

fn set(bits: &mut Bits, at: usize) -> bool {
    if at >= bits.len() {
        return false;
    }
    bits.set(at);
    bits.get(at)
}

// How many bits there are and how many are set: after four were set of 130, two of them in one word, after 70 more
// came, and after all were taken back.
fn counts(alloc: Global) -> Result<[(usize, usize); 3], Fail> {
    let mut bits = Bits::new(alloc);
    bits.grow(130)?;
    let front = set(&mut bits, 0) && set(&mut bits, 63);
    let all = front && set(&mut bits, 64) && set(&mut bits, 129);
    if !all {
        return Ok([(0, 0); 3]);
    }
    let first = (bits.len(), count(&bits));
    bits.grow(200)?;
    let second = (bits.len(), count(&bits));
    bits.clear();
    Ok([first, second, (bits.len(), count(&bits))])
}

#[test]
fn bits_are_set_and_taken_back(rt: HostRuntime) -> Result<(), Fail> {
    assert_eq!(rt; counts(rt.alloc())?, [(130, 4), (200, 4), (200, 0)]);
    Ok(())
}
