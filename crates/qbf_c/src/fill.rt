//! Values put into a buffer of the caller's.
ghost use Rattle.std.specs.Prelude.{◌≡◌, ◌≤◌, ◌++◌, drop, length, map};
ghost use Rattle.prefix.specs.Literal.{signed_number};
ghost use Rattle.qbf_c.specs.Buffers.{IsPut};

use crate::code::{ACCEPTED, SHORT};
use buffers::put;
use prefix::Lit;

// Puts values into the buffer where it has room for them, and tells how many they are.
pub(crate) fn fill<T: Copy>(values: &[T], buffer: &mut [T], count: &mut usize) -> u32
    ensures { IsPut values.now buffer.old buffer.new count.new result }
{
    if put(values, buffer, count) {
        ACCEPTED
    } else {
        SHORT
    }
}

// The same of the numbers of literals.
pub(crate) fn fill_numbers(lits: &[Lit], buffer: &mut [i32], count: &mut usize) -> u32
    ensures { IsPut (map signed_number lits.now) buffer.old buffer.new count.new result }
{
    *count = lits.len();
    if lits.len() > buffer.len() {
        return SHORT;
    }
    put_numbers(lits, buffer);
    ACCEPTED
}

// Puts the numbers of literals into the front of a buffer that has room for them.
fn put_numbers(lits: &[Lit], buffer: &mut [i32])
    requires { length lits.now ≤ length buffer.old }
    ensures { buffer.new ≡ map signed_number lits.now ++ drop (length lits.now) buffer.old }
{
    for i in 0..lits.len() {
        buffer[i] = lits[i].number();
    }
}
