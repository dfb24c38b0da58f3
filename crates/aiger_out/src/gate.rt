//! The literals of gates, and their bytes in the binary form.
ghost use Rattle.std.specs.Prelude.{◌≡◌, ◌≤◌, ◌<◌, ◌+◌, ◌++◌, length, slice_index_or};
ghost use Rattle.arrayvec.specs.ArrayVec.{array_vec_len};
ghost use Rattle.aig.specs.declared.edge.And.{And};
ghost use Rattle.aiger_out.specs.Written.{delta, gate_bytes as bytes_of_gate, gate_literal, greater_literal, lesser_literal};

use aig::Aig;
use arrayvec::ArrayVec;

/// Room for the bytes of a gate: two numbers of 128 bits, each in at most 19 groups of 7 bits.
const ROOM: usize = 38;

/// The bytes of a gate.
pub(crate) type GateBytes = ArrayVec<u8, ROOM>;

/// The literals of a gate and of its two edges, the greater one first.
#[derive(Clone, Copy, Debug)]
pub(crate) struct GateLiterals {
    pub(crate) lhs: u128,
    pub(crate) rhs0: u128,
    pub(crate) rhs1: u128,
}

// The literals of the gate at a place.
pub(crate) fn literals_of(aig: &Aig, place: usize) -> GateLiterals
    requires { place < length aig.now.gates }
    ensures lhs { result.lhs ≡ gate_literal aig.now.inputs place }
    ensures rhs0 { (d : And) → result.rhs0 ≡ greater_literal aig.now.inputs (slice_index_or aig.now.gates place d) }
    ensures rhs1 { (d : And) → result.rhs1 ≡ lesser_literal aig.now.inputs (slice_index_or aig.now.gates place d) }
    ensures later { result.rhs0 < result.lhs }
    ensures ordered { result.rhs1 ≤ result.rhs0 }
{
    let inputs = aig.inputs();
    let (left, right) = aig.gate(place);
    let (m, n) = (left.number(inputs), right.number(inputs));
    GateLiterals {
        lhs: 2 * (inputs as u128 + place as u128 + 1),
        rhs0: m.max(n),
        rhs1: m.min(n),
    }
}

// The bytes of the gate at a place: how far its greater literal is below its own, and the lesser one below that.
pub(crate) fn gate_bytes(aig: &Aig, place: usize) -> GateBytes
    requires { place < length aig.now.gates }
    ensures { (d : And) → result.items
        ≡ bytes_of_gate aig.now.inputs place (slice_index_or aig.now.gates place d) }
{
    let gate = literals_of(aig, place);
    let mut bytes = GateBytes::new();
    push_delta(&mut bytes, gate.lhs - gate.rhs0);
    push_delta(&mut bytes, gate.rhs0 - gate.rhs1);
    bytes
}

// Puts a number behind what there is: groups of 7 bits, the lowest first, all but the last with the high bit.
fn push_delta(bytes: &mut GateBytes, number: u128)
    requires room { array_vec_len bytes.old + 19 ≤ 38 }
    ensures items { bytes.new.items ≡ bytes.old.items ++ delta number }
    ensures len { array_vec_len bytes.new ≤ array_vec_len bytes.old + 19 }
{
    let mut rest = number;
    while rest >= 128 {
        bytes.push((rest % 128 + 128) as u8);
        rest /= 128;
    }
    bytes.push(rest as u8);
}
