// Bytes written into a lent output, one run behind another.
#![tactic(auto)]

ghost use Rattle.std.specs.Prelude.{◌+◌, ◌≤◌, length};
ghost use Rattle.output.specs.Puts.{Puts};

// Writes bytes at a place, and no other, and answers the place behind them.
// Buffer and place, not a cursor: `Puts` composes, and a cursor would have to say in each contract that its `&mut` is the same.
pub fn put(out: &mut [u8], at: usize, b: &[u8]) -> usize
    requires { at + length b.now ≤ length out.old }
    ensures { Puts out.old out.new at b.now result }
{
    out[at..at + b.len()].copy_from_slice(b);
    at + b.len()
}
