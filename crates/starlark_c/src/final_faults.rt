//! Whether the fault of the front of a text stays as it is, whatever follows the front.

ghost use Rattle.std.specs.Prelude.{◌≡◌};
ghost use Rattle.starlark_c.specs.FinalFaults.{IsFinal};

/// Whether a fault that ends at an offset is final: the front goes on after it, and ends with LF.
pub fn is_final(front: &[u8], fault_end: usize) -> bool
    ensures { IsFinal front.now fault_end result }
{
    fault_end < front.len() && front.ends_with(b"\n")
}
