//! The codes of faults.

ghost use Rattle.std.specs.Prelude.{◌≡◌};
ghost use Rattle.starlark_c.specs.NumberedCodes.{code_at};

/// The code of the fault with a number; empty where no fault has it.
#[tactic(auto, unfolding(crate::specs::NumberedCodes::code_at, crate::specs::NumberedCodes::fault_codes))]
pub fn code_of_fault(kind: u32) -> &'static str
    ensures { result.now ≡ code_at kind }
{
    match kind {
        1 => "SL001",
        2 => "SL002",
        3 => "SL003",
        4 => "SL004",
        5 => "SL005",
        6 => "SL006",
        7 => "SL007",
        8 => "SL008",
        9 => "SL009",
        _ => "",
    }
}
