//! Call stacks of values with diagnostics.

ghost use Rattle.std.specs.Prelude.{◌≡◌, ◌↔◌, [], IsTrue, map, string_bytes};

use std::marker::Model;

/// The calls that led to a position, each as a text. In a contract it is the list of their bytes.
#[derive(Debug, Drop)]
pub struct CallStack {
    frames: Option<Vec<String>>,
}

impl Model for CallStack {
    ghost use Rattle.std.specs.Prelude.{List, [], map, string_bytes};
    ghost use Rattle.std.specs.Option.{option_map_or};
    ghost use Rattle.starlark_base.specs.Places.{Text};

    ghost Value = { List Text };

    ghost view = { λ stack. option_map_or (λ frames. map string_bytes frames.items) stack.frames [] };
}

impl CallStack {
    /// A call stack without calls. It doesn't allocate.
    pub fn empty() -> CallStack
        ensures { result ≡ [] }
    {
        CallStack { frames: None }
    }

    /// A call stack of the given calls, in their order.
    pub fn from_frames(frames: Vec<String>) -> CallStack
        ensures { result ≡ map string_bytes frames.items }
    {
        CallStack {
            frames: Some(frames),
        }
    }

    /// The calls, in their order.
    pub fn frames(&self) -> &[String]
        ensures { map string_bytes result.now ≡ self.now }
    {
        match &self.frames {
            Some(frames) => frames.as_slice(),
            None => &[],
        }
    }

    /// Whether there are no calls.
    pub fn is_empty(&self) -> bool
        ensures { IsTrue result ↔ (self.now ≡ []) }
    {
        self.frames().is_empty()
    }
}

impl PartialEq for CallStack {
    ghost use Rattle.std.specs.Prelude.{◌==◌};
    ghost use Rattle.std.specs.Cmp.Lexicographic.{pointwise};
    ghost use Rattle.std.proofs.Common.{rules};
    ghost use Rattle.std.specs.Cmp.Rules.{comparing};

    ghost eq = { pointwise (pointwise ◌==◌) };

    ghost laws = { Prim.search (comparing, rules) };

    fn eq(&self, other: &CallStack) -> bool {
        self.frames() == other.frames()
    }
}
