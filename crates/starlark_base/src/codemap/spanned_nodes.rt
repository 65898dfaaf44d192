//! Values with their spans.

ghost use Rattle.std.specs.Prelude.{◌≡◌};

use crate::codemap::Span;
use std::ops::{Deref, DerefMut};

/// A value, such as a node of a syntax tree, and its span in a source text.
#[derive(Copy, Debug, Drop, PartialEq, Eq, Hash)]
#[derive_where(Clone; T: Copy)]
pub struct Spanned<T> {
    /// The value.
    pub node: T,
    /// The span of the value, in bytes of its source.
    pub span: Span,
}

impl<T> Spanned<T> {
    /// Applies a function to the node, and keeps the span.
    pub fn map<U, F: FnOnce(T) -> U + Drop>(self, f: F) -> Spanned<U>
        requires { F.pre f self.node }
        ensures node { F.post f self.node result.node }
        ensures span { result.span ≡ self.span }
    {
        let Spanned { node, span } = self;
        Spanned {
            node: f(node),
            span,
        }
    }

    /// A reference to the node, with its span.
    pub fn as_ref(&self) -> Spanned<&T>
        ensures node { result.node.now ≡ self.now.node }
        ensures span { result.span ≡ self.now.span }
    {
        Spanned {
            node: &self.node,
            span: self.span,
        }
    }
}

impl<T> Deref for Spanned<T> {
    type Target = T;

    ghost deref_gives = { λ spanned node. node ≡ spanned.node };

    fn deref(&self) -> &T {
        &self.node
    }
}

impl<T> DerefMut for Spanned<T> {
    ghost use Rattle.std.specs.Borrow.{Lends, sem};
    ghost use Rattle.starlark_base.specs.contracts.codemap.spanned_nodes.Spanned.{the_row};

    ghost deref_mut_gives = { λ spanned node. node ≡ spanned.node };

    fn deref_mut(&mut self) -> &mut T
        ensures* writes_back { sem 𝓛 (Lends (the_row T.row) T.row self.entry result (λ w. record self.old { node = w })) }
        ensures shows { result.now ≡ self.old.node }
    {
        &mut self.node
    }
}
