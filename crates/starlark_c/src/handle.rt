//! A document on the heap, whose pointer C keeps.

ghost use Rattle.std.specs.Prelude.{◌≡◌, IsSome, IsNone};
ghost use Rattle.std.specs.declared.option.Option.{Option};
ghost use Rattle.std.specs.declared.option.Option.TheVariants.{None, Some};
ghost use Rattle.starlark_c.specs.HeldDocuments.{document_coded, held_at};
ghost use Rattle.starlark_document.specs.Documents.{DocumentView};

use crate::loose::Loose;
use starlark_document::Document;
use std::alloc::Global;
use std::marker::Model;

/// A document on the heap, or none. In a contract `held` is the document.
///
/// To C it is one pointer. It isn't `Drop`, so a document that is lost is an error.
#[repr(C)]
pub struct Handle {
    at: *mut u8,
    alloc: Global,
    pub ghost held: { Option DocumentView } by { document_coded },
}

impl Model for Handle {
    ghost also_owns = { λ handle. held_at handle.alloc handle.at handle.held };
}

impl Handle {
    /// A handle without a document.
    pub fn none(alloc: Global) -> Handle
        ensures { result.held ≡ None }
    {
        Handle {
            at: std::ptr::null_mut(),
            alloc,
        }
    }

    /// A handle of a document.
    pub fn of(document: Loose<Document, Global>) -> Handle
        ensures { result.held ≡ Some document.value }
    {
        let Loose { at, alloc } = document;
        Handle {
            at: at as *mut u8,
            alloc,
        }
    }

    /// The document of a handle that has one.
    pub fn into_loose(self) -> Loose<Document, Global>
        requires { IsSome self.held }
        ensures { Some result.value ≡ self.held }
    {
        let Handle { at, alloc } = self;
        Loose {
            at: at as *mut Document,
            alloc,
        }
    }

    /// Ends a handle without a document.
    pub fn discard(self)
        requires { IsNone self.held }
    {
        let Handle { at: _, alloc: _ } = self;
    }
}
