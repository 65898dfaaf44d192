//! A document as C holds it.

ghost use Rattle.std.specs.Prelude.{◌≡◌, ◌<◌, ◌^◌, IsNone, IsSome, Some, is_some, length};
ghost use Rattle.starlark_c.specs.HeldDocuments.{held_len};

use crate::handle::Handle;
use crate::loose::Loose;
use starlark_document::Document;
use std::alloc::Global;
use std::mem::replace;

/// A document or none, and which. Zeroed, it is none.
#[repr(C)]
pub struct DocumentSlot {
    /// The document.
    pub handle: Handle,
    /// Whether there is one.
    pub is_full: bool,
    ghost fits: { is_some handle.held ≡ is_full },
    ghost short: { held_len handle.held < 2 ^ 32 },
}

impl DocumentSlot {
    /// Whether there is a document.
    pub fn has_document(&mut self) -> bool
        ensures result { is_some self.old.handle.held ≡ result }
        ensures same { self.new ≡ self.old }
    {
        self.is_full
    }

    /// Takes the document out.
    pub fn take(&mut self, alloc: Global) -> Box<Document>
        requires { IsSome self.old.handle.held }
        ensures document { self.old.handle.held ≡ Some result.value }
        ensures short { length result.value.text < 2 ^ 32 }
        ensures none { IsNone self.new.handle.held }
    {
        let full = replace(&mut self.handle, Handle::none(alloc));
        self.is_full = false;
        full.into_loose().into_box()
    }

    /// Puts a document in.
    pub fn put(&mut self, document: Box<Document>)
        requires none { IsNone self.old.handle.held }
        requires short { length document.value.text < 2 ^ 32 }
        ensures { self.new.handle.held ≡ Some document.value }
    {
        replace(&mut self.handle, Handle::of(Loose::of(document))).discard();
        self.is_full = true;
    }
}
