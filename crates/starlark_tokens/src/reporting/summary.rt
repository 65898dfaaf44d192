//! What the end of a document tells of all sources.

ghost use Rattle.std.specs.Prelude.{◌≡◌, [], string_bytes};
ghost use Rattle.starlark_tokens.specs.declared.output_formats.form.Style.{Style};
ghost use Rattle.starlark_tokens.specs.Reporting.Totals.{totals_of};

use crate::reporting::totals::Totals;
use std::alloc::Global;

/// What was found in the sources so far, and what is told of those that have no text.
#[derive(Drop)]
pub struct Summary {
    pub totals: Totals,
    /// Notifications of SARIF, each after a comma; empty in other forms.
    pub notices: String,
}

impl Summary {
    /// No source, but for those that can't be read.
    pub fn of_unreadable(alloc: Global, unreadable: usize) -> Summary
        ensures totals { (style : Style) → result.totals ≡ totals_of style unreadable [] }
        ensures notices { string_bytes result.notices ≡ [] }
    {
        Summary {
            totals: Totals::of_unreadable(unreadable),
            notices: String::new(alloc),
        }
    }
}
