//! In which style reports are made.

ghost use Rattle.std.specs.Prelude.{◌≡◌};
ghost use Rattle.starlark_tokens.specs.CommandLine.Requests as requests;

use crate::command_line::requests::{Format, Reports};
use crate::output_formats::form::{Columns, Form, Style, Terminal};

/// Number of faults of a file that lines for people show, where it isn't asked for.
const FIRST_MOST: usize = 100;

/// The form of the reports, by whether lines of tokens have names, and whether output is painted.
fn form_of(wanted: &Reports<'_>, are_named: bool, is_painted: bool) -> Form
    ensures { result ≡ requests.form_of wanted.now are_named is_painted }
{
    match (wanted.format, wanted.check) {
        (Format::Sarif, _) => Form::Sarif,
        (Format::Github, _) => Form::Github,
        (Format::Json, true) => Form::JsonFaults,
        (Format::Json, false) => Form::Json,
        (Format::Text, true) if is_painted => Form::PaintedFaults,
        (Format::Text, true) => Form::Faults,
        (Format::Text, false) if are_named => Form::NamedTokens,
        (Format::Text, false) => Form::Tokens,
    }
}

/// Number of faults of a file that are shown where this many are asked for; 0 is all.
fn limit(asked: usize) -> usize
    ensures { result ≡ requests.limit asked }
{
    if asked == 0 { usize::MAX } else { asked }
}

/// Number of faults of a file that are shown in a form where it isn't asked for; 0 is all.
fn first_most(form: Form) -> usize
    ensures { result ≡ requests.first_most form }
{
    if form.shows_faults() { FIRST_MOST } else { 0 }
}

/// Number of faults of a file that are shown.
fn most_of(wanted: &Reports<'_>, form: Form) -> usize
    ensures { result ≡ requests.most form wanted.now.max_faults }
{
    if matches!(form, Form::Tokens | Form::NamedTokens) {
        return usize::MAX;
    }
    limit(wanted.max_faults.unwrap_or(first_most(form)))
}

/// How columns of faults are counted in a form, by how it is asked for.
fn columns_in(form: Form, asked: Columns) -> Columns
    ensures { result ≡ requests.columns_in form asked }
{
    match form {
        Form::Faults | Form::PaintedFaults | Form::Github => asked,
        _ => Columns::Characters,
    }
}

/// The style of the reports, by whether lines of tokens have names, and what the output is.
pub fn style_of<'a>(wanted: &'a Reports<'_>, are_named: bool, terminal: Terminal) -> Style<'a>
    ensures { requests.IsStyleOf wanted.now are_named terminal result }
{
    let form = form_of(wanted, are_named, terminal.is_painted);
    Style {
        form,
        side: terminal.side,
        columns: columns_in(form, wanted.columns),
        most: most_of(wanted, form),
        filter: &wanted.filter,
    }
}
