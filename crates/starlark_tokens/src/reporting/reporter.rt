//! Makes the lines of the tokens and faults of one text.

ghost use Rattle.std.specs.Prelude.{◌≡◌, ◌≤◌, ◌++◌, [], IfOk, OnOk, codes, string_bytes};
ghost use Rattle.starlark_tokens.specs.OutputFormats.GithubLines.{property};
ghost use Rattle.starlark_tokens.specs.OutputFormats.JsonStrings.{json_string};
ghost use Rattle.starlark_tokens.specs.OutputFormats.SarifResults as sarif;
ghost use Rattle.starlark_tokens.specs.OutputFormats.PythonLiterals.{shown_name};
ghost use Rattle.std.specs.Str.{IsCharBoundary};
ghost use Rattle.starlark_tokens.specs.Inner.Reporters.{IsReady, Keeps};
ghost use Rattle.starlark_tokens.specs.Inner.ShownKinds.{code_of_kind, help_of_kind, shown_of_kind};
ghost use Rattle.starlark_base.specs.Positions.{IsPosition, position_at};
ghost use Rattle.starlark_tokens.specs.Reporting.Reports.{characters_message, characters_report, fault_report, finding_message, finding_report, more_characters, prefix_of, rest_report, token_report};
ghost use Rattle.starlark_tokens.specs.OutputFormats.SourceLines.{boundary_from};
ghost use Rattle.starlark_tokens.specs.ToldFaults.ShownColumns.{position_in};
ghost use Rattle.starlark_tokens.specs.ToldFaults.ShownPlaces.{shown_at};
ghost use Rattle.starlark_errors.specs.Errors.{kind_text};
ghost use Rattle.starlark_token.specs.TokenViews.{token_view};

use crate::output_formats::form::{Columns, Form, Style};
use crate::output_formats::github_lines::push_property;
use crate::output_formats::item_lines::{Fault, push_fault, push_token};
use crate::output_formats::json_strings::push_json_string;
use crate::output_formats::python_literals::push_name;
use crate::output_formats::sarif_results::push_uri;
use crate::output_formats::source_lines::boundary_from;
use crate::told_faults::byte_columns::ByteColumns;
use crate::told_faults::found_problems::{CHARACTERS_CODE, InvalidRun, code_of};
use crate::told_faults::helps::{help_of, help_of_check, help_of_input};
use crate::told_faults::known_positions::KnownPositions;
use crate::told_faults::shown_places::shown_position;
use starlark_base::codemap::{ResolvedPos, Span};
use starlark_base::position::Position;
use starlark_checks::check::Finding;
use starlark_syntax::error::ErrorKind;
use starlark_text::character_starts::count_starts;
use starlark_token::tokens::Token;
use std::alloc::{AllocError, Global};

/// A maker of the lines of one text: what each line begins with, and the lines in the making.
#[derive(Drop)]
pub struct Reporter<'t> {
    /// The style.
    pub style: Style<'t>,
    /// The text.
    pub text: &'t str,
    prefix: String,
    /// The lines of the last token or fault.
    pub lines: String,
    message: String,
    here: Position,
    /// Where the item before the last fault ends: what stands for that begins after it.
    before_fault: Position,
    /// Positions that are known, for what begins before `here`.
    known_positions: KnownPositions<'t>,
    byte_columns: ByteColumns<'t>,
}

/// Bytes of characters that begin no token which a message has, and the rest of a character.
const MESSAGE_LEN: usize = 24;

/// A name before each line, for people.
fn named_prefix(alloc: Global, name: &str) -> Result<String, AllocError>
    ensures { IfOk result (λ prefix. string_bytes prefix ≡ shown_name name.now ++ codes ":") }
{
    let mut prefix = String::new(alloc);
    push_name(&mut prefix, name)?;
    prefix.push_str(":")?;
    Ok(prefix)
}

/// The start of each JSON object, up to the kind.
fn json_prefix(alloc: Global, name: &str) -> Result<String, AllocError>
    ensures { IfOk result (λ prefix. string_bytes prefix ≡ codes "{\"file\":" ++ (json_string name.now ++ codes ",\"kind\":\"")) }
{
    let mut prefix = String::from_str(alloc, "{\"file\":")?;
    push_json_string(&mut prefix, name)?;
    prefix.push_str(",\"kind\":\"")?;
    Ok(prefix)
}

/// The start of each annotation, up to the line.
fn github_prefix(alloc: Global, name: &str) -> Result<String, AllocError>
    ensures { IfOk result (λ prefix. string_bytes prefix ≡ codes "::error file=" ++ (property name.now ++ codes ",line=")) }
{
    let mut prefix = String::from_str(alloc, "::error file=")?;
    push_property(&mut prefix, name)?;
    prefix.push_str(",line=")?;
    Ok(prefix)
}

/// What is between a result's message and its line.
fn sarif_prefix(alloc: Global, name: &str) -> Result<String, AllocError>
    ensures { IfOk result (λ prefix. string_bytes prefix ≡ sarif.sarif_prefix name.now) }
{
    let mut prefix = String::from_str(
        alloc,
        "},\"locations\":[{\"physicalLocation\":{\"artifactLocation\":{\"uri\":\"",
    )?;
    push_uri(&mut prefix, name)?;
    prefix.push_str("\"},\"region\":{\"startLine\":")?;
    Ok(prefix)
}

/// What each line begins with, by the form and the text's name.
#[tactic(auto, unfolding(crate::specs::Reporting::Reports::prefix_of))]
fn prefix(alloc: Global, form: Form, name: &str) -> Result<String, AllocError>
    ensures { IfOk result (λ prefix. string_bytes prefix ≡ prefix_of form name.now) }
{
    match form {
        Form::Tokens => Ok(String::new(alloc)),
        Form::NamedTokens => named_prefix(alloc, name),
        Form::Json => json_prefix(alloc, name),
        Form::Faults => named_prefix(alloc, name),
        Form::PaintedFaults => named_prefix(alloc, name),
        Form::JsonFaults => json_prefix(alloc, name),
        Form::Github => github_prefix(alloc, name),
        Form::Sarif => sarif_prefix(alloc, name),
    }
}

/// Appends the message of what a check found; where it is about an open bracket, with its place.
#[tactic(auto, unfolding(crate::specs::Reporting::Reports::finding_message))]
fn push_finding_message(
    message: &mut String,
    finding: Finding,
    opening: Position,
) -> Result<(), AllocError>
    ensures { OnOk result (string_bytes message.new ≡ string_bytes message.old ++ finding_message finding opening.place) }
{
    message.push_str(finding.check.message())?;
    if finding.opening == finding.begin {
        return Ok(());
    }
    write!(message, "; the open bracket is at {}", opening.place)
}

/// Appends how many characters more there are, if there are some.
fn push_more_characters(message: &mut String, count: usize) -> Result<(), AllocError>
    ensures { OnOk result (string_bytes message.new ≡ string_bytes message.old ++ more_characters count) }
{
    if count == 0 {
        return Ok(());
    }
    write!(message, " and {count} more")
}

/// Appends the message of characters that begin no token.
#[tactic(auto, unfolding(crate::specs::Reporting::Reports::characters_message))]
fn push_characters_message(message: &mut String, characters: &str) -> Result<(), AllocError>
    ensures { OnOk result (string_bytes message.new ≡ string_bytes message.old ++ characters_message characters.now) }
{
    let len = boundary_from(characters, MESSAGE_LEN);
    message.push_str("invalid input `")?;
    message.push_str(&characters[..len])?;
    message.push_str("`")?;
    push_more_characters(message, count_starts(&characters.as_bytes()[len..]))
}

impl<'t> Reporter<'t> {
    /// A maker of lines for a text of a name, in a style.
    pub fn new(
        alloc: Global,
        style: Style<'t>,
        name: &str,
        text: &'t str,
    ) -> Result<Reporter<'t>, AllocError>
        ensures ready { IfOk result IsReady }
        ensures style { IfOk result (λ reporter. reporter.style ≡ style.entry) }
        ensures text { IfOk result (λ reporter. reporter.text.now ≡ text.now) }
        ensures prefix { IfOk result (λ reporter. string_bytes reporter.prefix ≡ prefix_of style.entry.form name.now) }
    {
        let prefix = prefix(alloc, style.form, name)?;
        let known_positions = KnownPositions::new(alloc, text);
        let byte_columns = ByteColumns::new(alloc, text);
        Ok(Reporter {
            style,
            text,
            prefix,
            lines: String::new(alloc),
            message: String::new(alloc),
            here: Position::START,
            before_fault: Position::START,
            known_positions,
            byte_columns,
        })
    }

    /// Makes the lines of a token: none where the form has only faults.
    pub fn token(&mut self, begin: usize, token: &Token, end: usize) -> Result<(), AllocError>
        requires ready { IsReady self.old }
        requires begin { IsCharBoundary self.old.text.now begin }
        requires end { IsCharBoundary self.old.text.now end }
        requires order { begin ≤ end }
        ensures ready { OnOk result (IsReady self.new) }
        ensures kept { OnOk result (Keeps self.old self.new) }
        ensures lines { OnOk result (string_bytes self.new.lines ≡ token_report self.old.style.form (string_bytes self.old.prefix)
            (position_at self.old.text.now begin) (position_at self.old.text.now end) (token_view token.now)) }
    {
        self.lines.clear();
        if self.style.form.has_only_faults() {
            return Ok(());
        }
        let begin = Position::nearest(self.here, self.before_fault, self.text, begin);
        let end = begin.moved(self.text, end);
        self.here = end;
        push_token(
            &mut self.lines,
            self.style.form,
            self.prefix.as_str(),
            begin,
            end,
            token,
        )
    }

    /// A position of the text, with its column counted as the style says.
    fn counted(&mut self, position: Position) -> Result<Position, AllocError>
        requires ready { IsReady self.old }
        requires position { IsPosition self.old.text.now position }
        ensures ready { OnOk result (IsReady self.new) }
        ensures kept { OnOk result (Keeps self.old self.new) }
        ensures value { IfOk result (λ counted. counted ≡ position_in self.old.style.columns self.old.text.now position.at) }
    {
        let ResolvedPos { line, column } = position.place;
        let column = match self.style.columns {
            Columns::Characters => column,
            Columns::Bytes => self.byte_columns.column(position.at)?,
            Columns::Utf16 => column.saturating_add(position.pairs),
        };
        Ok(Position {
            place: ResolvedPos { line, column },
            ..position
        })
    }

    /// Makes the lines of a fault.
    pub fn fault(&mut self, span: Span, kind: &ErrorKind) -> Result<(), AllocError>
        requires ready { IsReady self.old }
        requires begin { IsCharBoundary self.old.text.now span.begin }
        requires end { IsCharBoundary self.old.text.now span.end }
        ensures ready { OnOk result (IsReady self.new) }
        ensures kept { OnOk result (Keeps self.old self.new) }
        ensures lines { OnOk result (string_bytes self.new.lines ≡ fault_report self.old.style.form self.old.style.side (string_bytes self.old.prefix) self.old.text.now
            (position_in self.old.style.columns self.old.text.now (shown_at self.old.text.now (shown_of_kind kind.now) span.begin span.end))
            (position_in self.old.style.columns self.old.text.now span.begin) (position_in self.old.style.columns self.old.text.now span.end) (code_of_kind kind.now) (kind_text kind.now) (help_of_kind kind.now)) }
    {
        let begin = span.begin().get() as usize;
        let begin = Position::nearest(self.here, self.before_fault, self.text, begin);
        let end = begin.moved(self.text, span.end().get() as usize);
        let shown = shown_position(self.text, kind, begin, end);
        self.before_fault = self.here;
        self.here = end;
        let begin = self.counted(begin)?;
        let end = self.counted(end)?;
        let shown = self.counted(shown)?;
        self.message.clear();
        write!(self.message, "{kind}")?;
        self.lines.clear();
        push_fault(
            &mut self.lines,
            self.style.form,
            self.style.side,
            self.prefix.as_str(),
            self.text,
            Fault {
                begin,
                end,
                shown,
                code: code_of(kind),
                message: self.message.as_str(),
                help: help_of(kind),
            },
        )
    }

    /// Makes the lines of characters that begin no token.
    #[tactic(auto, unfolding(crate::specs::Reporting::Reports::characters_report, starlark_token::specs::FaultCodes::fault_code))]
    pub fn characters(&mut self, run: InvalidRun) -> Result<(), AllocError>
        requires ready { IsReady self.old }
        requires begin { IsCharBoundary self.old.text.now run.begin }
        requires end { IsCharBoundary self.old.text.now run.end }
        requires order { run.begin ≤ run.end }
        ensures ready { OnOk result (IsReady self.new) }
        ensures kept { OnOk result (Keeps self.old self.new) }
        ensures lines { OnOk result (string_bytes self.new.lines ≡ characters_report self.old.style (string_bytes self.old.prefix) self.old.text.now run.begin run.end) }
    {
        let begin = Position::nearest(self.here, self.before_fault, self.text, run.begin);
        let end = begin.moved(self.text, run.end);
        let characters = &self.text[run.begin..run.end];
        self.here = end;
        self.before_fault = end;
        let begin = self.counted(begin)?;
        let end = self.counted(end)?;
        self.message.clear();
        push_characters_message(&mut self.message, characters)?;
        self.lines.clear();
        push_fault(
            &mut self.lines,
            self.style.form,
            self.style.side,
            self.prefix.as_str(),
            self.text,
            Fault {
                begin,
                end,
                shown: begin,
                code: CHARACTERS_CODE,
                message: self.message.as_str(),
                help: help_of_input(characters),
            },
        )
    }

    /// The position at a byte, or at the first one after it where a character begins.
    fn position_from(&mut self, at: usize) -> Result<Position, AllocError>
        requires ready { IsReady self.old }
        ensures ready { OnOk result (IsReady self.new) }
        ensures kept { OnOk result (Keeps self.old self.new) }
        ensures value { IfOk result (λ position. position.at ≡ boundary_from self.old.text.now at) }
        ensures position { IfOk result (λ position. IsPosition self.old.text.now position) }
    {
        let begin = boundary_from(self.text, at);
        if begin < self.here.at {
            return self.known_positions.position_from(at);
        }
        Ok(self.here.moved(self.text, begin))
    }

    /// Makes the lines of what a check found.
    #[tactic(auto, unfolding(crate::specs::Reporting::Reports::finding_report))]
    pub fn finding(&mut self, finding: Finding) -> Result<(), AllocError>
        requires ready { IsReady self.old }
        ensures ready { OnOk result (IsReady self.new) }
        ensures kept { OnOk result (Keeps self.old self.new) }
        ensures lines { OnOk result (string_bytes self.new.lines ≡ finding_report self.old.style (string_bytes self.old.prefix) self.old.text.now finding) }
    {
        let begin = self.position_from(finding.begin)?;
        let end = self.position_from(finding.end)?;
        let opening = self.position_from(finding.opening)?;
        self.here = end;
        let begin = self.counted(begin)?;
        let end = self.counted(end)?;
        let opening = self.counted(opening)?;
        self.message.clear();
        push_finding_message(&mut self.message, finding, opening)?;
        self.lines.clear();
        push_fault(
            &mut self.lines,
            self.style.form,
            self.style.side,
            self.prefix.as_str(),
            self.text,
            Fault {
                begin,
                end,
                shown: begin,
                code: finding.check.code(),
                message: self.message.as_str(),
                help: help_of_check(finding.check),
            },
        )
    }

    /// Makes no line for a fault that isn't shown.
    pub fn hide(&mut self)
        requires ready { IsReady self.old }
        ensures ready { IsReady self.new }
        ensures kept { Keeps self.old self.new }
        ensures lines { string_bytes self.new.lines ≡ [] }
    {
        self.lines.clear();
    }

    /// Makes the line that counts the faults which aren't shown, if there are some.
    #[tactic(auto, unfolding(crate::specs::Reporting::Reports::rest_report))]
    pub fn rest(&mut self, hidden: usize) -> Result<(), AllocError>
        ensures { OnOk result (string_bytes self.new.lines ≡ rest_report self.old.style.form (string_bytes self.old.prefix) hidden) }
    {
        self.lines.clear();
        if hidden == 0 {
            return Ok(());
        }
        if !self.style.form.shows_faults() {
            return Ok(());
        }
        self.lines.push_str(self.prefix.as_str())?;
        write!(
            self.lines,
            " faults not shown: {hidden}; --max-faults 0 shows all\n"
        )
    }
}
