//! Lexes a text lexeme by lexeme: the first bytes of a lexeme tell how it is passed.

ghost use Rattle.std.specs.Prelude.{◌≡◌, ◌≢◌, ◌<◌, ◌≤◌, ◌+◌, ◌-◌, ◌*◌, ◌^◌, ◌||◌, ℕ, List, Err, None, Ok, Some, length, string_bytes, true, false, IfErr, IfOk, IsSome, OnOk};
ghost use Rattle.std.specs.Option.{is_some};
ghost use Rattle.std.specs.Str.{IsCharBoundary};
ghost use Rattle.starlark_grammar.specs.Margins.{open_widths};
ghost use Rattle.starlark_grammar.specs.Tokens.{Fault, Spanned};
ghost use Rattle.starlark_grammar.specs.Words.{Text};
ghost use Rattle.starlark_grammar.specs.declared.class.LiteralKind.TheVariants as literal;
ghost use Rattle.starlark_reader.specs.Inner.Lookaheads.{is_slow, most_peeked};
ghost use Rattle.starlark_reader.specs.Inner.Pending.{IsIdle, IsPendingToken, IsPending};
ghost use Rattle.starlark_reader.specs.Inner.ReadBounds.{HasRead};
ghost use Rattle.starlark_reader.specs.Inner.Reader.{IsAtCode, IsAtEnd, IsInCode, IsTokenOf, Line};
ghost use Rattle.starlark_lexemes.specs.Inner.LexerStates.{Course, HasAdvanced, HasAnswered, HasFound, HasPassed, HasPassedNext, HasTakenLast, HasThrown, IsAtFault, IsAtLiteral, IsAtText, IsAtWord, IsAtWordless, IsBegun, IsCourse, IsItemOf, IsLexing, IsLexingIn, IsQuoteOf, IsReadNext, IsTakenNext, IsTakenOf, IsUnnamed, KeepsOpen, course_of, course_past, course_quoted, has_fault, is_out_of_memory, passed_count, passed_of, taken_count, thrown_count, view_of, whole};
ghost use Rattle.starlark_reader.specs.Inner.Nesting.{bracket_count};
ghost use Rattle.starlark_lexemes.specs.Lexer.{is_ended_by, most_reads, yielded_by};
ghost use Rattle.starlark_lexemes.specs.Inner.RawItems.{OffsetsHold};
ghost use Rattle.starlark_lexemes.specs.PlainLexemes.{IsPlainIn, is_plain, plain_value, token_of};
ghost use Rattle.starlark_token.specs.Lexemes.{IsWithin};
ghost use Rattle.starlark_token.specs.TokenViews.{Whole, token_view};

use crate::lexemes::Lexeme;
use crate::passed::{Kind, Passed};
use starlark_base::codemap::{CodeMap, OrMemory};
use starlark_errors::eval_exception::EvalException;
use starlark_errors::fault_exception::exception;
use starlark_reader::nesting::LexerMode;
use starlark_reader::own_token;
use starlark_reader::reader::{Before, Reader, Stage, TakenLineEnd};
use starlark_token::lexeme_error::LexemeError;
use starlark_token::tokens::Token;
use starlark_words::scanner::{Class, LiteralKind, Quote, Terminal, Word};
use std::alloc::{AllocError, Global};
use std::mem;

/// The state of lexing a text, which all lexers and `LexedText` share.
///
/// It passes the lexemes of the text one by one, and then its fault. Any error ends it.
// In this order for the reason that `Reader` has one.
#[derive(Drop)]
pub struct LexerState<'a> {
    /// Number of lexemes, and faults, that were passed so far.
    pub yielded_count: usize,
    /// Whether what comes next is in code, and no lexeme is pending.
    is_at_code: bool,
    /// Whether an error has ended the lexer.
    pub has_ended: bool,
    /// What reads the text, and where it is.
    pub reader: Reader<'a>,
    /// Where the lexeme that was passed last begins and ends, and its value if that is a part of the
    /// text.
    begin: usize,
    end: usize,
    value_begin: usize,
    value_end: usize,
    /// The token of the lexeme that was passed last, if it was made.
    token: Token,
    alloc: Global,
}

/// The kind of a token that was pending.
#[tactic(auto, unfolding(starlark_token::specs::TokenViews::token_view))]
#[inline(always)]
fn pending_kind(token: &Token) -> Kind
    requires { IsPendingToken (token_view token.now) }
    ensures plain { is_plain result ≡ true }
    ensures token { (value : Text) → token_view token.now ≡ Whole (token_of result value) }
{
    match token {
        Token::Indent => Kind::Indent,
        Token::Dedent => Kind::Dedent,
        Token::FStringExprStart => Kind::FStringExprStart,
        _ => Kind::FStringEnd,
    }
}

/// The kind of a `}`, whose token is dropped.
#[tactic(auto, unfolding(starlark_token::specs::TokenViews::token_view))]
#[inline(always)]
fn closing_curly_kind(token: Token) -> Kind
    requires { IsTokenOf Terminal.ClosingCurly (token_view token) }
    ensures plain { is_plain result ≡ true }
    ensures token { (value : Text) → token_view token ≡ Whole (token_of result value) }
{
    match token {
        Token::FStringExprEnd => Kind::FStringExprEnd,
        _ => Kind::Word(Terminal::ClosingCurly),
    }
}

/// Whether code comes after a `}`: only the depth in brackets can have changed it.
#[inline(always)]
fn stays_in_code(reader: &Reader<'_>) -> bool
    ensures { result ≡ true → IsInCode reader.now }
{
    !matches!(reader.nesting.mode(), LexerMode::InText(_))
}

/// Whether code comes after any lexeme, and no lexeme is pending.
#[inline(always)]
fn is_at_code(reader: &Reader<'_>) -> bool
    ensures { result ≡ true → (text : Text) → IsPending text reader.now.pending → IsAtCode text reader.now }
{
    reader.pending.is_nothing() && matches!(reader.stage, Stage::Onward) && stays_in_code(reader)
}

impl<'a> LexerState<'a> {
    /// Lexing that begins at the start of a text. It doesn't allocate.
    pub fn new(alloc: Global, text: &'a str) -> LexerState<'a>
        requires { length text.now < 2 ^ 32 }
        ensures lexing { IsLexing (whole result.reader.text.now) result }
        ensures begun { IsBegun text.now result }
    {
        LexerState {
            alloc,
            reader: Reader::new(alloc, text),
            yielded_count: 0,
            has_ended: false,
            is_at_code: false,
            begin: 0,
            end: 0,
            value_begin: 0,
            value_end: 0,
            token: Token::Newline,
        }
    }

    /// Begins anew at the start of another text, which is a line's. Blocks stay open, and brackets and
    /// f-strings are forgotten. Lexemes are counted anew.
    pub fn begin_line(&mut self, text: &'a str)
        ensures lexing { (widths : List ℕ) → self.old.reader.levels ≡ open_widths widths → IsCourse (course_of (Line widths) text.now) text.now → IsLexingIn (course_of (Line widths) text.now) text.now self.new }
        ensures begun { view_of self.new ≡ record { text = text.now; yielded_count = 0; has_ended = false; reads = 0 } }
    {
        self.yielded_count = 0;
        self.has_ended = false;
        self.is_at_code = false;
        self.reader.begin_line(text);
    }

    /// Ends lexing where memory runs out.
    #[inline(always)]
    fn run_out(&mut self) -> Kind
        ensures { (result ≡ Kind.OutOfMemory) × (self.new ≡ record self.old { has_ended = true; is_at_code = false }) }
    {
        self.has_ended = true;
        self.is_at_code = false;
        Kind::OutOfMemory
    }

    /// Takes over a lexeme that the reader took here. Out of memory ends the lexer.
    #[inline(always)]
    fn put_taken(
        &mut self,
        taken: Result<(usize, Token, usize), AllocError>,
        is_at_code: bool,
    ) -> Kind
        requires taken { (course : Course) × IsTakenNext course self.old taken }
        requires read { OnOk taken (HasRead self.old.reader.text.now self.old.reader) }
        requires code { OnOk taken (is_at_code ≡ true → IsAtCode self.old.reader.text.now self.old.reader) }
        ensures { (course : Course) → IsTakenNext course self.old taken → HasPassedNext course self.old (passed_of self.new result) self.new }
    {
        let Ok((begin, token, end)) = taken else {
            return self.run_out();
        };
        self.yielded_count += 1;
        self.is_at_code = is_at_code;
        self.begin = begin;
        self.end = end;
        self.token = token;
        Kind::Made
    }

    /// Takes over what the reader read here: a lexeme, or nothing at a fault and at the text's end. Out of
    /// memory ends the lexer.
    #[inline(always)]
    fn put_read(&mut self, read: Result<Option<(usize, Token, usize)>, AllocError>) -> Kind
        requires { (course : Course) × IsReadNext course self.old read }
        ensures { (course : Course) → IsReadNext course self.old read → HasPassedNext course self.old (passed_of self.new result) self.new }
    {
        let Some(taken) = read.transpose() else {
            self.is_at_code = false;
            return Kind::Last;
        };
        let is_at_code = is_at_code(&self.reader);
        self.put_taken(taken, is_at_code)
    }

    /// Passes the string or bytes literal whose opener of `len` bytes is here, after which a run of `run`
    /// bytes is known.
    // A call: it needs registers that a literal without escapes doesn't. Not of a `Word`, which goes
    // through memory (0.6 % of short strings).
    #[inline(never)]
    fn pass_literal(
        &mut self,
        kind: LiteralKind,
        is_raw: bool,
        quote: Quote,
        len: usize,
        run: usize,
    ) -> Kind
        requires { (course : Course) × IsAtLiteral course self.old (record { class = Class.Opener kind is_raw quote; len = len }) run }
        ensures { (course : Course) → IsAtLiteral course self.old (record { class = Class.Opener kind is_raw quote; len = len }) run → HasPassedNext course self.old (passed_of self.new result) self.new }
    {
        let read = self.reader.read_literal(kind, is_raw, quote, len, run);
        self.put_read(read)
    }

    /// Passes the bytes literal whose opener of `len` bytes is here.
    #[inline(always)]
    fn pass_bytes(&mut self, is_raw: bool, quote: Quote, len: usize) -> Kind
        requires { (course : Course) × IsAtWord course self.old (record { class = Class.Opener literal.Bytes is_raw quote; len = len }) (5 * len - 2) }
        ensures { (course : Course) → IsAtWord course self.old (record { class = Class.Opener literal.Bytes is_raw quote; len = len }) (5 * len - 2) → HasPassedNext course self.old (passed_of self.new result) self.new }
    {
        match self
            .reader
            .plain_body_len(LiteralKind::Bytes, is_raw, quote, len)
        {
            Ok(body) => {
                let taken = self.reader.take_plain_bytes(is_raw, quote, len, body);
                self.put_taken(taken, true)
            }
            Err(run) => self.pass_literal(LiteralKind::Bytes, is_raw, quote, len, run),
        }
    }

    /// Passes the word here, of which only the whole tells what it is: the start of an f-string, a
    /// bytes literal, or a number; or stops at the fault that it is.
    // A call: in line it costs each lexeme. Not of a `Word`: each lexeme zeroes memory for it (1.6 %).
    #[inline(never)]
    fn pass_word(&mut self, class: Class, len: usize) -> Kind
        requires here { (course : Course) × IsAtWord course self.old (record { class = class; len = len }) (most_peeked (record { class = class; len = len })) }
        requires slow { is_slow class ≡ true }
        ensures { (course : Course) → IsAtWord course self.old (record { class = class; len = len }) (most_peeked (record { class = class; len = len })) → HasPassedNext course self.old (passed_of self.new result) self.new }
    {
        match class {
            Class::Opener {
                kind: LiteralKind::FString,
                is_raw,
                quote,
            } => {
                let taken = self.reader.take_fstring(is_raw, quote, len);
                self.put_taken(taken, false)
            }
            Class::Opener {
                kind: LiteralKind::Bytes,
                is_raw,
                quote,
            } => self.pass_bytes(is_raw, quote, len),
            _ => {
                let word = Word { class, len };
                if let Some(digit) = self.reader.single_digit(word) {
                    let lexeme = self.reader.take_digit(digit);
                    return self.put_taken(Ok(lexeme), true);
                }
                if self.reader.is_plain_number(word) {
                    let taken = self.reader.take_number(word);
                    return self.put_taken(taken, true);
                }
                let read = self.reader.refuse_word(word);
                self.put_read(read)
            }
        }
    }

    /// Passes what is here, where no word begins: the last `Newline` at the end of the text, or the `!` of
    /// an f-string's expression; or stops at the fault that it is.
    #[inline(always)]
    fn pass_wordless(&mut self) -> Kind
        requires { (course : Course) × IsAtWordless course self.old }
        ensures { (course : Course) → IsAtWordless course self.old → HasPassedNext course self.old (passed_of self.new result) self.new }
    {
        let read = if self.reader.at == self.reader.text.len() {
            Ok(Some(self.reader.close()))
        } else {
            self.reader.read_wordless()
        };
        self.put_read(read)
    }

    /// What was passed last, of a kind.
    #[inline(always)]
    fn passed(&self, kind: Kind) -> Passed
        ensures { result ≡ record { kind = kind; begin = self.now.begin; end = self.now.end; value_begin = self.now.value_begin; value_end = self.now.value_end } }
    {
        Passed {
            kind,
            begin: self.begin,
            end: self.end,
            value_begin: self.value_begin,
            value_end: self.value_end,
        }
    }

    /// Puts a lexeme of a plain kind without a value, between two offsets.
    #[inline(always)]
    fn put_plain(&mut self, kind: Kind, begin: usize, end: usize) -> Kind
        requires { self.old.yielded_count + 1 < 2 ^ 64 }
        ensures { (result ≡ kind) × (self.new ≡ record self.old { yielded_count = self.old.yielded_count + 1; begin = begin; end = end; value_begin = end; value_end = end }) }
    {
        self.put_valued(kind, begin, end, end, end)
    }

    /// Puts a lexeme of a plain kind, whose value is between two offsets.
    #[inline(always)]
    fn put_valued(
        &mut self,
        kind: Kind,
        begin: usize,
        end: usize,
        value_begin: usize,
        value_end: usize,
    ) -> Kind
        requires { self.old.yielded_count + 1 < 2 ^ 64 }
        ensures { (result ≡ kind) × (self.new ≡ record self.old { yielded_count = self.old.yielded_count + 1; begin = begin; end = end; value_begin = value_begin; value_end = value_end }) }
    {
        self.yielded_count += 1;
        self.begin = begin;
        self.end = end;
        self.value_begin = value_begin;
        self.value_end = value_end;
        kind
    }

    /// Passes the first pending comment.
    #[inline(always)]
    fn pass_pending_comment(&mut self) -> Kind
        requires lexing { (course : Course) × IsLexing course self.old }
        requires going { self.old.has_ended ≡ false }
        requires some { self.old.reader.pending.from < self.old.reader.pending.to }
        ensures { (course : Course) → IsLexing course self.old → HasPassedNext course self.old (passed_of self.new result) self.new }
    {
        let reader = &mut self.reader;
        let (begin, end) = reader.pending.pass_comment(&mut reader.reads, reader.text);
        self.is_at_code = is_at_code(&self.reader);
        self.put_valued(Kind::Comment, begin, end, begin + 1, end)
    }

    /// Passes the first pending lexeme, where no comments are pending; `Layout` if none is.
    #[inline(always)]
    fn pass_pending_token(&mut self) -> Kind
        requires lexing { (course : Course) × IsLexing course self.old }
        requires going { self.old.has_ended ≡ false }
        requires none { self.old.reader.pending.to ≤ self.old.reader.pending.from }
        ensures passed { result ≢ Kind.Layout → (course : Course) → IsLexing course self.old → HasPassedNext course self.old (passed_of self.new result) self.new }
        ensures stays { result ≡ Kind.Layout → self.new ≡ self.old }
        ensures idle { result ≡ Kind.Layout → IsIdle self.old.reader.text.now self.old.reader.pending }
    {
        let Some((begin, token, end)) = self.reader.pending.next_token() else {
            return Kind::Layout;
        };
        self.is_at_code = is_at_code(&self.reader);
        self.put_plain(pending_kind(&token), begin, end)
    }

    /// Passes the f-string text here, of which a run of `run` bytes is known, or what ends it if it is
    /// empty.
    #[inline(never)]
    fn pass_decoded_text(&mut self, run: usize) -> Kind
        requires { (course : Course) × IsAtText course self.old run }
        ensures { (course : Course) → IsAtText course self.old run → HasPassedNext course self.old (passed_of self.new result) self.new }
    {
        let read = self.reader.read_text(run);
        self.put_read(read)
    }

    /// Passes the f-string text that comes next, or what ends it if it is empty; `Layout` if code comes
    /// next.
    #[inline(always)]
    fn pass_fstring_text(&mut self) -> Kind
        requires lexing { (course : Course) × IsLexing course self.old }
        requires going { self.old.has_ended ≡ false }
        requires out { self.old.is_at_code ≡ false }
        requires stage { self.old.reader.stage ≡ Stage.Onward }
        requires idle { IsIdle self.old.reader.text.now self.old.reader.pending }
        ensures { (course : Course) → IsLexing course self.old → HasAdvanced course self.old result self.new }
    {
        let found = match self.reader.plain_text() {
            Some(Ok(found)) => found,
            Some(Err(run)) => return self.pass_decoded_text(run),
            None => {
                self.is_at_code = true;
                return Kind::Layout;
            }
        };
        if found.len == 0 {
            let (begin, token, end) = self.reader.take_chunk_end(found);
            self.is_at_code = is_at_code(&self.reader);
            return self.put_plain(pending_kind(&token), begin, end);
        }
        let begin = self.reader.at;
        self.reader.pass_chunk(found);
        let end = begin + found.len;
        self.put_valued(Kind::FStringText, begin, end, begin, end)
    }

    /// Passes what comes next where that isn't known to be code: a pending lexeme, the text of an
    /// f-string, or the first margin. `Layout` where that was a margin, and where code comes next.
    // A kind in a register: a result in memory costs each lexeme.
    #[inline(never)]
    fn advance_outside_code(&mut self) -> Kind
        requires lexing { (course : Course) × IsLexing course self.old }
        requires going { self.old.has_ended ≡ false }
        requires out { self.old.is_at_code ≡ false }
        ensures { (course : Course) → IsLexing course self.old → HasAdvanced course self.old result self.new }
    {
        if self.reader.pending.has_comments() {
            return self.pass_pending_comment();
        }
        match self.pass_pending_token() {
            Kind::Layout => {}
            passed => return passed,
        }
        match self.reader.stage {
            Stage::Begin => {}
            Stage::Onward => return self.pass_fstring_text(),
            _ => return Kind::Last,
        }
        let Ok(()) = self.reader.read_first_margin() else {
            return self.run_out();
        };
        self.is_at_code = is_at_code(&self.reader);
        Kind::Layout
    }

    /// Passes the name of `len` bytes here.
    // Always, as `pass_symbol` and `pass_string`: as plain `inline` these are calls (39 % of a mix).
    #[inline(always)]
    fn pass_name(&mut self, len: usize) -> Passed
        requires { (course : Course) × IsAtWord course self.old (record { class = Class.Identifier; len = len }) (5 * len - 2) }
        ensures { (course : Course) → IsAtWord course self.old (record { class = Class.Identifier; len = len }) (5 * len - 2) → HasPassedNext course self.old result self.new }
    {
        let begin = self.reader.at;
        self.yielded_count += 1;
        self.reader.step_over(len, Before::Other);
        Passed {
            value_begin: begin,
            ..Passed::valueless(Kind::Identifier, begin, self.reader.at)
        }
    }

    /// Passes the `}` of `len` bytes here, which may end an f-string's expression.
    // A call: in line each keyword and symbol tests for an open f-string (1.2 %).
    #[inline(never)]
    fn pass_closing_curly(&mut self, len: usize) -> Kind
        requires { (course : Course) × IsAtWord course self.old (record { class = Class.Fixed Terminal.ClosingCurly; len = len }) (5 * len - 2) }
        ensures { (course : Course) → IsAtWord course self.old (record { class = Class.Fixed Terminal.ClosingCurly; len = len }) (5 * len - 2) → HasPassedNext course self.old (passed_of self.new result) self.new }
    {
        let (begin, token, end) = self.reader.take_terminal(Terminal::ClosingCurly, len);
        self.is_at_code = stays_in_code(&self.reader);
        self.put_plain(closing_curly_kind(token), begin, end)
    }

    /// Passes the keyword or symbol of `len` bytes here, which isn't a `}`.
    #[inline(always)]
    fn pass_symbol(&mut self, terminal: Terminal, len: usize) -> Passed
        requires here { (course : Course) × IsAtWord course self.old (record { class = Class.Fixed terminal; len = len }) (5 * len - 2) }
        requires other { terminal ≢ Terminal.ClosingCurly }
        ensures { (course : Course) → IsAtWord course self.old (record { class = Class.Fixed terminal; len = len }) (5 * len - 2) → HasPassedNext course self.old result self.new }
    {
        let (begin, _token, end) = self.reader.take_terminal(terminal, len);
        self.yielded_count += 1;
        Passed::valueless(Kind::Word(terminal), begin, end)
    }

    /// Passes the string literal whose opener of `len` bytes is here.
    // Always: as a call it costs 3 % of BUILD files.
    #[inline(always)]
    fn pass_string(&mut self, is_raw: bool, quote: Quote, len: usize) -> Passed
        requires { (course : Course) × IsAtWord course self.old (record { class = Class.Opener literal.Text is_raw quote; len = len }) (5 * len - 2) }
        ensures { (course : Course) → IsAtWord course self.old (record { class = Class.Opener literal.Text is_raw quote; len = len }) (5 * len - 2) → HasPassedNext course self.old result self.new }
    {
        let begin = self.reader.at;
        match self
            .reader
            .plain_body_len(LiteralKind::Text, is_raw, quote, len)
        {
            Ok(body) => {
                self.reader.step_over(len + body + 1, Before::Other);
                self.yielded_count += 1;
                let end = self.reader.at;
                Passed {
                    value_begin: begin + len,
                    value_end: end - 1,
                    ..Passed::valueless(Kind::String, begin, end)
                }
            }
            Err(run) => {
                let kind = self.pass_literal(LiteralKind::Text, is_raw, quote, len, run);
                self.passed(kind)
            }
        }
    }

    /// Passes what is here, where the first two bytes tell no word. `Layout` where that has no lexeme.
    // A call: in line it costs each lexeme.
    #[inline(never)]
    fn look_further(&mut self) -> Kind
        requires { (course : Course) × IsUnnamed course self.old }
        ensures { (course : Course) → IsUnnamed course self.old → HasAdvanced course self.old result self.new }
    {
        let Some(word) = self.reader.unnamed_word() else {
            return self.pass_wordless();
        };
        match word.class {
            Class::Skipped => {
                self.reader.step_over(word.len, Before::Gap);
                Kind::Layout
            }
            Class::Comment => {
                let begin = self.reader.at;
                self.reader.step_over(word.len, Before::Other);
                let end = self.reader.at;
                self.put_valued(Kind::Comment, begin, end, begin + 1, end)
            }
            _ => self.pass_word(word.class, word.len),
        }
    }

    /// Passes the next lexeme, or tells why it passes none. It never returns `Layout`.
    #[inline(always)]
    pub(crate) fn advance(&mut self) -> Passed
        requires { (course : Course) × IsLexing course self.old }
        ensures ended { self.old.has_ended ≡ true → (result.kind ≡ Kind.Last) × (self.new ≡ self.old) }
        ensures passed { self.old.has_ended ≡ false → (course : Course) → IsLexing course self.old → HasPassed course self.old result self.new }
        ensures lexing { (course : Course) → IsLexing course self.old → IsLexing course self.new }
        ensures after { view_of self.new ≡ record (view_of self.old) { yielded_count = self.old.yielded_count + passed_count result.kind; has_ended = self.old.has_ended || is_out_of_memory result.kind; reads = self.new.reader.reads } }
    {
        loop {
            if !self.is_at_code {
                if self.has_ended {
                    return self.passed(Kind::Last);
                }
                match self.advance_outside_code() {
                    Kind::Layout => continue,
                    kind => return self.passed(kind),
                }
            }
            let Some(Word { class, len }) = self.reader.common_word() else {
                match self.look_further() {
                    Kind::Layout => continue,
                    kind => return self.passed(kind),
                }
            };
            match class {
                Class::Identifier => return self.pass_name(len),
                Class::Fixed(Terminal::ClosingCurly) => {
                    let kind = self.pass_closing_curly(len);
                    return self.passed(kind);
                }
                Class::Fixed(terminal) => return self.pass_symbol(terminal, len),
                Class::LineEnd => {
                    let begin = self.reader.at;
                    let Ok(line_end) = self.reader.take_line_end(len) else {
                        let kind = self.run_out();
                        return self.passed(kind);
                    };
                    match line_end {
                        TakenLineEnd::Passed => continue,
                        TakenLineEnd::Fault => {
                            self.is_at_code = false;
                            return self.passed(Kind::Last);
                        }
                        TakenLineEnd::Pending => self.is_at_code = false,
                        TakenLineEnd::Newline => {}
                    }
                    self.yielded_count += 1;
                    return Passed::valueless(Kind::Newline, begin, begin + len);
                }
                Class::Opener {
                    kind: LiteralKind::Text,
                    is_raw,
                    quote,
                } => return self.pass_string(is_raw, quote, len),
                Class::Skipped => self.reader.step_over(len, Before::Gap),
                _ => {
                    let kind = self.pass_word(class, len);
                    return self.passed(kind);
                }
            }
        }
    }

    /// A copy of the value of a plain lexeme that was passed. Out of memory, which is the error, ends the
    /// lexer.
    #[inline(always)]
    fn copied(&mut self, passed: Passed) -> Result<String, Kind>
        requires within { IsPlainIn self.old.reader.text.now passed }
        requires counted { 0 < self.old.yielded_count }
        ensures value { IfOk result (λ value. (string_bytes value ≡ plain_value self.old.reader.text.now passed) × (self.new ≡ self.old)) }
        ensures memory { IfErr result (λ it. (it ≡ Kind.OutOfMemory) × (self.new ≡ record self.old { yielded_count = self.old.yielded_count - 1; has_ended = true; is_at_code = false })) }
    {
        let text = self.reader.text;
        match String::from_str(self.alloc, &text[passed.value_begin..passed.value_end]) {
            Ok(value) => Ok(value),
            Err(_) => {
                self.yielded_count -= 1;
                Err(self.run_out())
            }
        }
    }

    /// The token of what was passed last, which is taken once. The error is why there is none.
    // One `match`, an arm for each kind: so what passes a kind goes on in its arm (4 % of a mix).
    #[inline(always)]
    pub(crate) fn take(&mut self, passed: Passed) -> Result<Token, Kind>
        requires within { is_plain passed.kind ≡ true → IsPlainIn self.old.reader.text.now passed }
        requires counted { is_plain passed.kind ≡ true → 0 < self.old.yielded_count }
        ensures { IsTakenOf self.old passed result self.new }
    {
        match passed.kind {
            Kind::Word(terminal) => Ok(own_token(terminal)),
            Kind::Identifier => Ok(Token::Identifier(self.copied(passed)?)),
            Kind::String => Ok(Token::String(self.copied(passed)?)),
            Kind::FStringText => Ok(Token::FStringText(self.copied(passed)?)),
            Kind::Comment => Ok(Token::Comment(self.copied(passed)?)),
            Kind::Newline => Ok(Token::Newline),
            Kind::Indent => Ok(Token::Indent),
            Kind::Dedent => Ok(Token::Dedent),
            Kind::FStringExprStart => Ok(Token::FStringExprStart),
            Kind::FStringExprEnd => Ok(Token::FStringExprEnd),
            Kind::FStringEnd => Ok(Token::FStringEnd),
            Kind::Made => Ok(mem::replace(&mut self.token, Token::Newline)),
            Kind::Layout | Kind::Last | Kind::OutOfMemory => Err(passed.kind),
        }
    }

    /// The item of what was passed last: a lexeme, out of memory, or none.
    #[inline(always)]
    pub(crate) fn item(&mut self, passed: Passed) -> Option<Lexeme>
        requires within { is_plain passed.kind ≡ true → IsPlainIn self.old.reader.text.now passed }
        requires counted { is_plain passed.kind ≡ true → 0 < self.old.yielded_count }
        ensures { IsItemOf self.old passed result self.new }
    {
        match self.take(passed) {
            Ok(token) => Some(Ok((passed.begin, token, passed.end))),
            Err(Kind::OutOfMemory) => Some(Err(OrMemory::Memory)),
            Err(_) => None,
        }
    }

    /// The item of what was passed last, which isn't plain: a lexeme, out of memory, or none.
    // No arm for a plain kind: with the copies of their values a step is too large to be inlined twice.
    #[inline(always)]
    pub(crate) fn made_item(&mut self, passed: Passed) -> Option<Lexeme>
        requires { is_plain passed.kind ≡ false }
        ensures { IsItemOf self.old passed result self.new }
    {
        match passed.kind {
            Kind::Made => {
                let token = mem::replace(&mut self.token, Token::Newline);
                Some(Ok((passed.begin, token, passed.end)))
            }
            Kind::OutOfMemory => Some(Err(OrMemory::Memory)),
            _ => None,
        }
    }

    /// The next lexeme, or out of memory in its place; `None` after all, and after any error. No result
    /// is the fault: after `None`, `take_fault` returns it.
    #[inline(always)]
    pub fn next(&mut self) -> Option<Lexeme>
        requires { (course : Course) × IsLexing course self.old }
        ensures ended { self.old.has_ended ≡ true → (result ≡ None) × (self.new ≡ self.old) }
        ensures answer { self.old.has_ended ≡ false → (course : Course) → IsLexing course self.old → HasAnswered course self.old result self.new }
        ensures lexing { (course : Course) → IsLexing course self.old → IsLexing course self.new }
        ensures after { view_of self.new ≡ record (view_of self.old) { yielded_count = self.old.yielded_count + yielded_by result; has_ended = self.old.has_ended || is_ended_by result; reads = self.new.reader.reads } }
    {
        let passed = self.advance();
        self.item(passed)
    }

    /// The next lexeme, and after the last one the fault, between two offsets, if the text has one; out of
    /// memory in the place of either. `None` after all, and after any error.
    #[inline(always)]
    pub fn next_item(
        &mut self,
    ) -> Option<Result<(usize, Token, usize), OrMemory<(usize, LexemeError, usize)>>>
        requires lexing { (course : Course) × IsLexing course self.old }
        ensures ended { self.old.has_ended ≡ true → (result ≡ None) × (self.new ≡ self.old) }
        ensures found { self.old.has_ended ≡ false → (course : Course) → IsLexing course self.old → HasFound course self.old.reader.text.now self.old result self.new }
        ensures lexing { (course : Course) → IsLexing course self.old → IsLexing course self.new }
        ensures within { OffsetsHold (IsWithin self.old.reader.text.now) result }
        ensures between { OffsetsHold (λ from to. IsCharBoundary self.old.reader.text.now from × IsCharBoundary self.old.reader.text.now to) result }
        ensures after { view_of self.new ≡ record (view_of self.old) { yielded_count = self.old.yielded_count + yielded_by result; has_ended = self.old.has_ended || is_ended_by result; reads = self.new.reader.reads } }
    {
        match self.next() {
            Some(Ok(lexeme)) => Some(Ok(lexeme)),
            Some(Err(_)) => Some(Err(OrMemory::Memory)),
            None => Some(Err(OrMemory::Error(self.take_fault()?))),
        }
    }

    /// Goes on at byte `end` after the fault that was taken: all that was open stays open. Lexemes are
    /// counted anew. `looked` reads, and one more, found that byte.
    pub fn go_on(&mut self, end: usize, looked: usize)
        requires fits { end < 2 ^ 32 }
        requires few { looked < 2 ^ 64 - 1 }
        ensures lexing { (course : Course) (text : Text) (fault : Spanned Fault) → IsAtFault course text fault self.old → KeepsOpen course text fault end (self.old.reader.reads + looked + 1) → IsCourse (course_past course end text) text → IsLexingIn (course_past course end text) text self.new }
        ensures count { self.new.yielded_count ≡ 0 }
        ensures going { self.new.has_ended ≡ false }
        ensures text { self.new.reader.text ≡ self.old.reader.text }
    {
        self.yielded_count = 0;
        self.has_ended = false;
        self.is_at_code = false;
        self.reader.go_on(end, looked);
    }

    /// Goes on after the open quote that was taken, by its bytes, at the start of another text: the one
    /// from its line end on. Its brackets count, and all else stays open. Lexemes are counted anew.
    pub fn go_on_after_quote(&mut self, quote: &[u8], text: &'a str)
        requires room { bracket_count self.old.reader.nesting + length quote.now + length text.now < 2 ^ 33 }
        ensures lexing { (course : Course) (whole : Text) (fault : Spanned Fault) → IsAtFault course whole fault self.old → IsQuoteOf course whole fault quote.now text.now → IsCourse (course_quoted course whole quote.now text.now) text.now →
            IsLexingIn (course_quoted course whole quote.now text.now) text.now self.new }
        ensures begun { view_of self.new ≡ record { text = text.now; yielded_count = 0; has_ended = false; reads = 0 } }
    {
        self.yielded_count = 0;
        self.has_ended = false;
        self.is_at_code = false;
        self.reader.go_on_after_quote(quote, text);
    }

    /// Whether a fault is left after the last lexeme.
    #[inline(always)]
    pub(crate) fn has_fault(&self) -> bool
        ensures { result ≡ has_fault self.now }
    {
        !self.has_ended && matches!(self.reader.stage, Stage::Fault { .. })
    }

    /// The fault after the last lexeme, between two offsets, if one is left. It ends the lexer.
    pub fn take_fault(&mut self) -> Option<(usize, LexemeError, usize)>
        requires lexing { (course : Course) × IsLexing course self.old }
        requires end { self.old.has_ended ≡ false → IsAtEnd self.old.reader.text.now self.old.reader }
        ensures ended { self.old.has_ended ≡ true → (result ≡ None) × (self.new ≡ self.old) }
        ensures last { self.old.has_ended ≡ false → (course : Course) → IsLexing course self.old → HasTakenLast course self.old result self.new }
        ensures some { IsSome result → has_fault self.old ≡ true }
        ensures lexing { (course : Course) → IsLexing course self.old → IsLexing course self.new }
        ensures after { view_of self.new ≡ record (view_of self.old) { yielded_count = self.old.yielded_count + taken_count result; has_ended = self.old.has_ended || is_some result; reads = self.new.reader.reads } }
    {
        if self.has_ended {
            return None;
        }
        self.is_at_code = false;
        let fault = self.reader.take_fault()?;
        self.yielded_count += 1;
        self.has_ended = true;
        Some(fault)
    }

    /// The exception of the fault that is left after the last lexeme, or out of memory in its place.
    /// Either ends the lexer.
    // A call that returns two registers: an item that it returns costs each lexeme 15 instructions.
    #[inline(never)]
    pub(crate) fn take_exception(&mut self, code_map: &CodeMap) -> OrMemory<EvalException>
        requires lexing { (course : Course) × IsLexing course self.old }
        requires fault { has_fault self.old ≡ true }
        requires end { IsAtEnd self.old.reader.text.now self.old.reader }
        ensures thrown { (course : Course) → IsLexing course self.old → HasThrown course code_map.now self.old result self.new }
        ensures lexing { (course : Course) → IsLexing course self.old → IsLexing course self.new }
        ensures after { view_of self.new ≡ record (view_of self.old) { yielded_count = self.old.yielded_count + thrown_count result; has_ended = true; reads = self.new.reader.reads } }
    {
        let Some((begin, fault, end)) = self.take_fault() else {
            return OrMemory::Memory;
        };
        match exception(self.alloc, begin, fault, end, code_map) {
            Ok(exception) => OrMemory::Error(exception),
            Err(_) => {
                self.yielded_count -= 1;
                OrMemory::Memory
            }
        }
    }

    /// Counts reads of `len` other bytes if those so far leave room for them. Returns whether they do.
    pub fn count_others(&mut self, len: usize) -> bool
        requires fits { len < 2 ^ 32 }
        requires lexing { (course : Course) × IsLexing course self.old }
        requires going { self.old.has_ended ≡ false }
        ensures lexing { (course : Course) → IsLexing course self.old → IsLexing course self.new }
        ensures after { view_of self.new ≡ record (view_of self.old) { reads = self.new.reader.reads } }
        ensures counted { result ≡ true → self.old.reader.reads + len < self.new.reader.reads }
        ensures most { result ≡ true → self.new.reader.reads ≤ most_reads self.old.reader.text.now }
    {
        self.reader.count_others(len)
    }
}
