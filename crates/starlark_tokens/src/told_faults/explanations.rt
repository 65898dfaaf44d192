//! What the codes of faults mean, and how to mend each.

ghost use Rattle.std.specs.List.{starts_with};
ghost use Rattle.std.specs.Prelude.{◌++◌, IfSome, IsTrue, codes, nat_eq};

/// What a code means, with an example and how to mend it; `None` where no fault has it.
pub fn explanation(code: &str) -> Option<&'static str>
    ensures { IfSome result (λ text. IsTrue (starts_with nat_eq text.now (code.now ++ codes ": "))) }
{
    match code {
        "SL001" => Some(INDENTATION),
        "SL002" => Some(INVALID_INPUT),
        "SL003" => Some(INVALID_TAB),
        "SL004" => Some(UNFINISHED_STRING_LITERAL),
        "SL005" => Some(INVALID_ESCAPE_SEQUENCE),
        "SL006" => Some(EMPTY_ESCAPE_SEQUENCE),
        "SL007" => Some(RESERVED_KEYWORD),
        "SL008" => Some(STARTS_ZERO),
        "SL009" => Some(UNFINISHED_FSTRING_EXPRESSION),
        "SL101" => Some(NEVER_CLOSED),
        "SL102" => Some(CLOSES_NOTHING),
        "SL103" => Some(CLOSES_ANOTHER),
        "SL104" => Some(NUMBER_BEFORE_WORD),
        "SL105" => Some(MERGE_MARKER),
        "SL106" => Some(FSTRING_LINE_END),
        _ => None,
    }
}

const INDENTATION: &str = "\
SL001: incorrect indentation

    if debug:
        level = 2
      trace = True

A line closes a block, but its indentation is that of no block which is open. Indent it as the block
that it belongs to.
";

const INVALID_INPUT: &str = "\
SL002: invalid input

    size = big ? 2 : 1

The text begins no token: `?`, `$`, a lone `!` and characters outside of ASCII have no meaning outside
of strings and comments. Remove it, or write what Starlark has for it: `size = 2 if big else 1`.
";

const INVALID_TAB: &str = "\
SL003: tabs are not allowed

    def f():
    \treturn 1

The second line begins with a tab. Write spaces, between two tokens too: many editors replace the tabs of
a file by a command. In strings and comments tabs are allowed.
";

const UNFINISHED_STRING_LITERAL: &str = "\
SL004: unfinished string literal

    notes = \"the first release, and the second

The quotes are not closed on their line. Close them, or use three quotes for a text of several lines.
";

const INVALID_ESCAPE_SEQUENCE: &str = "\
SL005: invalid string escape sequence

    mark = \"\\x4\"

A `\\x` has two hexadecimal digits, a `\\u` four and a `\\U` eight, or the number is no character. Write all
digits, or two backslashes for a backslash.
";

const EMPTY_ESCAPE_SEQUENCE: &str = "\
SL006: missing string escape sequence

    path = \"C:\\

The file ends right after a backslash in a string, with no line end. Write two backslashes for a backslash,
and close the quotes.
";

const RESERVED_KEYWORD: &str = "\
SL007: cannot use reserved keyword

    class = \"small\"

The word is kept for later versions of Starlark: as, assert, async, await, class, del, except, finally,
from, global, import, is, nonlocal, raise, try, while, with and yield. Choose another name. A field or
an argument that a rule calls so can be given by `**{\"class\": \"small\"}`.
";

const STARTS_ZERO: &str = "\
SL008: integer cannot have leading 0

    mode = 0644

A decimal integer of several digits begins with 0. Write `0o644` for an octal number, or leave the zeros
out.
";

const UNFINISHED_FSTRING_EXPRESSION: &str = "\
SL009: f-string expression is missing closing `}`

    name = f\"\"\"lib{base\"\"\"

A `{` in an f-string is not closed, and the quotes after it begin a string in its expression. Close the
expression, or write `{{` and `}}` for braces that are text.
";

const NEVER_CLOSED: &str = "\
SL101: bracket is never closed

    deps = [
        \"//base\",
        \"//names\",

The file ends, and the bracket is still open: all lines after it belong to it. Close it. After a fault of
the lexer brackets aren't checked.
";

const CLOSES_NOTHING: &str = "\
SL102: bracket closes nothing

    print(len(names)))

No bracket is open, or only the expression of an f-string is. Remove the bracket, or open one before it.
";

const CLOSES_ANOTHER: &str = "\
SL103: bracket closes one of another kind

    sizes = [len(name], 2]

The innermost open bracket, whose place the message has, is of another kind. Close each bracket by one of
its kind: `[len(name), 2]`.
";

const NUMBER_BEFORE_WORD: &str = "\
SL104: number right before a name, keyword or number

    mode = 0o8

The number ends where no digit of its base, or no exponent, follows, and a name, keyword or number begins
there. Write the digits that are meant, or a space between the two.
";

const MERGE_MARKER: &str = "\
SL105: line of an unresolved merge

    <<<<<<< HEAD

The line is one that git writes where two branches changed the same lines. Keep the lines that are meant,
and remove those that begin with `<<<<<<<`, `=======` or `>>>>>>>`.
";

const FSTRING_LINE_END: &str = "\
SL106: f-string with one quote has a line end in an expression

    label = f\"//lib:{name
    }\"

The expression that a `{` begins goes on after the end of its line. Close it on its line, or use three
quotes.
";
