//! Texts that are written into a buffer of the caller: names of kinds, and messages of faults.

ghost use Rattle.std.specs.Prelude.{◌<◌, ◌^◌, ◌++◌, length};
ghost use Rattle.starlark_c.specs.Messages.{fault_message};
ghost use Rattle.starlark_c.specs.Written.{IsWritten};

/// Writes a text into a buffer, if it has room for it, and returns the text's length.
pub fn write_text(text: &str, buffer: &mut [u8]) -> usize
    ensures { IsWritten text.now buffer.old buffer.new result }
{
    let len = text.len();
    if len <= buffer.len() {
        buffer[..len].copy_from_slice(text.as_bytes());
    }
    len
}

/// Writes three texts one after another into a buffer, if it has room for them, and returns their
/// length.
fn write_three(front: &str, middle: &[u8], back: &str, buffer: &mut [u8]) -> usize
    requires front { length front.now < 2 ^ 16 }
    requires back { length back.now < 2 ^ 16 }
    ensures { IsWritten (front.now ++ middle.now ++ back.now) buffer.old buffer.new result }
{
    let begin = front.len();
    let end = begin + middle.len();
    let len = end + back.len();
    if len <= buffer.len() {
        buffer[..begin].copy_from_slice(front.as_bytes());
        buffer[begin..end].copy_from_slice(middle);
        buffer[end..len].copy_from_slice(back.as_bytes());
    }
    len
}

/// Writes the message of a fault, by the number of its kind and the text that it names, and returns
/// the message's length.
#[tactic(auto, unfolding(crate::specs::Messages::fault_message, crate::specs::Messages::messages))]
pub fn write_message(kind: u32, named: &[u8], buffer: &mut [u8]) -> usize
    ensures { IsWritten (fault_message kind named.now) buffer.old buffer.new result }
{
    match kind {
        1 => write_text("Parse error: incorrect indentation", buffer),
        2 => write_three("Parse error: invalid input `", named, "`", buffer),
        3 => write_text("Parse error: tabs are not allowed", buffer),
        4 => write_text("Parse error: unfinished string literal", buffer),
        5 => write_three(
            "Parse error: invalid string escape sequence `",
            named,
            "`",
            buffer,
        ),
        6 => write_text(
            "Parse error: missing string escape sequence, only saw `\\`",
            buffer,
        ),
        7 => write_three(
            "Parse error: cannot use reserved keyword `",
            named,
            "`",
            buffer,
        ),
        8 => write_three(
            "Parse error: integer cannot have leading 0, got `",
            named,
            "`",
            buffer,
        ),
        9 => write_text(
            "Parse error: f-string expression is missing closing `}`",
            buffer,
        ),
        _ => write_text("", buffer),
    }
}
