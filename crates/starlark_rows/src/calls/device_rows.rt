//! Runs over devices that fail, give or take little, or take nothing, calls of watched devices, and
//! documents that are written.

use crate::calls::failing_devices::{Sink, Source, behaviour_of};
use starlark_calls::rows::{Answer, Row, both, unknown};
use starlark_document::Document;
use starlark_run::{RunFault, RunStatus, Watched, run};
use std::alloc::{AllocError, Global};
use std::io;

/// A text that is repeated.
fn repeated(alloc: Global, text: &str, times: u32) -> Answer {
    let mut whole = String::new(alloc);
    for _ in 0..times {
        whole.push_str(text)?;
    }
    Ok(whole)
}

/// How a run ended. Out of memory is an `AllocError`.
fn ending(alloc: Global, outcome: Result<RunStatus, RunFault>) -> Answer {
    match outcome {
        Ok(status) => format!(in alloc; "{status:?}"),
        Err(RunFault::Memory) => Err(AllocError),
        Err(fault) => fault.to_string(alloc),
    }
}

/// The flags of a run's reader and writer.
fn flags(reader: &Watched<Source<'_>>, writer: &Watched<Sink<'_>>) -> &'static str {
    match (reader.failed(), reader.ended(), writer.failed()) {
        (true, false, false) => "reader failed",
        (false, true, false) => "reader ended",
        (false, true, true) => "reader ended and writer failed",
        _ => "other flags",
    }
}

/// How much of the wanted output is missing.
fn missing(wanted: usize, sink: &Sink<'_>) -> &'static str {
    if sink.other_came {
        "other bytes came"
    } else if sink.wanted.is_empty() {
        "nothing missing"
    } else if sink.wanted.len() < wanted {
        "an end missing"
    } else {
        "all missing"
    }
}

/// What a run over a text prints where no device fails. Its writer fails only out of memory.
fn lines_of(alloc: Global, text: &str) -> Result<Vec<u8>, AllocError> {
    let mut reader = Watched::new(text.as_bytes());
    let mut writer = Watched::new(Vec::new(alloc));
    if run(alloc, "<stdin>", &mut reader, &mut writer).is_err() {
        return Err(AllocError);
    }
    let mut lines = Vec::new(alloc);
    lines.extend_from_slice(writer.device().as_slice())?;
    Ok(lines)
}

/// How a run over a text ended, the flags of its devices, and how much of what it prints is missing.
fn run_over(alloc: Global, text: &str, row: &Row) -> Answer {
    let lines = lines_of(alloc, text)?;
    let mut reader = Watched::new(Source {
        rest: text.as_bytes(),
        behaviour: behaviour_of(row, 4),
    });
    let mut writer = Watched::new(Sink {
        wanted: lines.as_slice(),
        other_came: false,
        behaviour: behaviour_of(row, 9),
    });
    let outcome = run(alloc, "<stdin>", &mut reader, &mut writer);
    let ending = ending(alloc, outcome)?;
    let missing = missing(lines.len(), writer.device());
    format!(in alloc; "{ending}, {}, {missing}", flags(&reader, &writer))
}

/// What a call of a device returned.
fn shown(alloc: Global, moved: io::Result<usize>) -> Answer {
    match moved {
        Ok(count) => format!(in alloc; "{count}"),
        Err(error) => format!(in alloc; "{:?}", error.kind()),
    }
}

/// Two reads of a byte, or of none where the text is empty, from a watched reader, and whether it ended.
fn read_twice(alloc: Global, row: &Row) -> Answer {
    let mut reader = Watched::new(Source {
        rest: b"ab",
        behaviour: behaviour_of(row, 3),
    });
    let mut byte = [0];
    let len = row.text(2).len().min(1);
    let first = shown(alloc, reader.read(&mut byte[..len]))?;
    let second = shown(alloc, reader.read(&mut byte[..len]))?;
    format!(in alloc; "{first} {second} {}", reader.ended())
}

/// The text written twice to a watched writer, and whether that failed.
fn write_twice(alloc: Global, row: &Row) -> Answer {
    let text = row.text(2).as_bytes();
    let mut writer = Watched::new(Sink {
        wanted: text,
        other_came: false,
        behaviour: behaviour_of(row, 3),
    });
    let first = shown(alloc, writer.write(text))?;
    let second = shown(alloc, writer.write(text))?;
    format!(in alloc; "{first} {second} {}", writer.failed())
}

/// Two flushes of a watched writer, and whether one failed.
fn flush_twice(alloc: Global, row: &Row) -> Answer {
    let mut writer = Watched::new(Sink {
        wanted: b"",
        other_came: false,
        behaviour: behaviour_of(row, 2),
    });
    let first = shown(alloc, writer.flush().map(|()| 0))?;
    let second = shown(alloc, writer.flush().map(|()| 0))?;
    format!(in alloc; "{first} {second} {}", writer.failed())
}

/// A document of the text written to a writer: whether that failed, and how much of it is missing.
fn write_document(alloc: Global, row: &Row) -> Answer {
    let text = row.text(2);
    let document = Document::with_segment_len(alloc, text, 1).map_err(|_| AllocError)?;
    let mut writer = Sink {
        wanted: text.as_bytes(),
        other_came: false,
        behaviour: behaviour_of(row, 3),
    };
    let written = shown(alloc, document.write_to(&mut writer).map(|()| 0))?;
    format!(in alloc; "{written} {}", missing(text.len(), &writer))
}

/// The answer to a call over devices.
pub fn answer(alloc: Global, row: &Row) -> Answer {
    match row.text(1) {
        "run" => run_over(
            alloc,
            repeated(alloc, row.text(2), row.count(3))?.as_str(),
            row,
        ),
        "read" => read_twice(alloc, row),
        "write" => write_twice(alloc, row),
        "flush" => flush_twice(alloc, row),
        "document" => write_document(alloc, row),
        "faults" => both(alloc, &RunFault::TooLong, &RunFault::Memory),
        _ => unknown(alloc, row),
    }
}
