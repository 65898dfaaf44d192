//! Makes the calls that rows say, and prints their answers, a line for each row.
//!
//! The crate `starlark_calls` makes them, but for runs over devices.

mod device_rows;
mod failing_devices;

use crate::stored_parts::invalid_data;
use starlark_calls::rows::{Answer, Row};
use std::alloc::Global;
use std::io;
use std::io::Write;

/// What the libraries answer to a row.
fn answer(alloc: Global, row: &Row) -> Answer {
    match row.text(0) {
        "devices" => device_rows::answer(alloc, row),
        _ => starlark_calls::answer(alloc, row),
    }
}

/// Makes the calls of rows, and prints their answers.
pub fn print_all<W: Write>(alloc: Global, out: &mut W, stored: &[u8]) -> io::Result<()> {
    let rows = str::from_utf8(stored).map_err(|_| invalid_data())?;
    for line in rows.lines() {
        let row = Row::new(alloc, line)?;
        write!(out, "{}\n", answer(alloc, &row)?)?;
    }
    Ok(())
}
