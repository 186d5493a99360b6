// SPDX-License-Identifier: MPL-2.0
// A report that is complete, written to a file of its own.
use std::fmt::InlineText;
use std::fs::{File, OpenFile};
use std::io::Write;
use std::rt::Files;
use std::{fs, io};

// The longest name: "report-", ten digits, ".part".
const NAME: usize = 32;

// Writes a file whole under one name, then gives it another. Before, it is brought to the disk: an error that shows only then is seen so, since a
// file is closed without a word.
fn write_file(rt: &impl Files, part: &str, name: &str, bytes: &[u8]) -> io::Result<()> {
    let mut file = File::create(rt, part)?;
    file.write_all(bytes)?;
    file.sync_all()?;
    fs::rename(rt, part, name)
}

// Writes a report to the file report-N in the current folder, N its SequenceNumber: whole, under another name first, or not at all.
// Where it cannot be done a line on standard error says so.
pub(crate) fn save(rt: &(impl Files + Eprint), report: &[u8], sequence: u32) {
    let name = InlineText::<NAME>::of(format_args!("report-{sequence}"));
    let part = InlineText::<NAME>::of(format_args!("report-{sequence}.part"));
    let there = name.as_str();
    let here = part.as_str();
    if let Err(error) = write_file(rt, here, there, report) {
        let _ = eprintln!(rt; "replay: not written: {there}: {error}");
        let _ = fs::remove_file(rt, here);
    }
}
