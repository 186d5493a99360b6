// SPDX-License-Identifier: MPL-2.0
// Joining alone: the pieces of a report come one after the other.
ghost use Rattle.std.specs.Prelude.{◌≡◌, ◌*◌, ◌≤◌, ◌<◌};
ghost use Rattle.joining.specs.Join.{join, report_after};
ghost use Rattle.laws.specs.Parts.{part};
ghost use Rattle.bench_c.specs.Course.{piece_of, length_told, course, not_one, joined_all};

use joining::{Arrival, Joined, Piece, Progress};

// The bytes of a source from a place on, as many as there are of those that are wanted.
fn part_at(source: &[u8], at: usize, wanted: usize) -> &[u8]
    ensures { result.now ≡ part source.now at wanted }
{
    if source.len() < at {
        return &source[..0];
    }
    &source[at..at + wanted.min(source.len() - at)]
}

// Piece i comes.
fn join_next(
    held: Progress,
    size: usize,
    count: usize,
    i: usize,
    source: &[u8],
    report: &mut [u8],
) -> Joined
    requires { (size ≤ 16384) × (i < 64) }
    ensures value { result ≡ join size held (piece_of count i) (part source.now (size * i) size) report.old }
    ensures new_report { report.new ≡ report_after size held (piece_of count i) (part source.now (size * i) size)
        report.old }
{
    let piece = Piece {
        sequence: 0,
        channel: 0,
        count,
        index: i,
    };
    held.join(size, piece, part_at(source, size * i, size), report)
}

// The report's length where it is complete, else 0.
fn length_told(answer: Arrival) -> u64
    ensures { result ≡ length_told answer }
{
    match answer {
        Arrival::Complete { length, .. } => length as u64,
        _ => 0,
    }
}

// All pieces come, the first one first.
fn join_all(size: usize, count: usize, source: &[u8], report: &mut [u8]) -> u64
    requires { (size ≤ 16384) × (count ≤ 64) }
    ensures value { result ≡ (course size count source.now report.old count).told }
    ensures new_report { report.new ≡ (course size count source.now report.old count).report }
{
    let mut held = Progress::expecting(0);
    let mut told: u64 = 0;
    for i in 0..count {
        let joined = join_next(held, size, count, i, source, report);
        held = joined.progress;
        told = length_told(joined.answer);
    }
    told
}

// No report has such pieces.
fn not_one(size: u64, count: u64) -> bool
    ensures { result ≡ not_one size count }
{
    (16384 < size) | (64 < count)
}

// Joins `count` pieces of a source, each of `size` bytes, into a report buffer, on a connection that has heard nothing; answers the report's
// length where the last of them completes it, else 0. Nothing comes of more than 64 pieces, or of pieces over 16,384 bytes.
#[unsafe(no_mangle)]
pub extern "C" fn bench_join(size: u64, count: u64, source: &[u8], report: &mut [u8]) -> u64
    ensures value { result ≡ (joined_all size count source.now report.old).told }
    ensures new_report { report.new ≡ (joined_all size count source.now report.old).report }
{
    if not_one(size, count) {
        return 0;
    }
    join_all(size as usize, count as usize, source, report)
}
