// A run of a script from standard input, with each line's answer printed, or what it changes shown as waves. The lines that a read
// brought are run before the next read, so each is answered before more is asked for.
#![tactic(auto)]

ghost use Rattle.std.specs.Prelude.{◌≡◌, ◌≢◌, ℕ, ◌<◌, ◌≤◌, length, slice_index};

use script_input::NEWLINE;
use script_lines::{LineError, LineResult};
use script_session::Session;
use std::io;
use std::io::Read;
use std::ops::Range;

// What a line that is passed over starts with.
const COMMENT: u8 = b'#';

// The bytes that a line has at most.
const LINE: usize = 16384;

// Says that a line is none of the format. Waves are whole up to that line, and say it in a comment beside.
fn print_refusal(rt: &(impl Print + Eprint), session: &Session) -> io::Result<()> {
    let lines = session.lines;
    if session.answers {
        return println!(rt; "error line {lines}");
    }
    println!(rt; "$comment error line {lines} $end")?;
    eprintln!(rt; "error line {lines}")
}

// Shows as waves what a line has changed, unless answers are printed.
fn show_line(
    rt: &impl Print,
    session: &Session,
    line: &[u8],
    seen: &mut [u64; 80],
) -> io::Result<()> {
    if session.answers {
        return Ok(());
    }
    let keyword = script_keywords::read_keyword(script_words::word(line, 0));
    wave_view::after_line(
        rt,
        session.hca,
        session.row,
        session.why,
        keyword,
        session.lines,
        seen,
    )
}

// A line more; the count stays at its greatest value.
fn count(session: &mut Session) {
    session.lines = session.lines.saturating_add(1);
}

// Runs a line, of any length.
fn run_line(
    rt: &impl Print,
    session: &mut Session,
    line: &[u8],
    store: &mut [u8],
    room: &mut [u8],
    seen: &mut [u64; 80],
) -> LineResult<()> {
    count(session);
    if LINE < line.len() {
        return Err(LineError::Format);
    }
    if line.is_empty() || line[0] == COMMENT {
        return Ok(());
    }
    script::run_line(rt, session, line, store, room)?;
    show_line(rt, session, line, seen)?;
    Ok(())
}

// Where the line that starts at `from` ends: at the first newline, or behind the last byte.
fn line_end(bytes: &[u8], from: usize) -> usize
    requires { from ≤ length bytes.now }
    ensures within { (from ≤ result) × (result ≤ length bytes.now) }
    ensures before { (k : ℕ) → from ≤ k → k < result → slice_index bytes.now k ≢ 10 }
    ensures found { result < length bytes.now → slice_index bytes.now result ≡ 10 }
{
    for to in from..bytes.len() {
        if bytes[to] == NEWLINE {
            return to;
        }
    }
    bytes.len()
}

// Runs whole lines, up to the first that is none of the format.
fn run_lines(
    rt: &impl Print,
    session: &mut Session,
    bytes: &[u8],
    store: &mut [u8],
    room: &mut [u8],
    seen: &mut [u64; 80],
) -> LineResult<()> {
    let mut from = 0;
    while from < bytes.len() {
        let to = line_end(bytes, from);
        run_line(rt, session, &bytes[from..to], store, room, seen)?;
        from = to + 1;
    }
    Ok(())
}

// Reads once behind the bytes that are left, and runs the lines that are then whole; at the end of the
// input, also what is left. Answers which bytes are then left, a line that has not ended; none where
// the input has ended.
fn turn(
    rt: &impl Print,
    input: &mut impl Read,
    session: &mut Session,
    buffer: &mut [u8],
    left: Range<usize>,
    store: &mut [u8],
    room: &mut [u8],
    seen: &mut [u64; 80],
) -> LineResult<Option<Range<usize>>> {
    let filled = script_input::refill(input, buffer, left.start, left.end)?;
    let to = filled.to;
    if filled.ended {
        run_lines(rt, session, &buffer[..to], store, room, seen)?;
        return Ok(None);
    }
    let whole = script_input::whole_lines(buffer, to);
    run_lines(rt, session, &buffer[..whole], store, room, seen)?;
    if LINE < to - whole {
        count(session);
        return Err(LineError::Format);
    }
    Ok(Some(whole..to))
}

// Runs the script through a buffer. A proved loop has to end, and nothing says that the input does: so
// the reads are counted, up to a number that no run reaches.
fn run_through(
    rt: &(impl Input + Print + Eprint),
    session: &mut Session,
    buffer: &mut [u8],
    store: &mut [u8],
    room: &mut [u8],
    seen: &mut [u64; 80],
) -> io::Result<()> {
    let mut input = rt.reader();
    let mut left = 0..0;
    for _ in 0..u64::MAX {
        match turn(rt, &mut input, session, buffer, left, store, room, seen) {
            Ok(Some(rest)) => left = rest,
            Ok(None) => return Ok(()),
            Err(LineError::Format) => return print_refusal(rt, session),
            Err(LineError::Io(error)) => return Err(error),
        }
    }
    Ok(())
}

// Runs the script on standard input. The store is the greatest that a script can ask for.
fn run_with(
    rt: &(impl Input + Print + Eprint),
    answers: bool,
    seen: &mut [u64; 80],
) -> io::Result<()> {
    let mut buffer = [0u8; 65536];
    let mut store = [0u8; 1048960];
    let mut room = [0u8; script_memory::ROOM];
    let mut session = script_session::begin(script_memory::fresh(0), answers);
    run_through(rt, &mut session, &mut buffer, &mut store, &mut room, seen)
}

// Runs the script on standard input and prints each line's answer.
pub fn run(rt: &(impl Input + Print + Eprint)) -> io::Result<()> {
    let mut seen = [0u64; 80];
    run_with(rt, true, &mut seen)
}

// Runs the script on standard input and shows as waves what it does.
pub fn run_waves(rt: &(impl Input + Print + Eprint)) -> io::Result<()> {
    let mut seen = [0u64; 80];
    wave_view::begin(rt, start::closed_state(), start::nine_free(), &mut seen)?;
    run_with(rt, false, &mut seen)?;
    wave_view::end(rt, &seen)
}
