// The waves of a run: after each line of the script, what has changed of the signals. All signals are numbers in one array: what the
// last line left of them is kept there, so that only changes are written.
#![tactic(auto)]

use context::Logs;
use possible::Hca;
use rules::Refusal;
use script_keywords::Keyword;
use slots::Slot;
use std::io;
use wave_text::{declare, enter, leave};
use wave_values::ABSENT;

// Of the adapter: whether it is open, and the counts of its records.
const OPEN: usize = 0;

const COUNTS: usize = 1;

// Holds of readers and of writers: each request has one on each of its records.
const READERS: usize = 5;

const WRITERS: usize = 6;

// An event at each line that takes time.
const MARK: usize = 7;

// Each slot's eight.
const SLOTS: usize = 8;

// The line: what it is, the number returned, the row of a refusal.
const LINE: usize = 72;

const RETURNED: usize = 73;

const ROW: usize = 74;

// No signal: the time.
const TIME: usize = 75;

// A value that no signal has: all differ from it.
const UNWRITTEN: u64 = 0xffffffff_ffffffff;

fn declare_slot(rt: &impl Print, k: usize) -> io::Result<()> {
    let first = SLOTS + k % 8 * 8;
    wave_text::enter_slot(rt, k)?;
    declare(rt, b"string 1", first, b"status")?;
    declare(rt, b"string 1", first + 1, b"request")?;
    declare(rt, b"string 1", first + 2, b"kind")?;
    declare(rt, b"wire 32", first + 3, b"number")?;
    declare(rt, b"wire 32", first + 4, b"cq")?;
    declare(rt, b"wire 32", first + 5, b"eq")?;
    declare(rt, b"wire 8", first + 6, b"moved")?;
    declare(rt, b"wire 8", first + 7, b"left")?;
    leave(rt)
}

fn declare_adapter(rt: &impl Print) -> io::Result<()> {
    enter(rt, b"adapter")?;
    declare(rt, b"wire 1", OPEN, b"open")?;
    declare(rt, b"wire 32", COUNTS, b"qps")?;
    declare(rt, b"wire 32", COUNTS + 1, b"cqs")?;
    declare(rt, b"wire 32", COUNTS + 2, b"eqs")?;
    declare(rt, b"wire 32", COUNTS + 3, b"mpts")?;
    leave(rt)?;
    enter(rt, b"holds")?;
    declare(rt, b"wire 8", READERS, b"readers")?;
    declare(rt, b"wire 8", WRITERS, b"writers")?;
    leave(rt)
}

fn declare_line(rt: &impl Print) -> io::Result<()> {
    enter(rt, b"call")?;
    declare(rt, b"event 1", MARK, b"mark")?;
    declare(rt, b"string 1", LINE, b"line")?;
    declare(rt, b"wire 8", RETURNED, b"returned")?;
    declare(rt, b"string 1", ROW, b"refusal")?;
    leave(rt)
}

fn declare_all(rt: &impl Print) -> io::Result<()> {
    script_print::text(rt, b"$version Ecgslope waves $end\n$timescale 1 ns $end\n")?;
    enter(rt, b"ecgslope")?;
    declare_line(rt)?;
    declare_adapter(rt)?;
    for k in 0..8 {
        declare_slot(rt, k)?;
    }
    leave(rt)?;
    script_print::text(rt, b"$enddefinitions $end\n")
}

fn count(open: bool, log: u8) -> u64 {
    if !open || 31 < log {
        return ABSENT;
    }
    1 << log
}

fn put_adapter(view: &mut [u64; 80], hca: Hca) {
    let logs = hca.logs;
    if hca.open {
        view[OPEN] = 1;
    }
    view[COUNTS] = count(hca.open, logs.qps);
    view[COUNTS + 1] = count(hca.open, logs.cqs);
    view[COUNTS + 2] = count(hca.open, logs.eqs);
    view[COUNTS + 3] = count(hca.open, logs.mpts);
}

fn put_slot(view: &mut [u64; 80], k: usize, slot: Slot) {
    let values = wave_values::slot_values(slot);
    let first = SLOTS + k % 8 * 8;
    view[first..first + 8].copy_from_slice(&values);
    view[READERS] = view[READERS].wrapping_add(wave_values::held(slot, false));
    view[WRITERS] = view[WRITERS].wrapping_add(wave_values::held(slot, true));
}

fn put_slots(view: &mut [u64; 80], row: [Slot; 9]) {
    for k in 0..8 {
        put_slot(view, k, row[k]);
    }
}

fn returned(cause: Option<Refusal>) -> u64 {
    match cause {
        None => 0,
        Some(refusal) => u64::from(numbers_returned::refusal_number(refusal)),
    }
}

// A line that is no call returns nothing.
fn put_line(view: &mut [u64; 80], code: u64, why: Option<Refusal>) {
    view[LINE] = code;
    view[RETURNED] = ABSENT;
    if code == 0 || 5 < code {
        return;
    }
    view[RETURNED] = returned(why);
    view[ROW] = wave_codes::row_code(why);
}

fn print_value(rt: &impl Print, i: usize, value: u64) -> io::Result<()> {
    if value == ABSENT {
        return wave_text::print_absent(rt, i);
    }
    wave_text::print_bits(rt, i, value)
}

fn print_slot_change(rt: &impl Print, i: usize, j: usize, value: u64) -> io::Result<()> {
    match j {
        0 => wave_names::print_status(rt, i, value),
        1 => wave_names::print_request(rt, i, value),
        2 => wave_names::print_kind(rt, i, value),
        _ => print_value(rt, i, value),
    }
}

fn print_change(rt: &impl Print, i: usize, value: u64) -> io::Result<()> {
    if i == OPEN {
        return wave_text::print_bit(rt, i, value);
    }
    if i == LINE {
        return wave_names::print_line(rt, i, value);
    }
    if i == ROW {
        return wave_names::print_row(rt, i, value);
    }
    if i < SLOTS || LINE < i {
        return print_value(rt, i, value);
    }
    print_slot_change(rt, i, i % 8, value)
}

// Writes what has changed, and keeps it.
fn print_changes(rt: &impl Print, view: &[u64; 80], seen: &mut [u64; 80]) -> io::Result<()> {
    for i in 0..75 {
        if i == MARK || view[i] == seen[i] {
            continue;
        }
        print_change(rt, i, view[i])?;
        seen[i] = view[i];
    }
    Ok(())
}

// The signals as they are before the first line, all of them.
pub fn begin(rt: &impl Print, hca: Hca, row: [Slot; 9], seen: &mut [u64; 80]) -> io::Result<()> {
    declare_all(rt)?;
    let mut view = [0u64; 80];
    put_adapter(&mut view, hca);
    put_slots(&mut view, row);
    put_line(&mut view, 0, None);
    seen.fill(UNWRITTEN);
    script_print::text(rt, b"#0\n$dumpvars\n")?;
    print_changes(rt, &view, seen)?;
    script_print::text(rt, b"$end\n")?;
    seen[TIME] = 0;
    Ok(())
}

// The next time: a line more has taken one.
fn print_time(rt: &impl Print, line: u64, seen: &mut [u64; 80]) -> io::Result<()> {
    let time = seen[TIME].wrapping_add(1);
    seen[TIME] = time;
    wave_text::print_time(rt, time, line)?;
    wave_text::print_bit(rt, MARK, 1)
}

// What a line of the script has changed. A line that only tells something takes no time.
pub fn after_line(
    rt: &impl Print,
    hca: Hca,
    row: [Slot; 9],
    why: Option<Refusal>,
    keyword: Keyword,
    line: u64,
    seen: &mut [u64; 80],
) -> io::Result<()> {
    let code = wave_codes::line_code(keyword);
    if code == 0 {
        return Ok(());
    }
    let mut view = [0u64; 80];
    put_adapter(&mut view, hca);
    put_slots(&mut view, row);
    put_line(&mut view, code, why);
    print_time(rt, line, seen)?;
    print_changes(rt, &view, seen)
}

// The end of the waves, one time behind the last line, so that a viewer shows what it left.
pub fn end(rt: &impl Print, seen: &[u64; 80]) -> io::Result<()> {
    println!(rt; "#{}", seen[TIME].wrapping_add(1))
}
