// Whether the 32 bytes of an occupied slot are impossible by themselves (01, Numbers returned, 0x87), and what they hold. It works on
// the numbers in the bytes, without building the slot, since every call of the C interface asks it.
#![tactic(auto)]

ghost use Rattle.std.specs.Prelude.{◌≡◌, true, false, ◌+◌, ◌*◌, ◌≤◌, length, get_or};
ghost use Rattle.words.specs.Words.{le32};
ghost use Rattle.slot_requests.specs.Requests.{with_op};
ghost use Rattle.hold_codes.specs.Codes.{one_hold, three_hold};
ghost use Rattle.slot_judging.specs.Judging.{judged_by, record_judged, table_judged, op_judged, joined_judged, write_judged};
ghost use Rattle.slot_judging.specs.Judging.{number_judged, queue_pair_judged, engine_in, judged_request, judged_of};

use commands::{Op, Table};
use context::Logs;
use engines::EngineNumber;
use hold_codes::Hold;

// Of a slot that is not wrong: whether it has a command, and what it holds.
#[derive(Drop)]
pub struct Judged {
    pub command: bool,
    pub hold: Hold,
}

// The code of a record.
fn coded(n: u32, kind: u64) -> u64
    requires { kind ≤ 4 }
    ensures { result ≡ n * 4 + kind }
{
    u64::from(n) * 4 + kind
}

fn running(moved: u8, total: u8, command: bool, hold: Hold) -> Option<Judged>
    ensures { result ≡ judged_by 1 moved total command hold }
{
    if moved >= total {
        return None;
    }
    Some(Judged { command, hold })
}

// The last burst ends a hold.
fn finished(moved: u8, total: u8, command: bool, hold: Hold) -> Option<Judged>
    ensures { result ≡ judged_by 2 moved total command hold }
{
    if moved != total {
        return None;
    }
    let none = hold_codes::nothing();
    Some(Judged {
        command,
        hold: none,
    })
}

// A request whose numbers are right, by its status and its bursts.
fn by_status(code: u8, moved: u8, total: u8, command: bool, hold: Hold) -> Option<Judged>
    ensures { result ≡ judged_by code moved total command hold }
{
    if code == 1 {
        return running(moved, total, command, hold);
    }
    if code == 2 {
        return finished(moved, total, command, hold);
    }
    None
}

fn one(code: u64, writes: bool) -> Hold
    ensures { result ≡ one_hold code writes }
{
    if writes {
        return Hold {
            first: code,
            second: 0,
            third: 0,
            written: code,
        };
    }
    Hold {
        first: code,
        second: 0,
        third: 0,
        written: 0,
    }
}

// A command on record `index` of a table with the count 2^log; `wanted` is its op_modifier.
fn on_record(
    log: u8,
    kind: u64,
    total: u8,
    modifier: u8,
    wanted: u8,
    index: u32,
    code: u8,
    moved: u8,
    writes: bool,
) -> Option<Judged>
    requires { kind ≤ 4 }
    ensures { result ≡ record_judged log kind total modifier wanted index code moved writes }
{
    if modifier != wanted {
        return None;
    }
    if !record_kinds::below_count(log, index) {
        return None;
    }
    by_status(code, moved, total, true, one(coded(index, kind), writes))
}

fn on_table(
    logs: Logs,
    table: Table,
    modifier: u8,
    index: u32,
    code: u8,
    moved: u8,
) -> Option<Judged>
    ensures { result ≡ table_judged logs table modifier index code moved }
{
    match table {
        Table::Mpt => on_record(logs.mpts, 4, 4, modifier, 0, index, code, moved, true),
        Table::Eq => on_record(logs.eqs, 3, 4, modifier, 0, index, code, moved, true),
        Table::Cq => on_record(logs.cqs, 2, 4, modifier, 0, index, code, moved, true),
    }
}

// The three commands that are done at once take no slot.
fn on_op(logs: Logs, op: Op, modifier: u8, index: u32, code: u8, moved: u8) -> Option<Judged>
    ensures { result ≡ op_judged logs op modifier index code moved }
{
    match op {
        Op::InitHca | Op::CloseHca | Op::Nop => None,
        Op::Sw2Hw(table) => on_table(logs, table, modifier, index, code, moved),
        Op::Hw2Sw(table) => on_table(logs, table, modifier, index, code, moved),
        Op::ResizeCq => on_record(logs.cqs, 2, 4, modifier, 0, index, code, moved, true),
        Op::QueryQp => on_record(logs.qps, 1, 16, modifier, 0, index, code, moved, false),
        Op::ModifyQp(edge) => on_record(
            logs.qps,
            1,
            16,
            modifier,
            commands::edge_modifier(edge),
            index,
            code,
            moved,
            true,
        ),
    }
}

fn command(
    logs: Logs,
    found: Option<Op>,
    modifier: u8,
    index: u32,
    code: u8,
    moved: u8,
) -> Option<Judged>
    ensures { result ≡ judged_request logs code moved (with_op found modifier index) }
{
    on_op(logs, found?, modifier, index, code, moved)
}

// The codes of a joined read's three records (02, wish 2).
fn three(n: u32, cq: u32, eq: u32) -> Hold
    ensures { result ≡ three_hold (n * 4 + 1) (cq * 4 + 2) (eq * 4 + 3) }
{
    Hold {
        first: coded(n, 1),
        second: coded(cq, 2),
        third: coded(eq, 3),
        written: 0,
    }
}

fn joined(logs: Logs, n: u32, s: &[u8], code: u8, moved: u8) -> Option<Judged>
    requires { length s.now ≡ 32 }
    ensures { result ≡ joined_judged logs n (le32 12 s.now) (le32 16 s.now) code moved }
{
    let cq = words::read_le32(s, 12);
    let eq = words::read_le32(s, 16);
    if !record_kinds::below_count(logs.cqs, cq) {
        return None;
    }
    if !record_kinds::below_count(logs.eqs, eq) {
        return None;
    }
    by_status(code, moved, 24, false, three(n, cq, eq))
}

fn write(n: u32, s: &[u8], code: u8, moved: u8) -> Option<Judged>
    requires { length s.now ≡ 32 }
    ensures { result ≡ write_judged n (le32 20 s.now) (get_or s.now 24 0) code moved }
{
    if !requests::psn_fits(words::read_le32(s, 20)) {
        return None;
    }
    if 6 < s[24] {
        return None;
    }
    by_status(code, moved, 2, false, one(coded(n, 1), true))
}

fn on_number(
    logs: Logs,
    number: EngineNumber,
    n: u32,
    s: &[u8],
    code: u8,
    moved: u8,
) -> Option<Judged>
    requires { length s.now ≡ 32 }
    ensures { result ≡ number_judged logs number n s.now code moved }
{
    match number {
        EngineNumber::ReadState => by_status(code, moved, 1, false, one(coded(n, 1), false)),
        EngineNumber::ReadNext => by_status(code, moved, 2, false, one(coded(n, 1), false)),
        EngineNumber::ReadAll => by_status(code, moved, 16, false, one(coded(n, 1), false)),
        EngineNumber::Write(_) => write(n, s, code, moved),
        EngineNumber::ReadJoined => joined(logs, n, s, code, moved),
    }
}

fn on_queue_pair(
    logs: Logs,
    number: EngineNumber,
    n: u32,
    s: &[u8],
    code: u8,
    moved: u8,
) -> Option<Judged>
    requires { length s.now ≡ 32 }
    ensures { result ≡ queue_pair_judged logs number n s.now code moved }
{
    if !record_kinds::below_count(logs.qps, n) {
        return None;
    }
    on_number(logs, number, n, s, code, moved)
}

fn engine(
    logs: Logs,
    found: Option<EngineNumber>,
    n: u32,
    s: &[u8],
    code: u8,
    moved: u8,
) -> Option<Judged>
    requires { length s.now ≡ 32 }
    ensures { result ≡ judged_request logs code moved (engine_in n s.now found) }
{
    on_queue_pair(logs, found?, n, s, code, moved)
}

// Judges an occupied slot's bytes: None where the slot is wrong.
pub fn judge(logs: Logs, s: &[u8]) -> Option<Judged>
    requires { length s.now ≡ 32 }
    ensures { result ≡ judged_of logs s.now }
{
    let code = s[0];
    let kind = s[1];
    let moved = s[2];
    let op = u16::from_le_bytes([s[4], s[5]]);
    let index = words::read_le32(s, 8);
    if kind == 0 {
        return command(logs, commands::read_op(op), s[3], index, code, moved);
    }
    if kind == 1 {
        return engine(
            logs,
            engines::read_number(u32::from(op)),
            index,
            s,
            code,
            moved,
        );
    }
    None
}
