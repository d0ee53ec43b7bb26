// The names by which waves show what has a number: states of a slot, requests, kinds of records, lines of a script, and the rows of
// document 01's table of refusals.
#![tactic(auto)]

use std::io;
use wave_text::print_word;

fn status_name(code: u64) -> &'static [u8] {
    match code {
        0 => b"free",
        1 => b"running",
        _ => b"finished",
    }
}

fn kind_name(code: u64) -> &'static [u8] {
    match code {
        1 => b"qp",
        2 => b"cq",
        3 => b"eq",
        4 => b"mpt",
        _ => b"-",
    }
}

// Edges of a queue pair.
fn edge_name(code: u64) -> &'static [u8] {
    match code {
        0x19 => b"RST2INIT_QP",
        0x1a => b"INIT2RTR_QP",
        0x1b => b"RTR2RTS_QP",
        0x1c => b"RTS2RTS_QP",
        0x1d => b"SQE2RTS_QP",
        0x1e => b"2ERR_QP",
        0x1f => b"RTS2SQD_QP",
        0x20 => b"SQD2RTS_QP",
        0x21 => b"2RST_QP",
        0x2d => b"INIT2INIT_QP",
        0x38 => b"SQD2SQD_QP",
        _ => b"-",
    }
}

// The other commands on a record.
fn command_name(code: u64) -> &'static [u8] {
    match code {
        0x0d => b"SW2HW_MPT",
        0x0f => b"HW2SW_MPT",
        0x13 => b"SW2HW_EQ",
        0x14 => b"HW2SW_EQ",
        0x16 => b"SW2HW_CQ",
        0x17 => b"HW2SW_CQ",
        0x22 => b"QUERY_QP",
        0x2c => b"RESIZE_CQ",
        _ => edge_name(code),
    }
}

// A request: a command by its op, an engine request by 256 more than its number.
fn request_name(code: u64) -> &'static [u8] {
    match code {
        0x101 => b"READ_STATE",
        0x102 => b"READ_NEXT_PSN",
        0x103 => b"WRITE_NEXT_PSN",
        0x104 => b"WRITE_LAST_ACKED_PSN",
        0x105 => b"WRITE_EXPECTED_PSN",
        0x106 => b"READ_ALL",
        0x107 => b"READ_JOINED",
        _ => command_name(code),
    }
}

fn line_name(code: u64) -> &'static [u8] {
    match code {
        1 => b"command",
        2 => b"engine",
        3 => b"step",
        4 => b"collect",
        5 => b"reset",
        6 => b"lend",
        7 => b"rowlen",
        8 => b"roomlen",
        9 => b"storelen",
        10 => b"poke",
        11 => b"state",
        12 => b"slot",
        _ => b"-",
    }
}

fn late_row_name(code: u64) -> &'static [u8] {
    match code {
        9 => b"busy",
        10 => b"bad_parameter",
        11 => b"short_mailbox",
        12 => b"bad_content",
        13 => b"record_held",
        14 => b"edge_not_permitted",
        15 => b"not_for_service_type",
        16 => b"wrong_owner",
        17 => b"name_out_of_range",
        18 => b"all_slots_occupied",
        _ => b"-",
    }
}

fn row_name(code: u64) -> &'static [u8] {
    match code {
        1 => b"bad_length",
        2 => b"impossible_state",
        3 => b"no_request",
        4 => b"still_running",
        5 => b"short_buffer",
        6 => b"malformed_register",
        7 => b"not_served",
        8 => b"bad_system_state",
        _ => late_row_name(code),
    }
}

pub fn print_status(rt: &impl Print, i: usize, code: u64) -> io::Result<()> {
    print_word(rt, i, status_name(code))
}

pub fn print_kind(rt: &impl Print, i: usize, code: u64) -> io::Result<()> {
    print_word(rt, i, kind_name(code))
}

pub fn print_request(rt: &impl Print, i: usize, code: u64) -> io::Result<()> {
    print_word(rt, i, request_name(code))
}

pub fn print_line(rt: &impl Print, i: usize, code: u64) -> io::Result<()> {
    print_word(rt, i, line_name(code))
}

pub fn print_row(rt: &impl Print, i: usize, code: u64) -> io::Result<()> {
    print_word(rt, i, row_name(code))
}
