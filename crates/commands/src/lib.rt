// How a command is read: from its op to what is served, and from op_modifier and in_modifier to the
// command.
#![tactic(auto)]

ghost use Rattle.std.specs.Prelude.{◌≡◌};
ghost use Rattle.words.specs.Choice.{pick};
ghost use Rattle.numbers.specs.Numbers.{qp_of, cq_of, eq_of, mpt_of};
ghost use Rattle.commands.specs.Commands.{read_op, edge_modifier, op_modifier_of, on_mpt, on_eq, on_cq, owned_of};
ghost use Rattle.commands.specs.Commands.{at_once, sw2hw_of, hw2sw_of, resize_of, query_of, modify_of, addressed, read_command};
ghost use Rattle.commands.specs.Commands.{is_served, op_found_number, command_right, command_found_number};

use context::Logs;
use edges::Edge;
use requests::{Command, Owned};

// The tables whose records have an owner.
#[derive(Clone, Copy)]
pub enum Table {
    Mpt,
    Eq,
    Cq,
}

// The ops that are served.
#[derive(Clone, Copy)]
pub enum Op {
    InitHca,
    CloseHca,
    Nop,
    Sw2Hw(Table),
    Hw2Sw(Table),
    ResizeCq,
    QueryQp,
    ModifyQp(Edge),
}

// What a command asks for, once its modifiers are judged. The first three are done at once and use
// no slot.
#[derive(Clone, Copy)]
pub enum CommandAsked {
    InitHca,
    CloseHca,
    Nop,
    OnRecord(Command),
}

pub fn read_op(code: u16) -> Option<Op>
    ensures { (result ≡ read_op code) × (op_found_number result ≡ pick (is_served code) 0 2) }
{
    match code {
        0x07 => Some(Op::InitHca),
        0x08 => Some(Op::CloseHca),
        0x31 => Some(Op::Nop),
        0x0d => Some(Op::Sw2Hw(Table::Mpt)),
        0x13 => Some(Op::Sw2Hw(Table::Eq)),
        0x16 => Some(Op::Sw2Hw(Table::Cq)),
        0x0f => Some(Op::Hw2Sw(Table::Mpt)),
        0x14 => Some(Op::Hw2Sw(Table::Eq)),
        0x17 => Some(Op::Hw2Sw(Table::Cq)),
        0x2c => Some(Op::ResizeCq),
        0x22 => Some(Op::QueryQp),
        0x19 => Some(Op::ModifyQp(Edge::ResetToInit)),
        0x2d => Some(Op::ModifyQp(Edge::InitToInit)),
        0x1a => Some(Op::ModifyQp(Edge::InitToRtr)),
        0x1b => Some(Op::ModifyQp(Edge::RtrToRts)),
        0x1c => Some(Op::ModifyQp(Edge::RtsToRts)),
        0x1d => Some(Op::ModifyQp(Edge::SqeToRts)),
        0x1f => Some(Op::ModifyQp(Edge::RtsToSqd)),
        0x38 => Some(Op::ModifyQp(Edge::SqdToSqd)),
        0x20 => Some(Op::ModifyQp(Edge::SqdToRts)),
        0x1e => Some(Op::ModifyQp(Edge::ToErr)),
        0x21 => Some(Op::ModifyQp(Edge::ToReset)),
        _ => None,
    }
}

pub fn edge_modifier(edge: Edge) -> u8
    ensures { result ≡ edge_modifier edge }
{
    match edge {
        Edge::ResetToInit => 0,
        Edge::InitToInit => 0,
        Edge::InitToRtr => 0,
        Edge::RtrToRts => 0,
        Edge::RtsToRts => 0,
        Edge::SqeToRts => 0,
        Edge::RtsToSqd => 0,
        Edge::SqdToSqd => 0,
        Edge::SqdToRts => 0,
        Edge::ToErr => 3,
        Edge::ToReset => 3,
    }
}

fn op_modifier(op: Op) -> u8
    ensures { result ≡ op_modifier_of op }
{
    match op {
        Op::InitHca => 0,
        Op::CloseHca => 0,
        Op::Nop => 0,
        Op::Sw2Hw(_) => 0,
        Op::Hw2Sw(_) => 0,
        Op::ResizeCq => 0,
        Op::QueryQp => 0,
        Op::ModifyQp(edge) => edge_modifier(edge),
    }
}

fn owned_mpt(logs: Logs, n: u32) -> Option<Owned>
    ensures { result ≡ on_mpt (mpt_of logs n) }
{
    Some(Owned::Mpt(numbers::mpt_number(logs, n)?))
}

fn owned_eq(logs: Logs, n: u32) -> Option<Owned>
    ensures { result ≡ on_eq (eq_of logs n) }
{
    Some(Owned::Eq(numbers::eq_number(logs, n)?))
}

fn owned_cq(logs: Logs, n: u32) -> Option<Owned>
    ensures { result ≡ on_cq (cq_of logs n) }
{
    Some(Owned::Cq(numbers::cq_number(logs, n)?))
}

fn read_owned(table: Table, logs: Logs, n: u32) -> Option<Owned>
    ensures { result ≡ owned_of logs table n }
{
    match table {
        Table::Mpt => owned_mpt(logs, n),
        Table::Eq => owned_eq(logs, n),
        Table::Cq => owned_cq(logs, n),
    }
}

fn sw2hw(table: Table, logs: Logs, n: u32) -> Option<CommandAsked>
    ensures { result ≡ sw2hw_of (owned_of logs table n) }
{
    let rec = read_owned(table, logs, n)?;
    Some(CommandAsked::OnRecord(Command::Sw2Hw(rec)))
}

fn hw2sw(table: Table, logs: Logs, n: u32) -> Option<CommandAsked>
    ensures { result ≡ hw2sw_of (owned_of logs table n) }
{
    let rec = read_owned(table, logs, n)?;
    Some(CommandAsked::OnRecord(Command::Hw2Sw(rec)))
}

fn resize(logs: Logs, n: u32) -> Option<CommandAsked>
    ensures { result ≡ resize_of (cq_of logs n) }
{
    let m = numbers::cq_number(logs, n)?;
    Some(CommandAsked::OnRecord(Command::ResizeCq(m)))
}

fn query(logs: Logs, n: u32) -> Option<CommandAsked>
    ensures { result ≡ query_of (qp_of logs n) }
{
    let m = numbers::qp_number(logs, n)?;
    Some(CommandAsked::OnRecord(Command::QueryQp(m)))
}

fn modify(edge: Edge, logs: Logs, n: u32) -> Option<CommandAsked>
    ensures { result ≡ modify_of edge (qp_of logs n) }
{
    let m = numbers::qp_number(logs, n)?;
    Some(CommandAsked::OnRecord(Command::ModifyQp(edge, m)))
}

// A command without a record has the in_modifier 0.
fn at_once(asked: CommandAsked, n: u32) -> Option<CommandAsked>
    ensures { result ≡ at_once (Some asked) n }
{
    if n == 0 { Some(asked) } else { None }
}

fn on_record(op: Op, logs: Logs, n: u32) -> Option<CommandAsked>
    ensures { result ≡ addressed logs op n }
{
    match op {
        Op::InitHca => at_once(CommandAsked::InitHca, n),
        Op::CloseHca => at_once(CommandAsked::CloseHca, n),
        Op::Nop => at_once(CommandAsked::Nop, n),
        Op::Sw2Hw(table) => sw2hw(table, logs, n),
        Op::Hw2Sw(table) => hw2sw(table, logs, n),
        Op::ResizeCq => resize(logs, n),
        Op::QueryQp => query(logs, n),
        Op::ModifyQp(edge) => modify(edge, logs, n),
    }
}

// The command, or `None` where op_modifier, in_modifier or index is wrong.
pub fn read_command(op: Op, modifier: u8, n: u32, logs: Logs) -> Option<CommandAsked>
    ensures { (result ≡ read_command logs op modifier n) × (command_found_number result ≡ pick (command_right logs op modifier n) 0 3) }
{
    if modifier != op_modifier(op) {
        return None;
    }
    on_record(op, logs, n)
}
