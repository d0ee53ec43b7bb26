// How many mailbox bytes each request needs.
#![tactic(auto)]

ghost use Rattle.std.specs.Prelude.{◌≡◌};
ghost use Rattle.mailboxes.specs.Mailboxes.{stored_of, edge_need, command_need, need_of};

use edges::Edge;
use requests::{Command, Owned, Request};

// The mailbox bytes that a record with an owner stores.
pub fn stored(owned: Owned) -> usize
    ensures { result ≡ stored_of owned }
{
    match owned {
        Owned::Mpt(_) => 56,
        Owned::Eq(_) => 48,
        Owned::Cq(_) => 56,
    }
}

fn edge_need(edge: Edge) -> usize
    ensures { result ≡ edge_need edge }
{
    match edge {
        Edge::ResetToInit => 164,
        Edge::InitToInit => 164,
        Edge::InitToRtr => 164,
        Edge::RtrToRts => 164,
        Edge::RtsToRts => 164,
        Edge::SqeToRts => 164,
        Edge::RtsToSqd => 0,
        Edge::SqdToSqd => 164,
        Edge::SqdToRts => 164,
        Edge::ToErr => 0,
        Edge::ToReset => 0,
    }
}

fn command_need(command: Command) -> usize
    ensures { result ≡ command_need command }
{
    match command {
        Command::Sw2Hw(owned) => stored(owned),
        Command::Hw2Sw(_) => 0,
        Command::ResizeCq(_) => 8,
        Command::QueryQp(_) => 0,
        Command::ModifyQp(edge, _) => edge_need(edge),
    }
}

// The mailbox bytes that a request needs.
pub fn need(request: Request) -> usize
    ensures { result ≡ need_of request }
{
    match request {
        Request::Command(command) => command_need(command),
        Request::Engine(_) => 0,
    }
}
