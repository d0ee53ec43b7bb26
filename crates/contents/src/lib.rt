// What a request asks of its mailbox. The mailbox is long enough: the callers have tested its length.
#![tactic(auto)]

ghost use Rattle.std.specs.Prelude.{◌≡◌, ◌≤◌, eqb, length};
ghost use Rattle.words.specs.Words.{be32};
ghost use Rattle.edges.specs.States.{is_service};
ghost use Rattle.mailboxes.specs.Mailboxes.{stored_of, edge_need, command_need, need_of};
ghost use Rattle.checks.specs.Fields.{service_of};
ghost use Rattle.contents.specs.Content.{owned_content, edge_content, command_content, content_holds};

use context::CqNumber;
use edges::Edge;
use requests::{Command, Owned, Request};

// Whether an image of a completion queue has its index in word 2Ch.
fn cq_content(n: CqNumber, mailbox: &[u8]) -> bool
    requires { 56 ≤ length mailbox.now }
    ensures { result ≡ eqb (be32 0x2c mailbox.now) n.0 }
{
    words::read_be32(mailbox, 0x2c) == n.0
}

// Whether an image that SW2HW stores is one of the record.
fn owned_content(owned: Owned, mailbox: &[u8]) -> bool
    requires { stored_of owned ≤ length mailbox.now }
    ensures { result ≡ owned_content owned mailbox.now }
{
    match owned {
        Owned::Mpt(_) => true,
        Owned::Eq(_) => true,
        Owned::Cq(n) => cq_content(n, mailbox),
    }
}

// Whether an image of a queue pair has a service type.
fn type_content(mailbox: &[u8]) -> bool
    requires { 164 ≤ length mailbox.now }
    ensures { result ≡ is_service (service_of mailbox.now) }
{
    edges::is_service(checks::service(mailbox))
}

// Whether an image has what the edge asks of it.
fn edge_content(edge: Edge, mailbox: &[u8]) -> bool
    requires { edge_need edge ≤ length mailbox.now }
    ensures { result ≡ edge_content edge mailbox.now }
{
    match edge {
        Edge::ResetToInit => type_content(mailbox),
        Edge::InitToInit => true,
        Edge::InitToRtr => true,
        Edge::RtrToRts => true,
        Edge::RtsToRts => true,
        Edge::SqeToRts => true,
        Edge::RtsToSqd => true,
        Edge::SqdToSqd => true,
        Edge::SqdToRts => true,
        Edge::ToErr => true,
        Edge::ToReset => true,
    }
}

// Whether the needed mailbox bytes have a content that the command accepts.
fn command_content(command: Command, mailbox: &[u8]) -> bool
    requires { command_need command ≤ length mailbox.now }
    ensures { result ≡ command_content command mailbox.now }
{
    match command {
        Command::Sw2Hw(owned) => owned_content(owned, mailbox),
        Command::Hw2Sw(_) => true,
        Command::ResizeCq(_) => true,
        Command::QueryQp(_) => true,
        Command::ModifyQp(edge, _) => edge_content(edge, mailbox),
    }
}

// Whether the needed mailbox bytes have a content that the request accepts.
pub fn content_holds(request: Request, mailbox: &[u8]) -> bool
    requires { need_of request ≤ length mailbox.now }
    ensures { result ≡ content_holds request mailbox.now }
{
    match request {
        Request::Command(command) => command_content(command, mailbox),
        Request::Engine(_) => true,
    }
}
