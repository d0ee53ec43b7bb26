// What a request asks of its record. The lent record is long enough: the callers have tested its length.
#![tactic(auto)]

ghost use Rattle.std.specs.Prelude.{◌≡◌, ◌+◌, ◌≤◌, length};
ghost use Rattle.words.specs.Choice.{pick};
ghost use Rattle.words.specs.Parts.{part};
ghost use Rattle.context.specs.Layout.{record_size};
ghost use Rattle.request_table.specs.Records.{record_of};
ghost use Rattle.checks.specs.Fields.{state_of, service_of, cq_named, eq_named, is_hardware};
ghost use Rattle.checks.specs.Verdicts.{verdict_number, denial_by};
ghost use Rattle.checks.specs.Permission.{software_only, hardware_only, move_verdict, command_permits, engine_permits};
ghost use Rattle.checks.specs.Permission.{permission_of, permits_in, for_some_type_in};

use edges::{EdgeDenial, Move};
use requests::{Command, EngineRequest, Request};

// Why a record's state denies a request: the edge is not permitted, or not for the record's service
// type, the owner is the wrong one, or the record names another that the store has not.
#[derive(Clone, Copy, Debug, PartialEq, Eq)]
pub enum Denial {
    Edge,
    ServiceType,
    Owner,
    Name,
}

// The state code in word 00h, bits 31:28.
pub fn state_code(rec: &[u8]) -> u8
    requires { 4 ≤ length rec.now }
    ensures { result ≡ state_of rec.now }
{
    rec[0] / 16
}

// The service type in word 00h, bits 23:16.
pub fn service(rec: &[u8]) -> u8
    requires { 4 ≤ length rec.now }
    ensures { result ≡ service_of rec.now }
{
    rec[1]
}

// The name of the completion queue of a queue pair's sends, word 70h.
pub fn cq_named(rec: &[u8]) -> u32
    requires { 0x74 ≤ length rec.now }
    ensures { result ≡ cq_named rec.now }
{
    words::read_be32(rec, 0x70)
}

// The name of a completion queue's event queue, word 10h.
pub fn eq_named(rec: &[u8]) -> u32
    requires { 0x14 ≤ length rec.now }
    ensures { result ≡ eq_named rec.now }
{
    words::read_be32(rec, 0x10)
}

// Whether the hardware owns the record.
fn is_hardware(rec: &[u8]) -> bool
    requires { 64 ≤ length rec.now }
    ensures { result ≡ is_hardware rec.now }
{
    rec[63] == 1
}

// For a request that takes a record of software's.
fn software_only(rec: &[u8]) -> Result<(), Denial>
    requires { 64 ≤ length rec.now }
    ensures { result ≡ software_only rec.now }
{
    if is_hardware(rec) {
        return Err(Denial::Owner);
    }
    Ok(())
}

// For a request that takes a record of the hardware's.
fn hardware_only(rec: &[u8]) -> Result<(), Denial>
    requires { 64 ≤ length rec.now }
    ensures { result ≡ hardware_only rec.now }
{
    if is_hardware(rec) {
        return Ok(());
    }
    Err(Denial::Owner)
}

impl From<EdgeDenial> for Denial {
    ghost from_gives = { λ edge denial. denial ≡ denial_by edge };

    // The edge decision's denial, as a record's.
    fn from(edge: EdgeDenial) -> Denial {
        match edge {
            EdgeDenial::NotPermitted => Denial::Edge,
            EdgeDenial::NotForType => Denial::ServiceType,
        }
    }
}

// Whether the queue pair with this record may make the move.
fn move_permitted(asked: Move, rec: &[u8]) -> Result<(), Denial>
    requires { 4 ≤ length rec.now }
    ensures { result ≡ move_verdict asked rec.now }
{
    edges::judge(asked, state_code(rec), service(rec))?;
    Ok(())
}

// Whether a record's contents permit a command.
fn command_permitted(command: Command, rec: &[u8]) -> Result<(), Denial>
    requires { 64 ≤ length rec.now }
    ensures { result ≡ command_permits command rec.now }
{
    match command {
        Command::Sw2Hw(_) => software_only(rec),
        Command::Hw2Sw(_) => hardware_only(rec),
        Command::ResizeCq(_) => hardware_only(rec),
        Command::QueryQp(_) => Ok(()),
        Command::ModifyQp(edge, _) => move_permitted(Move::Command(edge), rec),
    }
}

// Whether a record's contents permit an engine request.
fn engine_permitted(engine: EngineRequest, rec: &[u8]) -> Result<(), Denial>
    requires { 64 ≤ length rec.now }
    ensures { result ≡ engine_permits engine rec.now }
{
    match engine {
        EngineRequest::ReadState(_) => Ok(()),
        EngineRequest::ReadNext(_) => Ok(()),
        EngineRequest::ReadAll(_) => Ok(()),
        EngineRequest::Write(_, to, _, _) => move_permitted(Move::Engine(to), rec),
        EngineRequest::ReadJoined(_, _, _) => Ok(()),
    }
}

// Whether a record's contents permit a request, and if not, why.
pub fn permission(request: Request, rec: &[u8]) -> Result<(), Denial>
    requires { 64 ≤ length rec.now }
    ensures { (result ≡ permission_of request rec.now)
        × (verdict_number result ≡ pick (permits_in request rec.now) 0 (pick (for_some_type_in request rec.now) 0x88 0x85)) }
{
    match request {
        Request::Command(command) => command_permitted(command, rec),
        Request::Engine(engine) => engine_permitted(engine, rec),
    }
}

// The bytes of a request's record.
fn size_of(request: Request) -> usize
    ensures { result ≡ record_size (record_of request) }
{
    record_kinds::record_size(request_record::record_of(request))
}

// Whether the record that starts at `at` of the store permits a request, and if not, why. The record-sized
// part of the store is passed on to `permission`, which judges it.
pub fn permission_at(request: Request, store: &[u8], at: usize) -> Result<(), Denial>
    requires { at + record_size (record_of request) ≤ length store.now }
    ensures { (result ≡ permission_of request (part at (record_size (record_of request)) store.now))
        × (verdict_number result ≡ pick (permits_in request (part at (record_size (record_of request)) store.now)) 0
        (pick (for_some_type_in request (part at (record_size (record_of request)) store.now)) 0x88 0x85)) }
{
    let end = at + size_of(request);
    permission(request, &store[at..end])
}
