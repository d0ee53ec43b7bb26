// The submission of an engine request, on the bytes that the C interface is lent.
#![tactic(auto)]

ghost use Rattle.std.specs.Prelude.{◌≡◌, List, [], ℕ};
ghost use Rattle.engines.specs.Engines.{read_number};
ghost use Rattle.rules.specs.World.{world};
ghost use Rattle.rules.specs.Admission.{applied, decide_request};
ghost use Rattle.rules.specs.Engines.{decide_asked, decide_number};
ghost use Rattle.device_bytes.specs.Decoding.{row_of};
ghost use Rattle.device_calls.specs.Calls.{world_of, left, submit_left, engine_call};
ghost use Rattle.device_calls.specs.Tests.{Tested};
ghost use Rattle.exported_engine.specs.Asked.{OnOne, FoundReady, NumberReady};

use engines::{EngineAsked, EngineNumber};
use possible::Hca;
use requests::Request;
use rules::{Decision, Refusal};

// A request on one record: the device's bytes say what the decision asks of the row.
fn decide_one(hca: Hca, dev: &[u8], store: &[u8], request: Request) -> Result<Decision, Refusal>
    requires { OnOne hca dev.now store.now request }
    ensures { (room : List ℕ) → result ≡ decide_request (world hca (row_of dev.now) store.now room) request [] }
{
    let held = device_scans::held(
        dev,
        request_record::record_of(request),
        request_kinds::writes(request),
    );
    let free = device_scans::lowest_free(dev);
    deciding::decide_known(hca, held, free, store, &[], request)
}

// Index, PSN and state. A joined read asks of three records, one after the other, and is decided on
// the row.
fn decide_asked(
    hca: Hca,
    dev: &[u8],
    store: &[u8],
    found: Option<EngineAsked>,
) -> Result<Decision, Refusal>
    requires { FoundReady hca dev.now store.now found }
    ensures { (room : List ℕ) → result ≡ decide_asked (world hca (row_of dev.now) store.now room) found }
{
    let Some(asked) = found else {
        return Err(Refusal::BadParameter);
    };
    match asked {
        EngineAsked::OnRecord(engine) => decide_one(hca, dev, store, Request::Engine(engine)),
        EngineAsked::Joined(n) => {
            deciding_joined::decide_joined(hca, device_readers::read_row(dev), store, n)
        }
    }
}

// The request's number, and that the adapter is open.
fn decide(
    hca: Hca,
    dev: &[u8],
    store: &[u8],
    index: u32,
    psn: u32,
    state: u8,
    found: Option<EngineNumber>,
) -> Result<Decision, Refusal>
    requires { NumberReady hca dev.now store.now }
    ensures { (room : List ℕ) → result ≡ decide_number (world hca (row_of dev.now) store.now room) index psn state found }
{
    let Some(number) = found else {
        return Err(Refusal::NotServed);
    };
    if !hca.open {
        return Err(Refusal::BadSystemState);
    }
    let asked = engines::read_engine(number, index, psn, state, hca.logs);
    decide_asked(hca, dev, store, asked)
}

// Decides and applies, on a device that passed the first tests.
fn submit_tested(
    dev: &mut [u8],
    store: &mut [u8],
    room: &mut [u8],
    number: u32,
    index: u32,
    psn: u32,
    state: u8,
) -> u32
    requires { Tested dev.old store.old room.old }
    ensures { left result dev.new store.new room.new
        ≡ submit_left dev.old (applied (world_of dev.old store.old room.old) []
        (decide_number (world_of dev.old store.old room.old) index psn state (read_number number))) }
{
    let hca = device_readers::read_hca(dev);
    let decision = decide(
        hca,
        dev,
        store,
        index,
        psn,
        state,
        engines::read_number(number),
    );
    exported_apply::apply(hca, dev, store, room, &[], decision)
}

// Submits an engine request, which has no mailbox.
pub fn submit_engine(
    dev: &mut [u8],
    store: &mut [u8],
    room: &mut [u8],
    number: u32,
    index: u32,
    psn: u32,
    state: u8,
) -> u32
    ensures { left result dev.new store.new room.new
        ≡ engine_call dev.old store.old room.old number index psn state }
{
    let refused = device_tests::refusal(dev, store.len(), room.len());
    if refused != 0 {
        return refused;
    }
    submit_tested(dev, store, room, number, index, psn, state)
}
