// What is decided of a submission, from what is lent; nothing is changed. Here the end of both
// decisions, and an engine request's; `deciding_joined` has that of a joined read.
#![tactic(auto)]

ghost use Rattle.std.specs.Prelude.{◌≡◌, List, ℕ};
ghost use Rattle.possible.specs.declared.Hca.{Hca as State};
ghost use Rattle.records.specs.Calls.{Stored};
ghost use Rattle.slots.specs.declared.Slot.{Slot as RowSlot};
ghost use Rattle.rows.specs.Rows.{lowest_free};
ghost use Rattle.holds.specs.Holds.{held_against};
ghost use Rattle.rules.specs.World.{world};
ghost use Rattle.rules.specs.Admission.{decide_verdict, decide_request};
ghost use Rattle.rules.specs.Engines.{decide_asked, decide_number, decide_engine};
ghost use Rattle.deciding.specs.Ready.{OpenFits, EngineStored};

use checks::Denial;
use engines::{EngineAsked, EngineNumber};
use possible::Hca;
use requests::Request;
use rules::{Decision, Refusal};
use slots::Slot;

// What the record says of the request, with the lowest free slot.
fn decide_verdict(
    free: Option<usize>,
    request: Request,
    verdict: Result<(), Denial>,
) -> Result<Decision, Refusal>
    ensures { (h : State) (row : List RowSlot) (store room : List ℕ) → free ≡ lowest_free 0 row
        → result ≡ decide_verdict (world h row store room) request verdict }
{
    verdict?;
    deciding_joined::decide_place(request, free)
}

// The end of both decisions: the mailbox, the holds, the record and the slot. The record is judged
// only once nobody holds it, since a held one may be half written. Of the row it asks two things
// alone: whether a record is held against the request, and which slot is the lowest free one.
pub fn decide_known(
    hca: Hca,
    held: bool,
    free: Option<usize>,
    store: &[u8],
    mail: &[u8],
    request: Request,
) -> Result<Decision, Refusal>
    requires { Stored hca.logs store.now request }
    ensures { (row : List RowSlot) (room : List ℕ) → held ≡ held_against row request → free ≡ lowest_free 0 row
        → result ≡ decide_request (world hca row store.now room) request mail.now }
{
    if mail.len() < mailboxes::need(request) {
        return Err(Refusal::ShortMailbox);
    }
    if !contents::content_holds(request, mail) {
        return Err(Refusal::BadContent);
    }
    if held {
        return Err(Refusal::Held);
    }
    let logs = hca.logs;
    decide_verdict(free, request, records::permission(logs, store, request))
}

// The same of a row of typed slots.
pub fn decide_request(
    hca: Hca,
    row: [Slot; 8],
    store: &[u8],
    mail: &[u8],
    request: Request,
) -> Result<Decision, Refusal>
    requires { Stored hca.logs store.now request }
    ensures { (room : List ℕ) → result ≡ decide_request (world hca row store.now room) request mail.now }
{
    decide_known(
        hca,
        hold_scans::held(row, request),
        row_scans::lowest_free(row),
        store,
        mail,
        request,
    )
}

// Index, PSN and state of an engine request. It has no mailbox. A joined read is asked for by its queue
// pair alone: the names of the other records are still to be read.
fn decide_asked(
    hca: Hca,
    row: [Slot; 8],
    store: &[u8],
    found: Option<EngineAsked>,
) -> Result<Decision, Refusal>
    requires { EngineStored hca.logs store.now found }
    ensures { (room : List ℕ) → result ≡ decide_asked (world hca row store.now room) found }
{
    let Some(asked) = found else {
        return Err(Refusal::BadParameter);
    };
    match asked {
        EngineAsked::OnRecord(engine) => {
            decide_request(hca, row, store, &[], Request::Engine(engine))
        }
        EngineAsked::Joined(n) => deciding_joined::decide_joined(hca, row, store, n),
    }
}

// The request's number, and that the adapter is open. The caller has made the first tests: of the
// lengths, and that the state is possible.
pub fn decide_number(
    hca: Hca,
    row: [Slot; 8],
    store: &[u8],
    index: u32,
    psn: u32,
    state: u8,
    found: Option<EngineNumber>,
) -> Result<Decision, Refusal>
    requires { OpenFits hca store.now }
    ensures { (room : List ℕ) → result ≡ decide_number (world hca row store.now room) index psn state found }
{
    let Some(number) = found else {
        return Err(Refusal::NotServed);
    };
    if !hca.open {
        return Err(Refusal::BadSystemState);
    }
    let asked = engines::read_engine(number, index, psn, state, hca.logs);
    decide_asked(hca, row, store, asked)
}

// What is decided of an engine request.
pub fn decide_engine(
    hca: Hca,
    row: [Slot; 8],
    store: &[u8],
    room: &[u8],
    number: u32,
    index: u32,
    psn: u32,
    state: u8,
) -> Result<Decision, Refusal>
    ensures { result ≡ decide_engine (world hca row store.now room.now) number index psn state }
{
    if lengths::lengths_wrong(hca, store.len(), room.len()) {
        return Err(Refusal::BadLength);
    }
    if state_checks::is_impossible(hca, row) {
        return Err(Refusal::Impossible);
    }
    decide_number(
        hca,
        row,
        store,
        index,
        psn,
        state,
        engines::read_number(number),
    )
}
