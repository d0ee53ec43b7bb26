// What is decided of a joined read, from what is lent; nothing is changed. Its records are asked for in
// turn, since each is named in the one before it.
#![tactic(auto)]

ghost use Rattle.std.specs.Prelude.{◌≡◌, List, ℕ};
ghost use Rattle.context.specs.declared.Record.TheVariants.{Qp};
ghost use Rattle.possible.specs.declared.Hca.{Hca as State};
ghost use Rattle.rules.specs.World.{world};
ghost use Rattle.rules.specs.Admission.{decide_place};
ghost use Rattle.rules.specs.Engines.{decide_eq, decide_cq, decide_joined};
ghost use Rattle.deciding_joined.specs.Named.{Has, CqStored};

use checks::Denial;
use context::{CqNumber, EqNumber, QpNumber, Record};
use possible::Hca;
use requests::{EngineRequest, Request};
use rules::{Decision, Refusal};
use slots::Slot;

// The slot that the request takes: the end of every decision on a record.
pub fn decide_place(request: Request, found: Option<usize>) -> Result<Decision, Refusal>
    ensures { result ≡ decide_place request found }
{
    let Some(k) = found else {
        return Err(Refusal::Full);
    };
    Ok(Decision::Take(request, k))
}

// The event queue that the completion queue names: its number, its hold; then the slot.
fn decide_eq(
    row: [Slot; 8],
    n: QpNumber,
    c: CqNumber,
    found: Option<EqNumber>,
) -> Result<Decision, Refusal>
    ensures { (h : State) (store room : List ℕ) → result ≡ decide_eq (world h row store room) n c found }
{
    let Some(e) = found else {
        return Err(Refusal::Denied(Denial::Name));
    };
    if hold_scans::read_held(row, Record::Eq(e)) {
        return Err(Refusal::Held);
    }
    let request = Request::Engine(EngineRequest::ReadJoined(n, c, e));
    decide_place(request, row_scans::lowest_free(row))
}

// The completion queue that the queue pair names: its number, its hold. It is read only once no writer
// holds it, since a held one may be half written.
fn decide_cq(
    hca: Hca,
    row: [Slot; 8],
    store: &[u8],
    n: QpNumber,
    found: Option<CqNumber>,
) -> Result<Decision, Refusal>
    requires { CqStored hca.logs store.now found }
    ensures { (room : List ℕ) → result ≡ decide_cq (world hca row store.now room) n found }
{
    let Some(c) = found else {
        return Err(Refusal::Denied(Denial::Name));
    };
    if hold_scans::read_held(row, Record::Cq(c)) {
        return Err(Refusal::Held);
    }
    let logs = hca.logs;
    let name = records::eq_named(logs, store, c);
    decide_eq(row, n, c, numbers::eq_number(logs, name))
}

// What is decided of a joined read of queue pair n, which is read, too, only once no writer holds it.
pub fn decide_joined(
    hca: Hca,
    row: [Slot; 8],
    store: &[u8],
    n: QpNumber,
) -> Result<Decision, Refusal>
    requires { Has hca.logs store.now (Qp n) }
    ensures { (room : List ℕ) → result ≡ decide_joined (world hca row store.now room) n }
{
    if hold_scans::read_held(row, Record::Qp(n)) {
        return Err(Refusal::Held);
    }
    let logs = hca.logs;
    let name = records::cq_named(logs, store, n);
    decide_cq(hca, row, store, n, numbers::cq_number(logs, name))
}
