// A script's `state` line: the state that the next call is handed.
#![tactic(auto)]

ghost use Rattle.std.specs.Prelude.{◌≡◌};
ghost use Rattle.script_lines.specs.Lines.{numbers_of};
ghost use Rattle.script_states.specs.States.{logs_of, state_in};

use context::Logs;
use possible::Hca;

// The logarithms of a `state` line, if each is a byte.
fn logs_of(qps: u32, cqs: u32, eqs: u32, mpts: u32) -> Option<Logs>
    ensures { result ≡ logs_of qps cqs eqs mpts }
{
    Some(Logs {
        qps: u8::try_from(qps).ok()?,
        cqs: u8::try_from(cqs).ok()?,
        eqs: u8::try_from(eqs).ok()?,
        mpts: u8::try_from(mpts).ok()?,
    })
}

// `state OPEN LQ LC LE LM LEN`.
pub fn read_state(line: &[u8]) -> Option<Hca>
    ensures { result ≡ state_in (numbers_of line.now 1 6) }
{
    let read = script_lines::numbers(line, 1, 6)?;
    if 1 < read[0] {
        return None;
    }
    let logs = logs_of(read[1], read[2], read[3], read[4])?;
    Some(Hca {
        open: read[0] == 1,
        logs,
        store_len: read[5] as usize,
    })
}
