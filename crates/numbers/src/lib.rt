// The number of a record as it is submitted, checked against the count of its own kind.
#![tactic(auto)]

ghost use Rattle.std.specs.Prelude.{◌≡◌};
ghost use Rattle.numbers.specs.Numbers.{number_rows, qp_of, cq_of, eq_of, mpt_of, qp_found_number, cq_found_number};
ghost use Rattle.numbers.specs.Numbers.{eq_found_number, mpt_found_number};
ghost use Rattle.context.specs.declared.Kind.TheVariants as kind;

use context::{CqNumber, EqNumber, Logs, MptNumber, QpNumber};

pub fn qp_number(logs: Logs, n: u32) -> Option<QpNumber>
    ensures { (result ≡ qp_of logs n) × (qp_found_number result ≡ number_rows logs kind.Qp n 0 3) }
{
    if record_kinds::below_count(logs.qps, n) {
        return Some(QpNumber(n));
    }
    None
}

pub fn cq_number(logs: Logs, n: u32) -> Option<CqNumber>
    ensures { (result ≡ cq_of logs n) × (cq_found_number result ≡ number_rows logs kind.Cq n 0 3) }
{
    if record_kinds::below_count(logs.cqs, n) {
        return Some(CqNumber(n));
    }
    None
}

pub fn eq_number(logs: Logs, n: u32) -> Option<EqNumber>
    ensures { (result ≡ eq_of logs n) × (eq_found_number result ≡ number_rows logs kind.Eq n 0 3) }
{
    if record_kinds::below_count(logs.eqs, n) {
        return Some(EqNumber(n));
    }
    None
}

pub fn mpt_number(logs: Logs, n: u32) -> Option<MptNumber>
    ensures { (result ≡ mpt_of logs n) × (mpt_found_number result ≡ number_rows logs kind.Mpt n 0 3) }
{
    if record_kinds::below_count(logs.mpts, n) {
        return Some(MptNumber(n));
    }
    None
}
