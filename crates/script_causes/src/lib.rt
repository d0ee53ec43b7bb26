// The causes of refusals, as a script's `why` tells them.
#![tactic(auto)]

use checks::Denial;
use rules::Refusal;
use std::io;

fn denial_words(denial: Denial) -> &'static str {
    match denial {
        Denial::Edge => "the edge is not permitted",
        Denial::ServiceType =>
            "the edge is permitted for another service type, but not for this one",
        Denial::Owner => "the record has the wrong owner",
        Denial::Name => "a name in the record is out of range",
    }
}

// The row of document 01's table in plain words.
fn words(cause: Refusal) -> &'static str {
    match cause {
        Refusal::BadLength => "the row, the room, the store or the HCR has the wrong length",
        Refusal::Impossible => "the state handed in is impossible",
        Refusal::NoRequest => "there is no such slot, it is free, or a step finds it finished",
        Refusal::StillRunning => "the slot is still running",
        Refusal::ShortBuffer => "the buffer is shorter than the answer",
        Refusal::Malformed => "the HCR is not well formed, or asks for an event",
        Refusal::NotServed => "the op or request number is not served",
        Refusal::BadSystemState => "INIT_HCA while open, or another request while closed",
        Refusal::Busy => "another command is uncollected, or CLOSE_HCA finds a slot occupied",
        Refusal::BadParameter => "op_modifier, in_modifier, index, PSN or state is wrong",
        Refusal::ShortMailbox => "the mailbox is shorter than needed",
        Refusal::BadContent => "the mailbox content is wrong, or INIT_HCA needs a larger store",
        Refusal::Held => "a record is held against this request",
        Refusal::Denied(denial) => denial_words(denial),
        Refusal::Full => "all eight slots are occupied",
    }
}

pub fn print_cause(rt: &impl Print, cause: Option<Refusal>) -> io::Result<()> {
    let Some(refusal) = cause else {
        return println!(rt; "none");
    };
    let number = numbers_returned::refusal_number(refusal);
    println!(rt; "{number:#x} {}", words(refusal))
}
