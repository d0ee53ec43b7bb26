// The command register (HCR): 28 bytes, seven little-endian 32-bit words. The command that it has,
// and what reading and writing it give.
#![tactic(auto)]

#[derive(Clone, Copy)]
pub struct HcrCommand {
    pub in_param: u64,
    pub in_modifier: u32,
    pub out_param: u64,
    pub token: u16,
    // 01's E: completion is reported to an event queue.
    pub event: bool,
    pub op_modifier: u8,
    pub op: u16,
}

// Why a register has no command.
#[derive(Clone, Copy, Debug, PartialEq, Eq)]
pub enum ReadError {
    // Fewer than 28 bytes.
    Short,
    // Not well formed.
    Malformed,
}

// Why a command is not written.
#[derive(Clone, Copy, Debug, PartialEq, Eq)]
pub enum WriteError {
    // Fewer than 28 bytes.
    Short,
    // An op above 0xfff, for which the register has no room.
    BadOp,
}
