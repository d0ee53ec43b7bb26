// What a script's line asks for, by its first word.
#![tactic(auto)]

ghost use Rattle.std.specs.Prelude.{◌≡◌};
ghost use Rattle.script_keywords.specs.Keywords.{keyword_of, lengths_of, contents_of, device_of};

use script_words::same;

#[derive(Drop)]
pub enum Call {
    Command,
    Engine,
    Step,
    Collect,
    Reset,
}

// On memory: how much there is and is lent, and what is in it.
#[derive(Drop)]
pub enum Memory {
    Lend,
    RowLength,
    RoomLength,
    StoreLength,
    Poke,
    Peek,
    Digest,
}

// On what a call hands in and answers.
#[derive(Drop)]
pub enum Device {
    State,
    Slot,
    Show,
    Why,
}

#[derive(Drop)]
pub enum Keyword {
    Call(Call),
    Memory(Memory),
    Device(Device),
    Unknown,
}

fn device_word(word: &[u8]) -> Keyword
    ensures { result ≡ device_of word.now }
{
    if same(word, b"state") {
        return Keyword::Device(Device::State);
    }
    if same(word, b"slot") {
        return Keyword::Device(Device::Slot);
    }
    if same(word, b"show") {
        return Keyword::Device(Device::Show);
    }
    if same(word, b"why") {
        return Keyword::Device(Device::Why);
    }
    Keyword::Unknown
}

fn contents_word(word: &[u8]) -> Keyword
    ensures { result ≡ contents_of word.now }
{
    if same(word, b"poke") {
        return Keyword::Memory(Memory::Poke);
    }
    if same(word, b"peek") {
        return Keyword::Memory(Memory::Peek);
    }
    if same(word, b"digest") {
        return Keyword::Memory(Memory::Digest);
    }
    device_word(word)
}

fn lengths_word(word: &[u8]) -> Keyword
    ensures { result ≡ lengths_of word.now }
{
    if same(word, b"lend") {
        return Keyword::Memory(Memory::Lend);
    }
    if same(word, b"rowlen") {
        return Keyword::Memory(Memory::RowLength);
    }
    if same(word, b"roomlen") {
        return Keyword::Memory(Memory::RoomLength);
    }
    if same(word, b"storelen") {
        return Keyword::Memory(Memory::StoreLength);
    }
    contents_word(word)
}

// The calls, which a script has most of, are tried first.
pub fn read_keyword(word: &[u8]) -> Keyword
    ensures { result ≡ keyword_of word.now }
{
    if same(word, b"step") {
        return Keyword::Call(Call::Step);
    }
    if same(word, b"collect") {
        return Keyword::Call(Call::Collect);
    }
    if same(word, b"engine") {
        return Keyword::Call(Call::Engine);
    }
    if same(word, b"command") {
        return Keyword::Call(Call::Command);
    }
    if same(word, b"reset") {
        return Keyword::Call(Call::Reset);
    }
    lengths_word(word)
}
