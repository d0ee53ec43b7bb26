// Whether a request writes its records or only reads them, and whether it is a command.
#![tactic(auto)]

ghost use Rattle.std.specs.Prelude.{◌≡◌};
ghost use Rattle.request_table.specs.Records.{command_writes, engine_writes, writes_of, is_command};

use requests::{Command, EngineRequest, Request};

fn command_writes(command: Command) -> bool
    ensures { result ≡ command_writes command }
{
    match command {
        Command::Sw2Hw(_) => true,
        Command::Hw2Sw(_) => true,
        Command::ResizeCq(_) => true,
        Command::QueryQp(_) => false,
        Command::ModifyQp(_, _) => true,
    }
}

fn engine_writes(engine: EngineRequest) -> bool
    ensures { result ≡ engine_writes engine }
{
    match engine {
        EngineRequest::ReadState(_) => false,
        EngineRequest::ReadNext(_) => false,
        EngineRequest::ReadAll(_) => false,
        EngineRequest::Write(_, _, _, _) => true,
        EngineRequest::ReadJoined(_, _, _) => false,
    }
}

// Whether a request writes its records, or only reads them.
pub fn writes(request: Request) -> bool
    ensures { result ≡ writes_of request }
{
    match request {
        Request::Command(command) => command_writes(command),
        Request::Engine(engine) => engine_writes(engine),
    }
}

// Whether a request is a command, not an engine request.
pub fn is_command(request: Request) -> bool
    ensures { result ≡ is_command request }
{
    match request {
        Request::Command(_) => true,
        Request::Engine(_) => false,
    }
}
