// The write of one burst of a record. The request is looked at once for the burst, and only the
// bytes that it changes are stored; what is left is the byte rule on each byte of the burst.
#![tactic(auto)]

ghost use Rattle.std.specs.Prelude.{◌≡◌, ◌≤◌, length};
ghost use Rattle.words.specs.Maps.{map_from};
ghost use Rattle.mailboxes.specs.Mailboxes.{command_need, need_of};
ghost use Rattle.byte_rule.specs.Bytes.{command_byte, engine_byte, byte_of};
ghost use Rattle.word_moves.specs.Places.{Burst};

use requests::{Command, EngineRequest, Request};

fn command_burst(command: Command, burst: &mut [u8], image: &[u8], first: usize)
    requires command_in_bounds { command_need command ≤ length image.now }
    requires burst { Burst burst.old first }
    ensures { burst.new ≡ map_from (command_byte command image.now) first burst.old }
{
    match command {
        Command::Sw2Hw(owned) => owner_bursts::sw2hw_burst(owned, burst, image, first),
        Command::Hw2Sw(_) => owner_bursts::zero_burst(burst),
        Command::ResizeCq(_) => owner_bursts::resize_burst(burst, image, first),
        Command::QueryQp(_) => {}
        Command::ModifyQp(edge, _) => edge_bursts::edge_burst(edge, burst, image, first),
    }
}

fn engine_burst(engine: EngineRequest, burst: &mut [u8], first: usize)
    requires { Burst burst.old first }
    ensures { burst.new ≡ map_from (engine_byte engine) first burst.old }
{
    match engine {
        EngineRequest::ReadState(_) => {}
        EngineRequest::ReadNext(_) => {}
        EngineRequest::ReadAll(_) => {}
        EngineRequest::Write(which, to, _, psn) => psn_bursts::state_and_psn_burst(
            which, psn, to, burst, first,
        ),
        EngineRequest::ReadJoined(_, _, _) => {}
    }
}

// Changes a burst as the request does. It starts at offset `first` of its record; `image` has the
// needed mailbox bytes.
pub fn write(request: Request, burst: &mut [u8], image: &[u8], first: usize)
    requires request_in_bounds { need_of request ≤ length image.now }
    requires burst { Burst burst.old first }
    ensures { burst.new ≡ map_from (byte_of request image.now) first burst.old }
{
    match request {
        Request::Command(command) => command_burst(command, burst, image, first),
        Request::Engine(engine) => engine_burst(engine, burst, first),
    }
}
