// What begin makes of a reset record.
ghost use Rattle.std.specs.Prelude.{◌≡◌, List, ℕ, ◌≤◌, length};
ghost use Rattle.protocol.specs.Commands.{longest};
ghost use Rattle.record.specs.Record.{record_of};
ghost use Rattle.head.specs.Answers.{result_in};
ghost use Rattle.head.specs.Begin.{waiting_with, by_type};
ghost use Rattle.loader.specs.Steps.{lent};

use super::flash::Flash;
use head::{Answer, Config, Phase, State, Step, Stop};
use record::{Place, Record};

// A session that waits for a load.
fn wait(config: Config) -> Step
    ensures { (ram uds : List ℕ) → result_in result ram uds ≡ waiting_with config ram uds }
{
    Step {
        answer: Answer::Continue,
        state: State {
            incoming: head::idle(),
            config,
            progress: head::of_size(Phase::Waiting, 0),
        },
    }
}

// What the record's type leads to.
pub fn by_type(r: Record, udi: [u8; 8], flash: Flash<'_>, ram: &mut [u8], uds: &mut [u32]) -> Step
    requires { (length ram.old ≤ longest) × (length uds.old ≡ 8) }
    ensures { result_in result ram.new uds.new ≡ by_type (record_of r) udi (lent flash.entry) ram.old uds.old }
{
    let Flash {
        slot0,
        slot1,
        built_in,
    } = flash;
    let c = head::config_of(r, udi, built_in, ram.len());
    match record::source(r.reset_type) {
        Some(Place::Slot0) => super::flash::boot(
            c,
            slot0.bytes,
            slot1.bytes,
            false,
            slot0.size,
            ram,
            uds,
        ),
        Some(Place::Slot1) => super::flash::boot(
            c,
            slot0.bytes,
            slot1.bytes,
            true,
            slot1.size,
            ram,
            uds,
        ),
        Some(Place::Client) => wait(c),
        None => super::starting::end(Stop::UnknownType, c.ram_len),
    }
}
