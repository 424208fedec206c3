// A program that is in RAM and was measured, a client's or one from flash: it starts, or the head stops.
ghost use Rattle.std.specs.Prelude.{◌≡◌, List, ℕ, length};
ghost use Rattle.head.specs.Answers.{stop_number, stopped, result_in};
ghost use Rattle.head.specs.Start.{ending, starting, decided};

use head::{Answer, Config, Phase, Progress, Start, Step, Stop};

// A stop.
pub fn end(why: Stop, ram_len: usize) -> Step
    ensures { (ram uds : List ℕ) → result_in result ram uds ≡ ending (stopped (stop_number why)) ram_len ram uds }
{
    Step {
        answer: Answer::Stopped(why),
        state: head::ended(Phase::Stopped, ram_len),
    }
}

// A start: the device secret is read, and then cleared.
fn start(c: Config, p: Progress, digest: [u8; 32], uds: &mut [u32]) -> Step
    requires { length uds.old ≡ 8 }
    ensures { (ram : List ℕ) → result_in result ram uds.new ≡ starting c p digest ram uds.old }
{
    let secret = super::memory::secret_bytes(uds);
    let measured_id = c.chained.then_some(c.measured_id);
    let uss = p.uss_used.then_some(p.uss);
    let cdi = cdi::derive(secret, measured_id, digest, uss);
    endian::clear(uds);
    Step {
        answer: Answer::Started(Start {
            address: 0x40000000,
            size: p.size,
            cdi,
            digest,
        }),
        state: head::ended(Phase::Started, c.ram_len),
    }
}

// Starts the program if its digest is allowed. Otherwise the head stops with 25, and the device secret is not read.
pub fn start_or_stop(c: Config, p: Progress, digest: [u8; 32], uds: &mut [u32]) -> Step
    requires { length uds.old ≡ 8 }
    ensures { (ram : List ℕ) → result_in result ram uds.new ≡ decided c p digest ram uds.old }
{
    if head::allowed(c, digest) {
        return start(c, p, digest, uds);
    }
    end(Stop::Digest, c.ram_len)
}
