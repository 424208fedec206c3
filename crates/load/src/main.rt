// Loads a program into the head on a serial line. What is sent and taken is proved in crate `client`, what is done next in `upload`, what
// is said in `messages`. What no contract can say is left to this program: that it hands over the bytes that it reads, in order, and sends
// each frame. The script ./load opens the line, on descriptor 4 to read from and on 5 to write to. A Rattle program has no exit status: its
// number goes to descriptor 3.
#![tactic(auto)]

mod line;

use input::Command;
use upload::{Exchange, Job, Next, Turn};

const COMMAND: Command = Command {
    name: "load: ",
    unreadable: Some("cannot be read"),
    output: "load: standard output",
};

// Why nothing is loaded, or a load is not told; that was said.
#[derive(Clone, Copy)]
enum Failure {
    Input(input::Failure),
    Upload(upload::Failure),
}

impl From<input::Failure> for Failure {
    fn from(why: input::Failure) -> Failure {
        Failure::Input(why)
    }
}

// The exit status.
impl From<Failure> for u32 {
    fn from(why: Failure) -> u32 {
        match why {
            Failure::Input(why) => u32::from(why),
            Failure::Upload(why) => u32::from(why),
        }
    }
}

fn main(rt: HostRuntime) {
    input::run(&rt, run);
}

// The arguments are the names of the device and of the program, the frame ID, the ticks to wait, 0 if only the files are looked at, and the
// name of the secret's file if there is one. What is to be loaded is looked at before anything else. A number that is no frame ID is 4,
// which no frame has.
fn run(rt: &HostRuntime) -> Result<(), Failure> {
    let mut room = input::zeros::<131073>();
    let program = COMMAND.read(rt, 2, &mut room)?;
    let id = input::number_at(rt, 3).min(4) as u8;
    let job = Job::new(program, id, input::number_at(rt, 4));
    conclude(rt, 2, job, job.open())?;
    let secret = secret(rt, job)?;
    if input::number_at(rt, 5) == 0 {
        return Ok(());
    }
    load(rt, program, job, secret)
}

// The user secret, if there is one.
fn secret(rt: &HostRuntime, job: Job) -> Result<Option<[u8; 32]>, Failure> {
    if !input::is_given(rt, 6) {
        return Ok(None);
    }
    let mut file = [0u8; 33];
    if COMMAND.read(rt, 6, &mut file)?.len() != 32 {
        return Err(refuse(
            rt,
            6,
            job,
            job.open().exchange,
            upload::Failure::SecretLength,
        ));
    }
    Ok(Some(endian::part(&file, 0)))
}

// Loads, and says how it went. The head has the program, also where the lines of a load cannot be written; then that is said.
fn load(
    rt: &HostRuntime,
    program: &[u8],
    job: Job,
    secret: Option<[u8; 32]>,
) -> Result<(), Failure> {
    let Some(mut line) = line::open(rt) else {
        return Err(refuse(rt, 1, job, job.open().exchange, upload::Failure::Device));
    };
    let t = line::converse(rt, &mut line, program, job, secret);
    conclude(rt, 1, job, t)?;
    COMMAND.written(rt, text::write(&mut rt.stdout(), messages::loaded(job)))?;
    let _ = text::write(&mut rt.stderr(), messages::started());
    Ok(())
}

// The last words of a load that fails.
fn conclude(rt: &HostRuntime, i: usize, job: Job, t: Turn) -> Result<(), Failure> {
    match t.next {
        Next::Over(Err(why)) => Err(refuse(rt, i, job, t.exchange, why)),
        _ => Ok(()),
    }
}

// Says of the file or the device that argument i names why nothing is loaded.
fn refuse(rt: &HostRuntime, i: usize, job: Job, x: Exchange, why: upload::Failure) -> Failure {
    COMMAND.refuse_at(rt, i, messages::message(job, x, why));
    Failure::Upload(why)
}
