// What a whole frame for the firmware leads to where no RAM is lent, and a monitor's beginning.
ghost use Rattle.std.specs.Prelude.{◌≡◌, true, cond, ◌≤◌};
ghost use Rattle.protocol.specs.Commands.{longest};
ghost use Rattle.record.specs.Record.{record_of};
ghost use Rattle.head.specs.State.{progress_ok, loading_ok};
ghost use Rattle.head.specs.Start.{allowed};
ghost use Rattle.head.specs.declared.Stop.TheVariants.{Digest};
ghost use Rattle.head.specs.Act.{request_of};
ghost use Rattle.blake2s.specs.Stream.{update_context, finish_output};
ghost use Rattle.endian.specs.Lists.{zeros};
ghost use Rattle.diagnosis.specs.Monitor.{Started, Stopped, monitor_of, verdict_of, fresh_hash, nowhere, closed, opened, ruled, onward, load_heard, measured, carried_in, block_heard, frame_heard};

use super::{Monitor, Position, Verdict};
use blake2s::Context;
use head::{Action, Config, Phase, Progress, State, Stop};
use protocol::Frame;
use record::Record;

// A hash of nothing yet.
fn fresh_hash() -> Context
    ensures { result ≡ fresh_hash }
{
    Context::begin(b"", 32).unwrap_or_default()
}

// A monitor in this state, at its beginning.
fn monitor(head: State, verdict: Verdict) -> Monitor
    ensures { result ≡ record { head = head; hash = fresh_hash; position = nowhere; verdict = verdict; digest = zeros 32 } }
{
    Monitor {
        head,
        hash: fresh_hash(),
        position: Position {
            byte: 0,
            frame: 0,
            offset: 0,
        },
        verdict,
        digest: [0; 32],
    }
}

// One that hears nothing.
pub fn closed(verdict: Verdict) -> Monitor
    ensures { monitor_of result ≡ closed (verdict_of verdict) }
{
    monitor(head::ended(Phase::Stopped, 1), verdict)
}

// One that waits for a load.
pub fn opened(r: Record, ram_len: usize) -> Monitor
    ensures { monitor_of result ≡ opened (record_of r) ram_len }
{
    let state = State {
        incoming: head::idle(),
        config: head::config_of(r, [0; 8], [0; 32], ram_len),
        progress: head::of_size(Phase::Waiting, 0),
    };
    monitor(state, Verdict::Open)
}

// The head has started or stopped.
pub fn ruled(w: Monitor, verdict: Verdict) -> Monitor
    ensures { monitor_of result ≡ ruled (monitor_of w) (verdict_of verdict) }
{
    Monitor { verdict, ..w }
}

// The frame is done with, and the load is as far as this.
fn onward(w: Monitor, progress: Progress, hash: Context) -> Monitor
    ensures { monitor_of result ≡ onward (monitor_of w) progress hash }
{
    let head = State {
        incoming: head::idle(),
        progress,
        ..w.head
    };
    Monitor { head, hash, ..w }
}

// A query.
fn query(w: Monitor) -> Monitor
    ensures { monitor_of result ≡ onward (monitor_of w) w.head.progress w.hash }
{
    onward(w, w.head.progress, w.hash)
}

// A load: one that is not taken changes nothing.
fn load(w: Monitor) -> Monitor
    ensures { monitor_of result ≡ load_heard (monitor_of w) }
{
    let l = protocol::read_load(Frame::from(w.head.incoming));
    if protocol::load_is_good(l, w.head.config.ram_len) {
        return onward(w, head::loaded(l), fresh_hash());
    }
    query(w)
}

// The hash with the program bytes that the block carries.
fn carried(mut hash: Context, s: State) -> Context
    ensures { result ≡ update_context hash (carried_in s) }
{
    let n = protocol::count_in(s.progress.size, s.progress.block);
    let _ = hash.update(&s.incoming.body[1..n + 1]);
    hash
}

// What a program with this digest leads to.
fn judge(config: Config, digest: [u8; 32]) -> Verdict
    ensures { verdict_of result ≡ cond (allowed config digest) Started (Stopped Digest) }
{
    if head::allowed(config, digest) {
        Verdict::Started
    } else {
        Verdict::Stopped(Stop::Digest)
    }
}

// All of the program has come: the head starts it, or stops.
fn measure(w: Monitor, whole: Context) -> Monitor
    ensures { monitor_of result ≡ measured (monitor_of w) (finish_output whole (zeros 32)) }
{
    let mut digest = [0; 32];
    let _ = whole.finish(&mut digest);
    Monitor {
        verdict: judge(w.head.config, digest),
        digest,
        ..w
    }
}

// A block.
fn block(w: Monitor) -> Monitor
    requires ram_len_value { loading_ok w.head.progress w.head.config.ram_len ≡ true }
    requires ram_len_bound { w.head.config.ram_len ≤ longest }
    ensures { monitor_of result ≡ block_heard (monitor_of w) }
{
    let p = w.head.progress;
    let hash = carried(w.hash, w.head);
    if protocol::is_last(p.size, p.block) {
        return measure(w, hash);
    }
    let next = Progress {
        block: p.block + 1,
        ..p
    };
    onward(w, next, hash)
}

// A whole frame for the firmware.
pub fn frame(w: Monitor) -> Monitor
    requires ram_len_value { progress_ok w.head.progress w.head.config.ram_len ≡ true }
    requires ram_len_bound { w.head.config.ram_len ≤ longest }
    ensures { monitor_of result ≡ frame_heard (request_of w.head) (monitor_of w) }
{
    match head::decide(w.head) {
        Ok(Action::AnswerName | Action::AnswerUdi) => query(w),
        Ok(Action::TakeLoad) => load(w),
        Ok(Action::TakeBlock) => block(w),
        Err(why) => ruled(w, Verdict::Stopped(why)),
    }
}
