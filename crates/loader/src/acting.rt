// A whole frame acted on: document 01, "Commands and replies".
ghost use Rattle.std.specs.Prelude.{◌≡◌, true, ℕ, ◌+◌, ◌<◌, ◌≤◌, List, length};
ghost use Rattle.protocol.specs.Commands.{longest};
ghost use Rattle.protocol.specs.Replies.{name_reply, udi_reply};
ghost use Rattle.head.specs.State.{progress_ok, loading_ok};
ghost use Rattle.head.specs.Answers.{stop_number, result_in, replied, outcome_in};
ghost use Rattle.head.specs.Act.{stopping, between, after_load, load_answer, finished, acted_block, request_of, performed};
ghost use Rattle.loader.specs.Steps.{Replies};

use head::{Acted, Action, Answer, Phase, Progress, State, Step, Stop};
use protocol::{Frame, Reply};

// A stop without a reply.
fn stop(why: Stop, s: State) -> Acted
    ensures { (room ram uds : List ℕ) → outcome_in result room ram uds ≡ stopping (stop_number why) s room ram uds }
{
    Acted {
        answer: Answer::Stopped(why),
        reply: 0,
        state: head::ended(Phase::Stopped, s.config.ram_len),
    }
}

// A reply, after which the session goes on.
fn answer(s: State, progress: Progress, r: Reply, room: &mut [u8]) -> Acted
    requires in_bounds { 129 ≤ length room.old }
    requires len_bound { r.len ≤ 128 }
    ensures { Replies result r (between s progress) room.old room.new }
{
    super::memory::put(room, r);
    Acted {
        answer: Answer::Continue,
        reply: r.len + 1,
        state: State {
            incoming: head::idle(),
            progress,
            ..s
        },
    }
}

// A query for the name.
fn answer_name(s: State, room: &mut [u8]) -> Acted
    requires { 129 ≤ length room.old }
    ensures { Replies result (name_reply s.incoming.header) (between s s.progress) room.old room.new }
{
    answer(s, s.progress, protocol::name_reply(s.incoming.header), room)
}

// A query for the device's identity (UDI).
fn answer_udi(s: State, room: &mut [u8]) -> Acted
    requires { 129 ≤ length room.old }
    ensures { Replies result (udi_reply s.incoming.header s.config.udi) (between s s.progress) room.old room.new }
{
    let udi = s.config.udi;
    answer(
        s,
        s.progress,
        protocol::udi_reply(s.incoming.header, udi),
        room,
    )
}

// A load: one that is not taken changes nothing.
fn act_load(s: State, room: &mut [u8]) -> Acted
    requires { 129 ≤ length room.old }
    ensures { Replies result (load_answer s) (between s (after_load s)) room.old room.new }
{
    let l = protocol::read_load(Frame::from(s.incoming));
    let good = protocol::load_is_good(l, s.config.ram_len);
    let reply = protocol::load_reply(s.incoming.header, good);
    if good {
        return answer(s, head::loaded(l), reply, room);
    }
    answer(s, s.progress, reply, room)
}

// How the load ended, with the last reply.
fn replied(x: Step) -> Acted
    ensures { (room ram uds : List ℕ) → outcome_in result room ram uds ≡ replied 129 room (result_in x ram uds) }
{
    Acted {
        answer: x.answer,
        reply: 129,
        state: x.state,
    }
}

// After the last block the program is measured, its digest is given, and the head starts or stops.
fn finish(s: State, room: &mut [u8], ram: &mut [u8], uds: &mut [u32]) -> Acted
    requires in_bounds { 129 ≤ length room.old }
    requires size_in_bounds { (s.progress.size ≤ length ram.old) × (s.progress.size ≤ longest) }
    requires uds_len { length uds.old ≡ 8 }
    ensures { outcome_in result room.new ram.new uds.new ≡ finished s room.old ram.old uds.old }
{
    let n = s.progress.size as usize;
    let digest = blake2s::digest(&ram[..n]);
    super::memory::put(room, protocol::digest_reply(s.incoming.header, digest));
    replied(super::starting::start_or_stop(s.config, s.progress, digest, uds))
}

// A block.
fn act_block(s: State, room: &mut [u8], ram: &mut [u8], uds: &mut [u32]) -> Acted
    requires in_bounds { 129 ≤ length room.old }
    requires ram_value { loading_ok s.progress (length ram.old) ≡ true }
    requires ram_len_bound { length ram.old ≤ longest }
    requires uds_len { length uds.old ≡ 8 }
    ensures { outcome_in result room.new ram.new uds.new ≡ acted_block s room.old ram.old uds.old }
{
    let p = s.progress;
    super::memory::store(ram, Frame::from(s.incoming), p.size, p.block);
    if protocol::is_last(p.size, p.block) {
        return finish(s, room, ram, uds);
    }
    let next = Progress {
        block: p.block + 1,
        ..p
    };
    answer(s, next, protocol::block_reply(s.incoming.header), room)
}

// A whole frame of a call that is not refused. That RAM is short stays a `requires`, here and in three functions more: a struct of the lent RAM
// with this as a ghost field is not covered where it is passed on ("a parameter that holds a `&mut [T]` which the caller gets back").
// So do the lengths of room and secret, here and in what this calls: an array of a lent slice is a pair with a pointer (docs/PROVING.md).
pub fn perform(s: State, room: &mut [u8], ram: &mut [u8], uds: &mut [u32]) -> Acted
    requires ram_value { progress_ok s.progress (length ram.old) ≡ true }
    requires in_bounds { 129 ≤ length room.old }
    requires ram_len_bound { length ram.old ≤ longest }
    requires uds_len { length uds.old ≡ 8 }
    ensures { outcome_in result room.new ram.new uds.new ≡ performed (request_of s) s room.old ram.old uds.old }
{
    match head::decide(s) {
        Ok(Action::AnswerName) => answer_name(s, room),
        Ok(Action::AnswerUdi) => answer_udi(s, room),
        Ok(Action::TakeLoad) => act_load(s, room),
        Ok(Action::TakeBlock) => act_block(s, room, ram, uds),
        Err(why) => stop(why, s),
    }
}
