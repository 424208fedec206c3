// What is done next.
ghost use Rattle.std.specs.Prelude.{◌≡◌, is_some, IfOk};
ghost use Rattle.upload.specs.Upload.{job_of, sent_frame, opening, turn_of, over, came_of, after_last, replied, received, silent, turned};
ghost use Rattle.upload.specs.declared.Next.TheVariants.{Over};
ghost use Rattle.client.specs.Replies.{expected_reply, has_digest, taking_of, taking};

use super::{Event, Exchange, Failure, Job, Next, Turn};
use client::{Refusal, Taken};
use framing::Status;

impl Job {
    // What is to be loaded: this program, with its digest.
    #[tactic(auto, unfolding(crate::specs::Upload::job_of))]
    pub fn new(program: &[u8], id: u8, wait: u32) -> Job
        ensures { result ≡ job_of program.now id wait }
    {
        Job {
            len: program.len(),
            id,
            digest: blake2s::digest(program),
            wait,
        }
    }

    // The first turn: frame 0 is to be sent, if the client can make it.
    #[tactic(auto, unfolding(crate::specs::Upload::opening))]
    pub fn open(self) -> Turn
        ensures { result ≡ opening self }
    {
        let exchange = self.sent(0);
        if !protocol::length_ok(self.len) {
            return exchange.failed(Failure::ProgramLength);
        }
        if 3 < self.id {
            return exchange.failed(Failure::FrameId);
        }
        Turn {
            exchange,
            next: Next::Send,
        }
    }

    // Every other turn.
    pub fn advance(self, x: Exchange, event: Event) -> Turn
        ensures { result ≡ turned self x event }
    {
        match event {
            Event::Byte(b) => self.receive(x, b),
            Event::Silence => x.wait(),
            Event::Closed => x.failed(Failure::LineClosed),
        }
    }

    // The reply as the client reads it.
    pub fn read(self, x: Exchange) -> Result<Taken, Refusal>
        ensures taking { taking_of result ≡ taking self.len self.id x.k (came_of x) }
        ensures digest { IfOk result (λ t. is_some t.digest ≡ has_digest (expected_reply self.len x.k)) }
    {
        client::read_reply(self.len, self.id, x.k, x.came())
    }

    // Frame k, of whose reply nothing has come.
    fn sent(self, k: u32) -> Exchange
        ensures { result ≡ sent_frame self k }
    {
        Exchange {
            k,
            got: 0,
            reply: [0; 129],
            ticks: self.wait,
        }
    }

    // A byte of the reply has come. No reply is longer than 129 bytes.
    #[tactic(auto, unfolding(crate::specs::Upload::received))]
    fn receive(self, x: Exchange, b: u8) -> Turn
        ensures { result ≡ received self x b }
    {
        if 128 < x.got {
            return x.failed(Failure::UnexpectedReply);
        }
        let mut y = Exchange {
            got: x.got + 1,
            ..x
        };
        y.reply[x.got] = b;
        if x.got < framing::reply_body_len(y.reply[0]) as usize {
            return Turn {
                exchange: y,
                next: Next::Wait,
            };
        }
        self.reply(y)
    }

    // The reply is whole.
    #[tactic(auto, unfolding(crate::specs::Upload::replied))]
    fn reply(self, x: Exchange) -> Turn
        ensures { result ≡ replied self x }
    {
        let Ok(t) = self.read(x) else {
            return x.failed(Failure::UnexpectedReply);
        };
        if t.status == Status::Bad {
            return x.failed(Failure::Refused);
        }
        match t.digest {
            None => Turn {
                exchange: self.sent(x.k + 1),
                next: Next::Send,
            },
            Some(theirs) => Turn {
                exchange: x,
                next: Next::Over(self.check(theirs)),
            },
        }
    }

    // The last reply has the digest that the head measured.
    fn check(self, theirs: [u8; 32]) -> Result<(), Failure>
        ensures { Over result ≡ after_last self theirs }
    {
        if theirs == self.digest {
            Ok(())
        } else {
            Err(Failure::OtherDigest)
        }
    }
}

impl Exchange {
    // What has come of the reply.
    pub fn came(&self) -> &[u8]
        ensures { result.now ≡ came_of self.now }
    {
        endian::first(&self.reply, self.got)
    }

    // The end, for this reason.
    fn failed(self, why: Failure) -> Turn
        ensures { result ≡ over self why }
    {
        Turn {
            exchange: self,
            next: Next::Over(Err(why)),
        }
    }

    // A tick has passed without a byte.
    #[tactic(auto, unfolding(crate::specs::Upload::silent))]
    fn wait(self) -> Turn
        ensures { result ≡ silent self }
    {
        if self.ticks <= 1 {
            return self.failed(Failure::NoAnswer);
        }
        Turn {
            exchange: Exchange {
                ticks: self.ticks - 1,
                ..self
            },
            next: Next::Wait,
        }
    }
}
