// The head's replies, as they are expected.
ghost use Rattle.std.specs.Prelude.{◌≡◌, ◌+◌, ◌≤◌, length, is_some, unwrap_or, IfOk};
ghost use Rattle.endian.specs.Lists.{zeros};
ghost use Rattle.framing.specs.Answers.{status_number};
ghost use Rattle.protocol.specs.Replies.{status_in};
ghost use Rattle.client.specs.Replies.{expected_of, expected_reply, difference_of, difference_in, digest_in, has_digest, all_zero};

use super::Difference;
use framing::Status;

// Whether every byte is zero. Each is looked at, also behind one that is not: without an early exit LLVM takes sixteen at a time.
#[tactic(auto, using(crate::proofs::Zeros::zero_fold))]
fn all_zero(bytes: &[u8]) -> bool
    ensures { result ≡ all_zero bytes.now }
{
    bytes.iter().fold(0, |any, b| any | *b) == 0
}

// Which reply is expected.
#[derive(Clone, Copy)]
pub enum Kind {
    Load,
    Block,
    // The reply to the last block.
    Last,
}

impl Kind {
    // The reply to frame k of a program of this size.
    pub fn of(size: u32, k: u32) -> Kind
        ensures { expected_of result ≡ expected_reply size k }
    {
        if k == 0 {
            return Kind::Load;
        }
        if protocol::is_last(size, k - 1) {
            Kind::Last
        } else {
            Kind::Block
        }
    }

    // Codes and lengths stand here as in document 01's tables.
    fn code(self) -> u8
        ensures { result ≡ (expected_of self).code }
    {
        match self {
            Kind::Load => 0x04,
            Kind::Block => 0x06,
            Kind::Last => 0x07,
        }
    }

    // The length of the body.
    fn len(self) -> u8
        ensures { result ≡ (expected_of self).len }
    {
        match self {
            Kind::Load | Kind::Block => 4,
            Kind::Last => 128,
        }
    }

    // How many bytes of a digest come after the status.
    fn digest_len(self) -> usize
        ensures { result ≡ (expected_of self).digest }
    {
        match self {
            Kind::Load | Kind::Block => 0,
            Kind::Last => 32,
        }
    }

    // The digest in a reply that has one.
    pub fn digest_in(self, reply: &[u8]) -> Option<[u8; 32]>
        requires { 3 + (expected_of self).digest ≤ length reply.now }
        ensures digest { unwrap_or result (zeros 32) ≡ digest_in (expected_of self) reply.now }
        ensures given { is_some result ≡ has_digest (expected_of self) }
    {
        match self {
            Kind::Load | Kind::Block => None,
            Kind::Last => Some(endian::part(reply, 3)),
        }
    }

    // The status in a reply, or in what it differs from the one that is expected. The digest is read apart: Taken within the result would be
    // copied once more at each step up to C.
    #[tactic(auto, using(crate::proofs::Expected::no_header), unfolding(crate::specs::Replies::difference_in))]
    pub fn compare(self, id: u8, reply: &[u8]) -> Result<Status, Difference>
        ensures difference { difference_of result ≡ difference_in (expected_of self) id reply.now }
        ensures status { IfOk result (λ s. status_number s ≡ status_in reply.now) }
        ensures whole { IfOk result (λ s. 3 + (expected_of self).digest ≤ length reply.now) }
    {
        if reply.is_empty() {
            return Err(Difference::Header);
        }
        let Some(h) = framing::read_reply_header(reply[0]) else {
            return Err(Difference::Header);
        };
        if h.id != id || h.endpoint != 2 || h.len != self.len() {
            return Err(Difference::Header);
        }
        if reply.len() != 1 + self.len() as usize {
            return Err(Difference::Length);
        }
        if reply[1] != self.code() {
            return Err(Difference::Code);
        }
        if reply[2] != u8::from(h.status) {
            return Err(Difference::Status);
        }
        if !all_zero(&reply[3 + self.digest_len()..]) {
            return Err(Difference::Filler);
        }
        Ok(h.status)
    }
}
