// BLAKE2s (RFC 7693) with and without a key, in one call or in parts.
// Document 01, "Hashing"; the definitions that the promises cite are those of specs/.
#![tactic(auto)]

mod stream;

ghost use Rattle.std.specs.Prelude.{◌≡◌, [], length};
ghost use Rattle.endian.specs.Lists.{zeros};
ghost use Rattle.blake2s.specs.Hash.{refusal_number, number_of, bad_size, hash_number, hash_output};
ghost use Rattle.blake2s.specs.Stream.{in_range, begin_number, context_of, begin_context, update_number, update_context, finish_number, finish_output, refused_context};

// Why a call was refused; it then changed nothing.
#[derive(Clone, Copy, Debug, PartialEq, Eq)]
pub enum Refusal {
    // A field of the context is out of range.
    ContextRange,
    // The output has 0 bytes, more than 32, or not as many as begin was told.
    OutputLength,
    // The key has more than 32 bytes.
    KeyLength,
    // The message has more than 4,294,967,295 bytes in all.
    MessageLength,
}

// The number that document 01 gives a refusal.
impl From<Refusal> for u32 {
    ghost from_gives = { λ r n. n ≡ refusal_number r };

    fn from(r: Refusal) -> u32 {
        match r {
            Refusal::ContextRange => 1,
            Refusal::OutputLength => 8,
            Refusal::KeyLength => 9,
            Refusal::MessageLength => 10,
        }
    }
}

// A hash that is being made. How many bytes are compressed and how many wait in the block follows from message and keyed.
#[derive(Clone, Copy)]
pub struct Context {
    // The state after the blocks that are compressed.
    pub h: [u32; 8],
    // The bytes that are not.
    pub block: [u8; 64],
    // How many bytes of the message have come.
    pub message: u32,
    // Whether a key's block comes before them.
    pub keyed: bool,
    // How many bytes the hash is to have.
    pub size: usize,
}

// No hash: the context is out of range, so that it can't be taken for a begun one.
impl Default for Context {
    ghost is_default = { λ c. c ≡ refused_context };

    fn default() -> Context {
        Context {
            h: [0; 8],
            block: [0; 64],
            message: 0,
            keyed: false,
            size: 0,
        }
    }
}

impl Context {
    fn in_range(&self) -> bool
        ensures { result ≡ in_range self.now }
    {
        !bad_size(self.size)
    }

    // Begins a hash of size bytes, 1 to 32, with a key of up to 32 bytes, empty for none.
    pub fn begin(key: &[u8], size: usize) -> Result<Context, Refusal>
        ensures { (number_of result ≡ begin_number (length key.now) size) × (context_of result ≡ begin_context key.now size) }
    {
        check_lengths(key.len(), 0, size)?;
        Ok(stream::begun(key, size))
    }

    // Takes the next part of the message.
    pub fn update(&mut self, part: &[u8]) -> Result<(), Refusal>
        ensures { (number_of result ≡ update_number self.old (length part.now)) × (self.new ≡ update_context self.old part.now) }
    {
        if !self.in_range() {
            return Err(Refusal::ContextRange);
        }
        let left = u32::MAX - self.message;
        if (left as usize) < part.len() {
            return Err(Refusal::MessageLength);
        }
        *self = stream::extended(*self, part);
        Ok(())
    }

    // Writes the hash of the parts to out, which has as many bytes as begin was told.
    pub fn finish(&self, out: &mut [u8]) -> Result<(), Refusal>
        ensures { (number_of result ≡ finish_number self.now (length out.old)) × (out.new ≡ finish_output self.now out.old) }
    {
        if !self.in_range() {
            return Err(Refusal::ContextRange);
        }
        if out.len() != self.size {
            return Err(Refusal::OutputLength);
        }
        stream::closed(*self, out);
        Ok(())
    }
}

// No hash has 0 bytes or more than 32.
fn bad_size(size: usize) -> bool
    ensures { result ≡ bad_size size }
{
    size == 0 || 32 < size
}

// Whether a hash of size bytes can be made with a key and a message of these lengths: the lowest refusal, or none.
fn check_lengths(key: usize, msg: usize, size: usize) -> Result<(), Refusal>
    ensures { number_of result ≡ hash_number key msg size }
{
    if bad_size(size) {
        return Err(Refusal::OutputLength);
    }
    if 32 < key {
        return Err(Refusal::KeyLength);
    }
    if 4294967295 < msg {
        return Err(Refusal::MessageLength);
    }
    Ok(())
}

// Writes the hash of a message with a key, which may be empty, in one call. out has as many bytes as the hash is to have.
pub fn hash(key: &[u8], msg: &[u8], out: &mut [u8]) -> Result<(), Refusal>
    ensures { (number_of result ≡ hash_number (length key.now) (length msg.now) (length out.old)) × (out.new ≡ hash_output key.now msg.now out.old) }
{
    check_lengths(key.len(), msg.len(), out.len())?;
    stream::whole(key, msg, out);
    Ok(())
}

// The hash of 32 bytes of a message without a key; zeros for a message that is too long.
pub fn digest(msg: &[u8]) -> [u8; 32]
    ensures { result ≡ hash_output [] msg.now (zeros 32) }
{
    let mut out = [0; 32];
    let _ = hash(&[], msg, &mut out);
    out
}
