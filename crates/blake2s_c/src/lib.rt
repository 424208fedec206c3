// blake2s for C: include/mastfrap.h.
#![tactic(auto)]

ghost use Rattle.std.specs.Prelude.{◌≡◌, length};
ghost use Rattle.blake2s.specs.Hash.{hash_number, hash_output};

#[unsafe(no_mangle)]
pub extern "C" fn mastfrap_blake2s(key: &[u8], msg: &[u8], out: &mut [u8]) -> u32
    ensures { (result ≡ hash_number (length key.now) (length msg.now) (length out.old)) × (out.new ≡ hash_output key.now msg.now out.old) }
{
    blake2s::hash(key, msg, out).err().map_or(0, u32::from)
}
