// The diagnosis for C: include/mastfrap.h.
#![tactic(auto)]

ghost use Rattle.std.specs.Prelude.{◌≡◌, Ok};
ghost use Rattle.diagnosis.specs.Reasons.{explained_of};
ghost use Rattle.diagnosis.specs.Calls.{counts_in, diagnose_told, diagnose_call};

use diagnosis::{Diagnosis, Finding};

// The numbers that a C program is given; the last one is how many blocks are missing, 0 where the reason is another.
fn counts_in(d: Diagnosis) -> [u64; 4]
    ensures { result ≡ counts_in (explained_of (Ok d)) }
{
    let missing = match d.finding {
        Finding::Missing(n) => n,
        _ => 0,
    };
    let p = d.position;
    [p.byte, p.frame, p.offset as u64, missing]
}

#[unsafe(no_mangle)]
pub extern "C" fn mastfrap_diagnose(
    record: &[u8],
    ram_len: usize,
    bytes: &[u8],
    counts: &mut [u64; 4],
    digest: &mut [u8; 32],
) -> u32
    ensures { diagnose_told result counts.new digest.new ≡ diagnose_call «record».now ram_len bytes.now counts.old digest.old }
{
    match diagnosis::diagnose(record, ram_len, bytes) {
        Ok(d) => {
            let measured = d.digest;
            *counts = counts_in(d);
            *digest = measured;
            d.finding.into()
        }
        Err(why) => u8::from(why) as u32,
    }
}
