// The Compound Device Identifier (CDI) of a start: a hash that binds the device secret to the program, or to the record's measured_id where
// it is chained, and to the user secret where one is used.
// Document 01, "Commands and replies", in the terms of specs/Cdi.antt.
#![tactic(auto)]

ghost use Rattle.std.specs.Prelude.{◌≡◌, ◌++◌, ◌∷◌, is_some};
ghost use Rattle.std.specs.Option.{unwrap_or};
ghost use Rattle.endian.specs.Lists.{zeros};
ghost use Rattle.cdi.specs.Cdi.{domain_of, measurement_of, cdi_from};

// The domain byte.
fn domain(uss_used: bool, chained: bool) -> u8
    ensures { result ≡ domain_of uss_used chained }
{
    u8::from(uss_used) + 2 * u8::from(chained)
}

// The string with the user secret at its end, used or not.
fn string(uds: [u8; 32], domain: u8, measurement: [u8; 32], uss: [u8; 32]) -> [u8; 97]
    ensures { result ≡ uds ++ domain ∷ measurement ++ uss }
{
    let mut b = [0u8; 97];
    b[..32].copy_from_slice(&uds);
    b[32] = domain;
    b[33..65].copy_from_slice(&measurement);
    b[65..].copy_from_slice(&uss);
    b
}

// The measurement: measured_id where the CDI is chained to one, and otherwise the program's digest.
fn measurement(measured_id: Option<[u8; 32]>, digest: [u8; 32]) -> [u8; 32]
    ensures { result ≡ measurement_of (is_some measured_id) (unwrap_or measured_id (zeros 32)) digest }
{
    measured_id.unwrap_or(digest)
}

// Derives the CDI, which is chained where there is a measured_id.
pub fn derive(
    uds: [u8; 32],
    measured_id: Option<[u8; 32]>,
    digest: [u8; 32],
    uss: Option<[u8; 32]>,
) -> [u8; 32]
    ensures { result ≡ cdi_from uds measured_id digest uss }
{
    let domain = domain(uss.is_some(), measured_id.is_some());
    let m = measurement(measured_id, digest);
    let b = string(uds, domain, m, uss.unwrap_or([0; 32]));
    if uss.is_some() {
        blake2s::digest(&b)
    } else {
        blake2s::digest(&b[..65])
    }
}
