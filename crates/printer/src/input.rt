// What the first 296 bytes of the input say: record, UDS and UDI.
ghost use Rattle.std.specs.Prelude.{◌≡◌, take, drop};
ghost use Rattle.head.specs.Answers.{result_of};
ghost use Rattle.head.specs.Begin.{beginning};
ghost use Rattle.printer.specs.Output.{no_flash, words_in};

use loader::{Flash, Refusal, Slot, Step};
use std::array;

// Begins with this record and UDI, and with nothing in flash.
pub fn begin(front: [u8; 296], ram: &mut [u8], words: &mut [u32]) -> Result<Step, Refusal>
    ensures { result_of result ram.new words.new ≡ beginning (take 256 front) (drop 288 front) no_flash ram.old words.old }
{
    let udi = udi_of(front);
    // Not `Flash::default()`: tried in `loader`, by derive and by hand, and the proof of `begin` did not close.
    let empty = Slot {
        bytes: b"",
        size: 0,
    };
    let flash = Flash {
        slot0: empty,
        slot1: empty,
        built_in: [0; 32],
    };
    loader::begin(&front[..256], udi, flash, ram, words)
}

fn udi_of(front: [u8; 296]) -> [u8; 8]
    ensures { result ≡ drop 288 front }
{
    endian::part(&front, 288)
}

// The UDS as words, lowest byte first.
#[tactic(auto, unfolding(endian::specs::Endian::word))]
pub fn words_of(front: [u8; 296]) -> [u32; 8]
    ensures { result ≡ words_in front }
{
    array::from_fn(|i| endian::word_at(&front, 256 + 4 * i))
}
