// The words of ./spool, besides those that say why a spool does not read (crate `spool_words`).
use spool::Refusal;
use spool_words::{Wrong, WrongBlock};
use text::{Hex, Text};

// Of a program and its spool: how many blocks and bytes, and the digest.
pub fn line(blocks: usize, bytes: usize, digest: [u8; 32]) -> Text {
    Text::of((
        format_args!("blocks: {blocks}, bytes: {bytes}, digest "),
        Hex(&digest),
        "\n",
    ))
}

// Of a file that is not taken, by what is wrong.
pub fn refusal(why: Refusal) -> Text {
    Text::of(Wrong(Err(why)))
}

// ---- blocks

// The line of a bad block.
pub fn bad(place: usize, why: Refusal) -> Text {
    let answer = Err(why);
    Text::of((WrongBlock { place, answer }, "\n"))
}

// The line of a block that a spare has replaced.
pub fn replaced(place: usize) -> Text {
    Text::of(format_args!("block {place} replaced\n"))
}

// The line of a block that no spare is good for.
pub fn lost(place: usize, why: Refusal) -> Text {
    Text::of(("block ", place, " lost: ", Wrong(Err(why)), "\n"))
}

// ---- salvage

pub fn counts(kept: usize, replaced: usize, lost: usize) -> Text {
    Text::of(format_args!("kept {kept}, replaced {replaced}, lost {lost}\n"))
}

// A block says its place, and not of which program it is.
pub fn compare() -> Text {
    Text::of("a spare of another program can be good at its place: compare the digest\n")
}

// Without all blocks there is no digest yet.
pub fn compare_later() -> Text {
    Text::of(
        "a spare of another program can be good at its place: compare the digest once no block is lost\n",
    )
}

pub fn spares_length() -> Text {
    Text::of("its length is not a multiple of 512 bytes (50)")
}

pub fn too_many() -> Text {
    Text::of("there is no room for it: spares have at most 4194304 bytes in all")
}
