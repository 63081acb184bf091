// Answers what a case of `replay` has no room for, so that `oracle/compare` can compare that with the original too.
// In: the three memories, then questions to the end of the input, each a kind and six bytes a to f; a scene follows
// from kind 5 on. Two bytes that make a number have the low one first. What is asked, and the bytes that come out:
//   0  the chip at power-up, of kind a                                    a scene
//   1  the mask of the cycle ab, of kind c                                the library's, the front end's, the front end's without a kind
//   2  the raster line ab, latch c: a bad one?                            256 of the library by YSCROLL, 256 of the front end
//   3  how many sprites the mask a has                                    the library's, the front end's
//   4  the block of pointer a in bank b, RAM of cd bytes, ROM of ef       the refusal, the block's length, the block
//   5  register write: address ab, value c                                the scene afterwards
//   6  register read: address ab, light pen bytes c and d                 the byte
#![tactic(auto)]

use chip::Chip;
use streams::{STDIN_FILENO, STDOUT_FILENO};

fn word(low: u8, high: u8) -> u16 {
    u16::from_le_bytes([low, high])
}

// A scene to the output; false where that fails.
fn show(chip: Chip) -> bool {
    let mut body = [0u8; 311];
    scene::encode(chip, &mut body);
    io::write_all(STDOUT_FILENO, &body)
}

fn masks(cycle: u16, kind: u8) -> bool {
    let told = [
        schedule::mask(kind, cycle),
        frontend::nickelplait_kind_mask(kind, cycle),
        frontend::nickelplait_mask(cycle),
    ];
    io::write_all(STDOUT_FILENO, &told)
}

// A row for each of the two, by YSCROLL.
fn bad_lines(raster: u16, latch: u8) -> bool {
    let mut told = [0u8; 512];
    for yscroll in 0..=255u8 {
        let at = usize::from(yscroll);
        told[at] = timing::bad_line(raster, yscroll, latch != 0) as u8;
        told[256 + at] = frontend::nickelplait_bad_line(raster, yscroll, latch);
    }
    io::write_all(STDOUT_FILENO, &told)
}

// A number as a byte; all above 254 are 255.
fn small(n: usize) -> u8 {
    u8::try_from(n).unwrap_or(255)
}

fn counts(dma: u8) -> bool {
    let told = [
        small(schedule::sprites_in(dma) as usize),
        small(frontend::nickelplait_sprite_count(dma) as usize),
    ];
    io::write_all(STDOUT_FILENO, &told)
}

fn shown<'a>(ram: &'a [u8], rom: &'a [u8], pointer: u8, bank: u8) -> bool {
    let refused = memory::block_refusal(ram, rom, pointer, bank);
    let bytes = memory::block(ram, rom, pointer, bank);
    let head = [refused, small(bytes.len())];
    io::write_all(STDOUT_FILENO, &head) && io::write_all(STDOUT_FILENO, bytes)
}

// ROM begins where RAM ends, so a RAM that is too long reaches into it; false for lengths that the memories do not have.
fn block(memories: &[u8; 21504], pointer: u8, bank: u8, n: u16, m: u16) -> bool {
    let Some(ram) = memories.get(..usize::from(n)) else {
        return false;
    };
    let Some(rom) = memories[16384..].get(..usize::from(m)) else {
        return false;
    };
    shown(ram, rom, pointer, bank)
}

fn register(chip: Chip, address: u16, x: u8, y: u8) -> bool {
    let byte = [calls::read_register(chip, address, x, y)];
    io::write_all(STDOUT_FILENO, &byte)
}

// A question about the scene that follows it, of kind 5 or 6; false where the run ends, as at any other kind.
fn about(kind: u8, address: u16, a: u8, b: u8) -> bool {
    let mut body = [0u8; 311];
    let n = io::read_full(STDIN_FILENO, &mut body);
    if n != 311 {
        return false;
    }
    let Ok(chip) = scene::decode_newest(&body) else {
        return false;
    };
    match kind {
        5 => show(calls::write_register(chip, address, a)),
        6 => register(chip, address, a, b),
        _ => false,
    }
}

// One question from the input to the output; false where the run ends.
fn one(memories: &[u8; 21504]) -> bool {
    let mut head = [0u8; 7];
    let read = io::read_full(STDIN_FILENO, &mut head);
    if read != 7 {
        return false;
    }
    let [kind, a, b, c, d, e, f] = head;
    match kind {
        0 => show(chip::power_up(a)),
        1 => masks(word(a, b), c),
        2 => bad_lines(word(a, b), c),
        3 => counts(a),
        4 => block(memories, a, b, word(c, d), word(e, f)),
        _ => about(kind, word(a, b), c, d),
    }
}

// A loop has to end, and nothing says that an input does: the turns are more than any run uses up.
fn all(memories: &[u8; 21504]) {
    for _ in 0..u64::MAX {
        if !one(memories) {
            return;
        }
    }
}

fn main() {
    let mut memories = [0u8; 21504];
    let n = io::read_full(STDIN_FILENO, &mut memories);
    if n == 21504 {
        all(&memories);
    }
}
