// Works a scene through steps again and again, for a clock that stands outside: `bench/run` times it beside the original.
// In: the three memories, a scene, the bank, 1 for ticks one by one or 0 for runs of ticks, the turns (4 bytes),
// and steps to the end of the input, each a register's address, its value and a count of ticks (2 bytes).
// Out: the scene afterwards.
#![tactic(auto)]

use chip::Chip;
use streams::{STDIN_FILENO, STDOUT_FILENO};

// What the host lends, cut once from the one run of bytes.
#[derive(Clone, Copy)]
struct Memories<'a> {
    ram: &'a [u8],
    rom: &'a [u8],
    colour: &'a [u8],
}

fn cut<'a>(all: &'a [u8; 21504]) -> Memories<'a> {
    Memories {
        ram: &all[..16384],
        rom: &all[16384..20480],
        colour: &all[20480..],
    }
}

fn single(chip: Chip, memories: Memories<'_>, bank: u8) -> Chip {
    sequencer::tick(chip, memories.ram, memories.rom, memories.colour, bank).chip
}

fn one_by_one(chip: Chip, memories: Memories<'_>, bank: u8, n: u64) -> Chip {
    let mut at = chip;
    for _ in 0..n {
        at = single(at, memories, bank);
    }
    at
}

fn together(chip: Chip, memories: Memories<'_>, bank: u8, n: u64) -> Chip {
    sequencer::ticks(chip, memories.ram, memories.rom, memories.colour, bank, n).chip
}

// A register write, and the ticks after it.
fn step(chip: Chip, memories: Memories<'_>, bank: u8, apart: bool, step: &[u8; 4]) -> Chip {
    let [address, value, low, high] = *step;
    let written = calls::write_register(chip, u16::from(address), value);
    let count = u64::from(u16::from_le_bytes([low, high]));
    if apart {
        return one_by_one(written, memories, bank, count);
    }
    together(written, memories, bank, count)
}

// One turn through the steps; bytes at their end that are no whole step are passed over.
fn turn(chip: Chip, memories: Memories<'_>, bank: u8, apart: bool, steps: &[u8]) -> Chip {
    let mut at = chip;
    for bytes in steps.as_chunks::<4>().0 {
        at = step(at, memories, bank, apart, bytes);
    }
    at
}

// So many turns; without a whole step they leave the chip as it is.
fn turns(chip: Chip, memories: Memories<'_>, bank: u8, apart: bool, steps: &[u8], n: u64) -> Chip {
    if steps.len() < 4 {
        return chip;
    }
    let mut at = chip;
    for _ in 0..n {
        at = turn(at, memories, bank, apart, steps);
    }
    at
}

fn tell(chip: Chip) {
    let mut body = [0u8; 311];
    scene::encode(chip, &mut body);
    io::write_all(STDOUT_FILENO, &body);
}

fn pace(body: &[u8], head: [u8; 6], steps: &[u8], memories: Memories<'_>) {
    let Ok(chip) = scene::decode_newest(body) else {
        return;
    };
    let [bank, apart, a, b, c, d] = head;
    let n = u64::from(u32::from_le_bytes([a, b, c, d]));
    tell(turns(chip, memories, bank, apart == 1, steps, n));
}

fn main() {
    let mut memories = [0u8; 21504];
    let mut body = [0u8; 311];
    let mut head = [0u8; 6];
    let mut steps = [0u8; 16384];
    let lent = io::read_full(STDIN_FILENO, &mut memories);
    let read = io::read_full(STDIN_FILENO, &mut body);
    let told = io::read_full(STDIN_FILENO, &mut head);
    let n = io::read_full(STDIN_FILENO, &mut steps);
    if lent == 21504 && read == 311 && told == 6 && n <= 16384 {
        pace(&body, head, &steps[..n], cut(&memories));
    }
}
