// The dump's public calls at work: the declarations and seventy ticks from power-up, each piece in a buffer of 292 bytes;
// then the numbers of six refusals in one that is a byte too short, one a line.
#![tactic(auto)]

use chip::Chip;
use streams::STDOUT_FILENO;

// The bytes that a call wrote.
fn show(out: &[u8], n: usize) {
    if n <= out.len() {
        io::write_all(STDOUT_FILENO, &out[..n]);
    }
}

// A number, on a line.
fn tell(number: u8) {
    let mut text = [0u8; 6];
    let end = line::put(&mut text, 0, u16::from(number), b'\n');
    show(&text, end);
}

fn declare(out: &mut [u8]) {
    let wrote = wave::declare(out);
    show(out, wrote.length);
}

// Ticks from power-up, and the last chip.
fn ticks(n: u16, ram: &[u8], rom: &[u8], colour: &[u8], out: &mut [u8]) -> Chip {
    let mut chip = chip::power_up(schedule::KIND_6569);
    let mut wave = vcd::fresh();
    for _ in 0..n {
        let told = wave::tick(chip, wave, ram, rom, colour, 0, out);
        show(out, told.length);
        chip = told.chip;
        wave = told.wave;
    }
    chip
}

fn refused(chip: Chip, ram: &[u8], bank: u8, out: &mut [u8]) {
    let rom = [0u8; 4096];
    let colour = [0u8; 1024];
    let told = wave::tick(chip, vcd::fresh(), ram, &rom, &colour, bank, out);
    tell(told.refused);
}

// A chip whose cycle no line has.
fn astray(mut chip: Chip) -> Chip {
    chip.side.beam.cycle = 64;
    chip
}

// A chip whose clock takes no tick more.
fn worn(mut chip: Chip) -> Chip {
    chip.side.bus.clock = 4611686018427387904;
    chip
}

// With a buffer that is a byte too short: 1 to 4 come before 13.
fn refusals(chip: Chip) {
    let ram = [0u8; 16384];
    let mut out = [0u8; 291];
    refused(chip, &ram[..0], 0, &mut out);
    refused(chip, &ram, 4, &mut out);
    refused(astray(chip), &ram, 0, &mut out);
    refused(worn(chip), &ram, 0, &mut out);
    refused(chip, &ram, 0, &mut out);
    tell(wave::declare(&mut out).refused);
}

fn main() {
    let ram = [0u8; 16384];
    let rom = [0u8; 4096];
    let colour = [0u8; 1024];
    let mut out = [0u8; 292];
    declare(&mut out);
    refusals(ticks(70, &ram, &rom, &colour, &mut out));
}
