// Three frames from power-up: the cycle, the raster line and the clock, as they are counted on paper.
#![tactic(auto)]

use chip::Answer;
use streams::STDOUT_FILENO;

fn space(fd: i32) {
    io::write_all(fd, b" ");
}

fn show(answer: Answer) {
    let side = answer.chip.side;
    io::print_decimal(STDOUT_FILENO, u64::from(answer.refused));
    space(STDOUT_FILENO);
    io::print_decimal(STDOUT_FILENO, u64::from(side.beam.cycle));
    space(STDOUT_FILENO);
    io::print_decimal(STDOUT_FILENO, u64::from(side.beam.raster));
    space(STDOUT_FILENO);
    io::print_decimal(STDOUT_FILENO, whole(side.bus.clock));
    io::write_all(STDOUT_FILENO, b"\n");
}

// A clock as a plain number; 0 where it is below zero, which no accepted state has.
fn whole(clock: i64) -> u64 {
    u64::try_from(clock).unwrap_or(0)
}

fn main() {
    let ram = [0u8; 16384];
    let rom = [0u8; 4096];
    let colour = [0u8; 1024];
    let start = chip::power_up(schedule::KIND_6569);
    show(sequencer::ticks(start, &ram, &rom, &colour, 0, 63));
    show(sequencer::ticks(start, &ram, &rom, &colour, 0, 19656));
    show(sequencer::ticks(start, &ram, &rom, &colour, 0, 58968));
}
