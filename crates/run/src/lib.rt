// A run file's step, done on a chip: one call of the sequencer, or another bank.
#![tactic(auto)]

ghost use Rattle.std.specs.Prelude.{◌≡◌};
ghost use Rattle.memory.specs.Lent.{host};
ghost use Rattle.run.specs.Run.{from_answer, from_chip, done_of};

use access::Reads;
use chip::{Answer, Chip};
use script::Step;

// The number of the refusal, 0 for none, the chip and the bank after the step, and a tick's reads.
#[derive(Clone, Copy)]
pub struct Done {
    pub refused: u8,
    pub chip: Chip,
    pub bank: u8,
    pub reads: Reads,
}

// A call's answer, the bank as it was.
fn from_answer(answer: Answer, bank: u8) -> Done
    ensures { result ≡ from_answer answer bank }
{
    Done {
        refused: answer.refused,
        chip: answer.chip,
        bank,
        reads: answer.reads,
    }
}

// What a call that refuses nothing and reads nothing leaves.
fn from_chip(chip: Chip, bank: u8) -> Done
    ensures { result ≡ from_chip chip bank }
{
    Done {
        refused: 0,
        chip,
        bank,
        reads: access::no_reads(),
    }
}

// One step of a run file on a chip, with the memory that the host lends.
#[tactic(auto, unfolding(crate::specs::Run::done_of))]
pub fn step(chip: Chip, bank: u8, step: Step, ram: &[u8], rom: &[u8], colour: &[u8]) -> Done
    ensures { result ≡ done_of (host ram.now rom.now colour.now bank) chip step }
{
    match step {
        Step::Tick => from_answer(sequencer::tick(chip, ram, rom, colour, bank), bank),
        Step::Write(address, value) => from_chip(
            calls::write_register(chip, u16::from(address), value),
            bank,
        ),
        Step::Expand(value) => from_chip(calls::write_y_expand(chip, value), bank),
        Step::Controls(ctrl1, ctrl2, compare) => from_answer(
            calls::place_controls(chip, ctrl1, ctrl2, compare),
            bank,
        ),
        Step::Late(value) => from_answer(calls::late_byte(chip, value), bank),
        Step::Borders => from_chip(calls::border_compares(chip), bank),
        Step::Bank(next) => from_chip(chip, next),
        Step::Control1(value) => from_chip(calls::write_control_1(chip, value), bank),
        Step::Control2(value) => from_chip(calls::write_control_2(chip, value), bank),
    }
}
