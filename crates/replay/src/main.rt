// Answers saved cases, one after the other: a call, what it is called with and the chip before it go in,
// the refusal, the answer, what a tick read and the chip after it come out. The format is `Replay`.
#![tactic(auto)]

use chip::{Answer, Chip};
use script::Step;
use streams::{STDIN_FILENO, STDOUT_FILENO};

// What the host lends, cut once from the one run of bytes.
#[derive(Clone, Copy)]
struct Memories<'a> {
    ram: &'a [u8],
    rom: &'a [u8],
    colour: &'a [u8],
}

fn cut<'a>(all: &'a [u8; 21504]) -> Memories<'a> {
    Memories {
        ram: &all[..16384],
        rom: &all[16384..20480],
        colour: &all[20480..],
    }
}

// A call of a case, and what it is called with; a step is one that a run file has too.
#[derive(Clone, Copy)]
enum Call {
    Do(Step),
    Read(u16, u8, u8),
    HighAtPhi1,
    DmaCount,
    Lost,
    PowerUp(u8),
    Line,
    Ticks(u16),
}

// The call of a number: up to 5 the numbers are a run file's kinds, 6 is retired, and 15 is the last.
fn call_of(number: u8, a: u8, b: u8, c: u8, d: u8) -> Option<Call> {
    match number {
        0 => Some(Call::Do(Step::Tick)),
        1 => Some(Call::Do(Step::Write(a, b))),
        2 => Some(Call::Do(Step::Expand(a))),
        3 => Some(Call::Do(Step::Controls(a, b, u16::from_le_bytes([c, d])))),
        4 => Some(Call::Do(Step::Late(a))),
        5 => Some(Call::Do(Step::Borders)),
        7 => Some(Call::Read(u16::from(a), b, c)),
        8 => Some(Call::HighAtPhi1),
        9 => Some(Call::DmaCount),
        10 => Some(Call::Do(Step::Control1(a))),
        11 => Some(Call::Do(Step::Control2(a))),
        12 => Some(Call::PowerUp(a)),
        13 => Some(Call::Lost),
        14 => Some(Call::Line),
        15 => Some(Call::Ticks(u16::from_le_bytes([a, b]))),
        _ => None,
    }
}

// What a call leaves: the chip's answer, and the number that a question is answered with.
#[derive(Clone, Copy)]
struct Told {
    answer: Answer,
    value: u16,
}

fn valued(value: u16, chip: Chip) -> Told {
    Told {
        answer: chip::answered(0, chip),
        value,
    }
}

fn answered(answer: Answer) -> Told {
    Told { answer, value: 0 }
}

// A step of a run file, done as a run does it.
fn stepped(chip: Chip, memories: Memories<'_>, bank: u8, step: Step) -> Told {
    let done = run::step(
        chip,
        bank,
        step,
        memories.ram,
        memories.rom,
        memories.colour,
    );
    answered(Answer {
        refused: done.refused,
        chip: done.chip,
        reads: done.reads,
    })
}

// The next line as a whole.
fn lined(chip: Chip, memories: Memories<'_>, bank: u8) -> Told {
    answered(sequencer::line(chip, memories.ram, memories.rom, memories.colour, bank))
}

// Ticks in one call.
fn together(chip: Chip, memories: Memories<'_>, bank: u8, n: u64) -> Told {
    answered(sequencer::ticks(chip, memories.ram, memories.rom, memories.colour, bank, n))
}

fn high_at_phi1(chip: Chip) -> u16 {
    calls::ba_high_at_phi1(chip) as u16
}

fn dma_count(chip: Chip) -> u16 {
    (calls::sprite_count(chip) % 65536) as u16
}

fn lost(chip: Chip) -> u16 {
    (calls::cycles_lost(chip) % 65536) as u16
}

fn perform(chip: Chip, memories: Memories<'_>, bank: u8, call: Call) -> Told {
    match call {
        Call::Do(step) => stepped(chip, memories, bank, step),
        Call::Read(address, x, y) => {
            valued(u16::from(calls::read_register(chip, address, x, y)), chip)
        }
        Call::HighAtPhi1 => valued(high_at_phi1(chip), chip),
        Call::DmaCount => valued(dma_count(chip), chip),
        Call::Lost => valued(lost(chip), chip),
        Call::PowerUp(kind) => valued(0, chip::power_up(kind)),
        Call::Line => lined(chip, memories, bank),
        Call::Ticks(n) => together(chip, memories, bank, u64::from(n)),
    }
}

// Writes one answer; false where that fails.
fn tell(told: Told) -> bool {
    let Answer {
        refused,
        chip,
        reads,
    } = told.answer;
    let [low, high] = told.value.to_le_bytes();
    let [first_low, first_high] = reads.first.address.to_le_bytes();
    let [second_low, second_high] = reads.second.address.to_le_bytes();
    let head = [
        refused,
        low,
        high,
        reads.first.reason,
        first_low,
        first_high,
        reads.second.reason,
        second_low,
        second_high,
    ];
    let mut body = [0u8; 311];
    scene::encode(chip, &mut body);
    io::write_all(STDOUT_FILENO, &head) && io::write_all(STDOUT_FILENO, &body)
}

// Answers one case that is whole; false where the run ends before it.
fn answer(case: [u8; 6], body: &[u8], memories: Memories<'_>) -> bool {
    let [number, bank, a, b, c, d] = case;
    let Ok(chip) = scene::decode_newest(body) else {
        return false;
    };
    let Some(call) = call_of(number, a, b, c, d) else {
        return false;
    };
    tell(perform(chip, memories, bank, call))
}

// One case from the input to the output; false where the run ends.
fn one(memories: Memories<'_>) -> bool {
    let mut case = [0u8; 6];
    let mut body = [0u8; 311];
    let called = io::read_full(STDIN_FILENO, &mut case);
    let read = io::read_full(STDIN_FILENO, &mut body);
    called == 6 && read == 311 && answer(case, &body, memories)
}

// A loop has to end, and nothing says that an input does: the turns are more than any run uses up.
fn all(memories: Memories<'_>) {
    for _ in 0..u64::MAX {
        if !one(memories) {
            return;
        }
    }
}

fn main() {
    let mut memories = [0u8; 21504];
    let n = io::read_full(STDIN_FILENO, &mut memories);
    if n == 21504 {
        all(cut(&memories));
    }
}
