// What a chip is: its parts, its state at power-up, and which states are accepted.
#![tactic(auto)]

ghost use Rattle.std.specs.Prelude.{◌≡◌};
ghost use Rattle.rows.specs.Fine.{vmli_limit};
ghost use Rattle.chip.specs.Chip.{answer, powered};
ghost use Rattle.chip.specs.Accept.{aec_fine, clock_fine, place_fine, accepted, state_refusal};

use access::Reads;
use picture::Pen;
use registers::Registers;
use side::Side;

#[derive(Clone, Copy)]
pub struct Picture {
    pub pen: Pen,
    pub matrix: [u16; 40],
    pub pointers: [u8; 8],
    pub bytes: [u8; 24],
    pub words: [u32; 8],
}

#[derive(Clone, Copy)]
pub struct Chip {
    pub regs: Registers,
    pub side: Side,
    pub picture: Picture,
}

// A call's answer: the number of its refusal, 0 for none, the chip, and a tick's reads.
#[derive(Clone, Copy)]
pub struct Answer {
    pub refused: u8,
    pub chip: Chip,
    pub reads: Reads,
}

// What a call answers that has read nothing.
pub fn answered(refused: u8, chip: Chip) -> Answer
    ensures { result ≡ answer refused chip }
{
    Answer {
        refused,
        chip,
        reads: access::no_reads(),
    }
}

// A kind that is not known is kept, for the tick to refuse.
#[tactic(auto, unfolding(crate::specs::Chip::powered))]
pub fn power_up(kind: u8) -> Chip
    ensures { result ≡ powered kind }
{
    Chip {
        regs: Registers::new(),
        side: Side::new(kind),
        picture: Picture {
            pen: Pen::new(),
            matrix: [0; 40],
            pointers: [0; 8],
            bytes: [0; 24],
            words: [0; 8],
        },
    }
}

// ---- acceptance

// The last clock of a state we accept, 2 ^ 62.
const LAST_CLOCK: i64 = 4611686018427387904;

#[tactic(auto, using(crate::proofs::Parts::is_counted))]
fn aec_fine(aec: i8) -> bool
    ensures { result ≡ aec_fine aec }
{
    (-1 <= aec) & (aec <= 3)
}

#[tactic(auto, using(crate::proofs::Parts::is_clock))]
pub fn clock_fine(clock: i64) -> bool
    ensures { result ≡ clock_fine clock }
{
    (0 <= clock) & (clock <= LAST_CLOCK)
}

#[tactic(auto, unfolding(crate::specs::Accept::place_fine))]
fn place_fine(p: Option<u8>) -> bool
    ensures { result ≡ place_fine p }
{
    match p {
        None => true,
        Some(place) => place < 40,
    }
}

// VMLI as an ordinary bad line has it after a cycle.
#[tactic(auto, using(rows::proofs::Laws::whole, rows::proofs::Laws::behind))]
fn vmli_limit(cycle: u16) -> u16
    ensures { result ≡ vmli_limit cycle }
{
    if !schedule::vmli_counts(cycle) {
        return 40;
    }
    cycle.saturating_sub(schedule::FIRST_CHARACTER)
}

// Whether a tick takes this state.
#[tactic(auto, unfolding(crate::specs::Accept::accepted))]
pub fn is_accepted(chip: Chip) -> bool
    ensures { result ≡ accepted chip }
{
    let side = chip.side;
    let kind = side.beam.kind;
    schedule::is_known(kind)
        & (1 <= side.beam.cycle)
        & (side.beam.cycle <= schedule::last_cycle(kind))
        & (side.beam.raster <= schedule::last_line(kind))
        & (chip.regs.compare <= 511)
        & aec_fine(side.bus.aec)
        & (side.rows.vc <= 1023)
        & (side.rows.vcbase <= 1023)
        & (side.rows.rc <= 7)
        & (u16::from(side.rows.vmli) <= vmli_limit(side.beam.cycle))
        & side.sprites.fine()
        & place_fine(side.pending.place)
        & clock_fine(side.bus.clock)
        & clock_fine(chip.picture.pen.forced)
        & (side.bus.lost <= u64::from(side.beam.cycle))
}

// Why a tick or a late byte does not take this state: 0 where it does.
#[tactic(auto, unfolding(crate::specs::Accept::state_refusal))]
pub fn state_refusal(chip: Chip) -> u8
    ensures { result ≡ state_refusal chip }
{
    if !schedule::is_known(chip.side.beam.kind) {
        return 12;
    }
    if !is_accepted(chip) {
        return 3;
    }
    0
}
