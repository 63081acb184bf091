// Every public call on a chip but the tick.
// A call asks nothing of its caller: what it does not take it refuses by number, with the state unchanged.
#![tactic(auto)]

ghost use Rattle.std.specs.Prelude.{◌≡◌, ◌<◌, Some};
ghost use Rattle.chip.specs.Chip.{answer};
ghost use Rattle.calls.specs.Calls.{register_read, file_written, expand_at, register_written, compares_by, control_stored, control1_written, control2_written, controls_placed, late_at, late_taken, phi1, dma_count, cycles_lost};

use chip::{Answer, Chip};
use registers::Registers;

#[tactic(auto, unfolding(crate::specs::Calls::register_read))]
pub fn read_register(chip: Chip, addr: u16, penx: u8, peny: u8) -> u8
    ensures { result ≡ register_read chip addr penx peny }
{
    let side = chip.side;
    let raster = side.beam.raster;
    chip.regs.read(side.irq, raster, addr, penx, peny)
}

// What the register file and the interrupt latches take of a write.
#[tactic(auto, unfolding(crate::specs::Calls::file_written))]
fn write_file(mut chip: Chip, addr: u16, value: u8) -> Chip
    ensures { result ≡ file_written chip addr value }
{
    chip.regs = chip.regs.write(addr, value);
    chip.side.irq = chip.side.irq.write(addr, value);
    chip
}

// The Y-expand register, written in the state's own cycle.
#[tactic(auto, unfolding(crate::specs::Calls::expand_at))]
pub fn write_y_expand(mut chip: Chip, value: u8) -> Chip
    ensures { result ≡ expand_at chip value }
{
    let beam = chip.side.beam;
    let sprites = chip.side.sprites;
    let yexp = chip.regs.yexp;
    chip.side.sprites = sprites.write_y_expand(beam.kind, value, beam.cycle, yexp);
    chip.regs = chip.regs.expand(value);
    chip
}

// Any register: Y-expand has effects of its own, all others go to the file.
#[tactic(auto, unfolding(crate::specs::Calls::register_written))]
pub fn write_register(chip: Chip, addr: u16, value: u8) -> Chip
    ensures { result ≡ register_written chip addr value }
{
    if addr % 64 == 0x17 {
        return write_y_expand(chip, value);
    }
    write_file(chip, addr, value)
}

// The border compares that ctrl1's RSEL picks.
#[tactic(auto, unfolding(crate::specs::Calls::compares_by))]
pub fn border_compares(mut chip: Chip) -> Chip
    ensures { result ≡ compares_by chip }
{
    let rsel = registers::rsel(chip.regs.ctrl1);
    chip.side.border = chip.side.border.compares(rsel);
    chip
}

// A register file with another control register; a mode bit that changed is told to the next tick.
#[tactic(auto, unfolding(crate::specs::Calls::control_stored))]
fn store_control(mut chip: Chip, stored: Registers) -> Chip
    ensures { result ≡ control_stored chip stored }
{
    let before = registers::mode(chip.regs.ctrl1, chip.regs.ctrl2);
    let after = registers::mode(stored.ctrl1, stored.ctrl2);
    chip.picture.pen.changing |= before != after;
    chip.regs = stored;
    chip
}

// $D011, with its effects on the compare line, the border and the interrupt.
#[tactic(auto, unfolding(crate::specs::Calls::control1_written, crate::specs::Calls::control_stored))]
pub fn write_control_1(mut chip: Chip, value: u8) -> Chip
    ensures { result ≡ control1_written chip value }
{
    let stored = chip.regs.write_control_1(value);
    let side = chip.side;
    let raster = side.beam.raster;
    let now = side.frame.compare(side.irq, raster, stored.compare);
    chip.side.irq = now.irq;
    chip.side.frame = now.frame;
    let rsel = registers::rsel(value);
    chip.side.border = chip.side.border.compares(rsel);
    store_control(chip, stored)
}

// $D016.
#[tactic(auto, unfolding(crate::specs::Calls::control2_written))]
pub fn write_control_2(chip: Chip, value: u8) -> Chip
    ensures { result ≡ control2_written chip value }
{
    store_control(chip, chip.regs.write_control_2(value))
}

#[tactic(auto, unfolding(crate::specs::Calls::controls_placed))]
pub fn place_controls(mut chip: Chip, ctrl1: u8, ctrl2: u8, compare: u16) -> Answer
    ensures { result ≡ controls_placed chip ctrl1 ctrl2 compare }
{
    if 511 < compare {
        return chip::answered(5, chip);
    }
    chip.regs = chip.regs.controls(ctrl1, ctrl2, compare);
    chip::answered(0, chip)
}

// The byte in its place, which waits no more.
fn fill_late(mut chip: Chip, place: u8, byte: u8) -> Chip
    requires { place < 40 }
    ensures { result ≡ late_at chip byte (Some place) }
{
    chip.picture.matrix[usize::from(place)] = access::late_word(byte);
    chip.side.pending.place = None;
    chip
}

// The CPU's byte for a pending place; nothing pending returns the state at once.
#[tactic(auto, using(crate::proofs::Parts::late_small), unfolding(crate::specs::Calls::late_taken))]
pub fn late_byte(chip: Chip, byte: u8) -> Answer
    ensures { result ≡ late_taken chip byte }
{
    let state = chip::state_refusal(chip);
    if state != 0 {
        return chip::answered(state, chip);
    }
    match chip.side.pending.place {
        None => chip::answered(0, chip),
        Some(place) => chip::answered(0, fill_late(chip, place, byte)),
    }
}

#[tactic(auto, unfolding(crate::specs::Calls::phi1))]
pub fn ba_high_at_phi1(chip: Chip) -> bool
    ensures { result ≡ phi1 chip }
{
    let beam = chip.side.beam;
    let sprites = chip.side.sprites;
    arbitration::ba_high_at_phi1(beam.kind, beam.ba, sprites.dma, sprites.prev, beam.cycle)
}

// How many sprites have DMA on.
#[tactic(auto, unfolding(crate::specs::Calls::dma_count))]
pub fn sprite_count(chip: Chip) -> u32
    ensures { result ≡ dma_count chip }
{
    schedule::sprites_in(chip.side.sprites.dma)
}

// How many cycles of its line the CPU has lost so far: no history is read.
#[tactic(auto, unfolding(crate::specs::Calls::cycles_lost))]
pub fn cycles_lost(chip: Chip) -> u64
    ensures { result ≡ cycles_lost chip }
{
    chip.side.bus.lost
}
