// A chip as a waveform viewer shows it: the declarations, and the tick that writes its piece into a lent buffer.
#![tactic(auto)]

ghost use Rattle.std.specs.Prelude.{◌≡◌, ◌≤◌, length};
ghost use Rattle.memory.specs.Lent.{host};
ghost use Rattle.wave.specs.Wave.{record_of, declared_in, told, heard, wrote_tick, number_of, tick_heard};

use chip::Chip;
use vcd::{Record, Wave};

// The number of the refusal, 0 for none, and how many bytes are written.
#[derive(Clone, Copy)]
pub struct Wrote {
    pub refused: u8,
    pub length: usize,
}

// The same of a tick, with the chip and the dump after it.
#[derive(Clone, Copy)]
pub struct Told {
    pub refused: u8,
    pub chip: Chip,
    pub wave: Wave,
    pub length: usize,
}

// A chip's values after a tick: 0 is low, and the interrupt line is low while the chip asks.
pub fn record_of(chip: Chip) -> Record
    ensures { result ≡ record_of chip }
{
    Record {
        cycle: chip.side.beam.cycle,
        raster: chip.side.beam.raster,
        ba: laws::pick(chip.side.bus.balow, 0, 1),
        aec: laws::pick(chip.side.bus.aeclow, 0, 1),
        dma: u16::from(chip.side.sprites.dma),
        rc: u16::from(chip.side.rows.rc),
        vc: chip.side.rows.vc,
        irq: laws::pick(chip.side.irq.line, 0, 1),
    }
}

// The declarations, at the start of the buffer.
pub fn declare(out: &mut [u8]) -> Wrote
    ensures { (result ≡ (declared_in out.old).wrote) × (out.new ≡ (declared_in out.old).out) }
{
    if out.len() < 292 {
        return Wrote {
            refused: 13,
            length: 0,
        };
    }
    let n = vcd::declare(out, 0);
    Wrote {
        refused: 0,
        length: n,
    }
}

fn answer(refused: u8, chip: Chip, wave: Wave, length: usize) -> Told
    ensures { result ≡ told refused chip wave length }
{
    Told {
        refused,
        chip,
        wave,
        length,
    }
}

// A tick that is done: its piece.
fn with_piece(chip: Chip, wave: Wave, out: &mut [u8]) -> Told
    requires { 292 ≤ length out.old }
    ensures { heard result out.new ≡ wrote_tick chip wave out.old }
{
    let values = record_of(chip);
    let n = vcd::piece(out, 0, wave, values);
    answer(0, chip, vcd::after(wave, values), n)
}

// The number of the tick's refusal, and 13 after it.
fn number(refused: u8, room: usize) -> u8
    ensures { result ≡ number_of refused room }
{
    if refused != 0 {
        return refused;
    }
    if room < 292 {
        return 13;
    }
    0
}

// One tick, and its piece at the start of the buffer.
pub fn tick(
    chip: Chip,
    wave: Wave,
    ram: &[u8],
    rom: &[u8],
    colour: &[u8],
    bank: u8,
    out: &mut [u8],
) -> Told
    ensures value { result ≡ (tick_heard (host ram.now rom.now colour.now bank) chip wave out.old).told }
    ensures out_after { out.new ≡ (tick_heard (host ram.now rom.now colour.now bank) chip wave out.old).out }
{
    let t = sequencer::tick(chip, ram, rom, colour, bank);
    let n = number(t.refused, out.len());
    if n != 0 {
        return answer(n, chip, wave, 0);
    }
    with_piece(t.chip, wave, out)
}
