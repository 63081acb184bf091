// The dump of a run file: what the driver has to tell of each turn, as pieces of text in a lent buffer; and that text written out, a block at a time.
#![tactic(auto)]

ghost use Rattle.std.specs.Prelude.{◌≡◌, ◌+◌, ◌≤◌, length};
ghost use Rattle.line.specs.Text.{Written};
ghost use Rattle.driver.specs.Driver.{store, store_at};
ghost use Rattle.sheet.specs.Chart.{Ends};
ghost use Rattle.vcd.specs.Text.{piece_of, wave_after};
ghost use Rattle.wave.specs.Wave.{record_of};
ghost use Rattle.tape.specs.Dump.{played_of, dump_of};
ghost use Rattle.tape.specs.Machinery.Tape.{text_by, wave_by, begun_of, roomed, said_on, tape_on};

use chip::Chip;
use driver::{Event, Run};
use script::Found;
use vcd::Wave;

// A run on its way: the ticks written so far, and the text goes on at `at`.
#[derive(Clone, Copy)]
pub struct Tape {
    pub run: Run,
    pub wave: Wave,
    pub at: usize,
}

// The same of a turn.
#[derive(Clone, Copy)]
pub struct Noted {
    pub wave: Wave,
    pub at: usize,
}

fn begun(kind: u8, at: usize) -> Tape
    ensures { result ≡ begun_of kind at }
{
    Tape {
        run: driver::begun(kind),
        wave: vcd::fresh(),
        at,
    }
}

// ---- the text

// A tick's piece.
fn tick(out: &mut [u8], at: usize, chip: Chip, wave: Wave) -> Noted
    requires { at + 292 ≤ length out.old }
    ensures { (result.at ≤ at + 292) × (result.wave ≡ wave_after wave (record_of chip)) × Written out.old at (piece_of wave (record_of chip)) out.new result.at }
{
    let values = wave::record_of(chip);
    let end = vcd::piece(out, at, wave, values);
    Noted {
        wave: vcd::after(wave, values),
        at: end,
    }
}

// What the dump says of a turn.
fn told(out: &mut [u8], at: usize, event: Event, run: Run, wave: Wave) -> Noted
    requires { at + 292 ≤ length out.old }
    ensures { (result.at ≤ at + 292) × (result.wave ≡ wave_by event run.chip wave) × Written out.old at (text_by event run.chip run.done wave) out.new result.at }
{
    match event {
        Event::Nothing => Noted { wave, at },
        Event::Steps(_) => Noted { wave, at },
        Event::Tick => tick(out, at, run.chip, wave),
        Event::Refused(number) => {
            let end = vcd::refused(out, at, number, run.done);
            Noted { wave, at: end }
        }
    }
}

// What was read, done.
fn turn(
    before: Tape,
    found: Found,
    ram: &mut [u8],
    rom: &mut [u8],
    colour: &mut [u8],
    out: &mut [u8],
) -> Tape
    requires { before.at + 292 ≤ length out.old }
    ensures at_bound { result.at ≤ before.at + 292 }
    ensures value { result ≡ tape_on (store ram.old rom.old colour.old) before found }
    ensures written { Written out.old before.at (said_on (store ram.old rom.old colour.old) before found) out.new result.at }
    ensures colour_after { store ram.new rom.new colour.new ≡ store_at (store ram.old rom.old colour.old) found.item }
{
    let made = driver::turn(before.run, found, ram, rom, colour);
    let noted = told(out, before.at, made.event, made.run, before.wave);
    Tape {
        run: made.run,
        wave: noted.wave,
        at: noted.at,
    }
}

// ---- the blocks

// Room for a piece: where there is none, what is there is written out.
fn with_room(before: Tape, out: &[u8]) -> Tape
    requires { before.at ≤ length out.now }
    ensures { result ≡ roomed before }
{
    let at = sheet::room(out, before.at, 65244);
    Tape { at, ..before }
}

// The whole dump of a run on a kind of chip to standard output, and the run as it ended. The memory that is lent is the run's own, and starts 0.
pub fn print(
    kind: u8,
    input: &[u8],
    ram: &mut [u8],
    rom: &mut [u8],
    colour: &mut [u8],
    out: &mut [u8],
) -> Tape
    requires { 65536 ≡ length out.old }
    ensures run_value { result.run ≡ (played_of kind (store ram.old rom.old colour.old) input.now).run }
    ensures colour_after { store ram.new rom.new colour.new ≡ (played_of kind (store ram.old rom.old colour.old) input.now).store }
    ensures ends { Ends (dump_of kind (store ram.old rom.old colour.old) input.now) out.new result.at }
{
    let start = vcd::declare(out, 0);
    let mut tape = begun(kind, start);
    while tape.run.going {
        let roomy = with_room(tape, out);
        let found = roomy.run.cursor.next(input);
        tape = turn(roomy, found, ram, rom, colour, out);
    }
    sheet::flush(out, tape.at);
    tape
}
