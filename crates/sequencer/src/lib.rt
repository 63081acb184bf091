// The tick, a line as a whole, and runs of both.
// A call asks nothing of its caller: what it does not take it refuses by number, with the state unchanged.
#![tactic(auto)]

ghost use Rattle.std.specs.Prelude.{◌≡◌, Bool, not, ◌-◌, ◌<◌, ◌≤◌};
ghost use Rattle.laws.specs.Clock.{InRange, CanTick};
ghost use Rattle.memory.specs.Lent.{host, seen};
ghost use Rattle.schedule.specs.Kind.{kind_of, last_cycle};
ghost use Rattle.schedule.specs.Machinery.Stretches.{before_graphics};
ghost use Rattle.access.specs.Reads.{told};
ghost use Rattle.access.specs.Machinery.Noted.{reads_in};
ghost use Rattle.world.specs.World.{chip_of, world_of};
ghost use Rattle.engine.specs.World.{world_in};
ghost use Rattle.world.specs.Tick.{tick_world, tick_reads};
ghost use Rattle.sequencer.specs.Tick.{tickable, ticked, ticks_from};
ghost use Rattle.sequencer.specs.Line.{at_line_end, lineable, lined, lines_from};
ghost use Rattle.sequencer.specs.Machinery.Parts.{Ready, Held, Roomy, Part, tested_from, answered};
ghost use Rattle.sequencer.specs.Machinery.Skip.{skippable_by, skipped, core_later};

use access::Slots;
use chip::{Answer, Chip, Picture};
use engine::{Arrays, Core};
use memory::Host;
use registers::Registers;

// What a tick leaves, and its reads in one number.
#[derive(Clone, Copy)]
pub struct Stepped {
    pub core: Core,
    pub noted: u64,
}

// How many ticks a part of a run did, what it left, and what its last tick read.
#[derive(Clone, Copy)]
pub struct Gone {
    pub done: u64,
    pub core: Core,
    pub noted: u64,
}

// How a run ended: the number of its refusal, what it left, and what its last tick read.
#[derive(Clone, Copy)]
pub struct Ran {
    pub refused: u8,
    pub core: Core,
    pub noted: u64,
}

// One tick over the lent arrays, in a cycle with a graphics access.
#[tactic(auto, using(crate::proofs::Glue::can_range))]
fn inner_lit(core: Core, regs: Registers, arrays: &mut Arrays, host: &Host<'_>) -> Stepped
    requires ready { Ready (world_in core arrays.old) }
    requires lit { before_graphics core.side.beam.cycle ≡ Bool.true }
    ensures world { world_in result.core arrays.new ≡ tick_world (seen host.now) regs (world_in core arrays.old) }
    ensures reads { reads_in result.noted ≡ told (tick_reads (seen host.now) regs (world_in core arrays.old)) }
{
    let g = registers::timed(regs);
    let turned = side::turn_lit(core.side, g);
    let mode = registers::mode(regs.ctrl1, regs.ctrl2);
    let clock = turned.side.bus.clock;
    let drawn = picture::draw(
        core.pen,
        turned.orders,
        clock,
        mode,
        regs.ptrs,
        &mut arrays.matrix,
        host,
    );
    let noted = picture::noted_lit(turned.orders, drawn.spots);
    Stepped {
        core: Core {
            side: turned.side,
            pen: drawn.pen,
        },
        noted,
    }
}

// One tick over the lent arrays, in a cycle without one.
#[tactic(auto, using(crate::proofs::Glue::can_range))]
fn inner_dark(core: Core, regs: Registers, arrays: &mut Arrays, host: &Host<'_>) -> Stepped
    requires ready { Ready (world_in core arrays.old) }
    requires dark { before_graphics core.side.beam.cycle ≡ Bool.false }
    ensures world { world_in result.core arrays.new ≡ tick_world (seen host.now) regs (world_in core arrays.old) }
    ensures reads { reads_in result.noted ≡ told (tick_reads (seen host.now) regs (world_in core arrays.old)) }
{
    let g = registers::timed(regs);
    let turned = side::turn_dark(core.side, g);
    let slot = picture::slot(&mut arrays.slots, turned.orders, regs.ptrs, &host.memory);
    let mode = registers::mode(regs.ctrl1, regs.ctrl2);
    let clock = turned.side.bus.clock;
    let drawn = picture::draw_dark(
        core.pen,
        turned.orders,
        clock,
        mode,
        regs.ptrs,
        &mut arrays.matrix,
        host,
    );
    let noted = picture::noted_dark(turned.orders, slot, drawn.spots);
    Stepped {
        core: Core {
            side: turned.side,
            pen: drawn.pen,
        },
        noted,
    }
}

// ---- ticks that only count are counted and not done, but for the last

// Whether a tick after the left compares and before the last graphics access leaves only its own byte and what it counts.
#[tactic(auto, unfolding(crate::specs::Machinery::Skip::skippable_by))]
fn skippable(core: Core, regs: Registers) -> bool
    ensures { result ≡ skippable_by regs core }
{
    let yscroll = registers::yscroll(regs.ctrl1);
    let counts = side::only_counts(core.side, yscroll);
    let rows = core.side.rows;
    counts & !core.pen.changing & (core.side.border.disabled | !rows.display | (rows.rc != 0))
}

// How many ticks to skip before one that is done, with some left to do.
#[tactic(auto, using(crate::proofs::Skip::skips_none, crate::proofs::Skip::skips_high, crate::proofs::Skip::skips_most, crate::proofs::Skip::skips_rest))]
fn skips(able: bool, cycle: u16, left: u64) -> u8
    requires { 0 < left }
    ensures { result ≡ skipped able cycle left }
{
    let within = able & (schedule::COUNTED_FROM <= cycle) & (cycle <= schedule::COUNTED_LAST);
    if !within {
        return 0;
    }
    let most = schedule::COUNTED_LAST + 1 - cycle;
    if (most as u64) < left {
        return most as u8;
    }
    (left - 1) as u8
}

fn leap(core: Core, k: u8) -> Core
    requires clock { InRange core.side.bus.clock }
    requires cycle { core.side.beam.cycle < 66 }
    ensures { result ≡ core_later k core }
{
    let side = side::leap(core.side, k);
    Core { side, ..core }
}

// Ticks while each has a graphics access, as far as n and the clock go.
#[tactic(auto, using(crate::proofs::Staged::stopped_at, crate::proofs::Staged::ended_at))]
fn lit_run(core: Core, regs: Registers, arrays: &mut Arrays, host: &Host<'_>, n: u64) -> Gone
    requires held { Held (seen host.now) regs (world_in core arrays.old) }
    requires room { Roomy n core.side.bus.clock }
    ensures { Part (seen host.now) regs n (before_graphics core.side.beam.cycle) (world_in core arrays.old) result.done (world_in result.core arrays.new) (reads_in result.noted) }
{
    let mut now = core;
    let mut noted = 0u64;
    let mut i = 0u64;
    while i < n {
        let cycle = now.side.beam.cycle;
        let lit = schedule::before_graphics(cycle);
        if !lit {
            return Gone {
                done: i,
                core: now,
                noted,
            };
        }
        let able = skippable(now, regs);
        let k = skips(able, cycle, n - i);
        let later = leap(now, k);
        let stepped = inner_lit(later, regs, arrays, host);
        now = stepped.core;
        noted = stepped.noted;
        i += 1 + k as u64;
    }
    Gone {
        done: n,
        core: now,
        noted,
    }
}

// Ticks while none has one.
#[tactic(auto, using(crate::proofs::Staged::stopped_at, crate::proofs::Staged::ended_at))]
fn dark_run(core: Core, regs: Registers, arrays: &mut Arrays, host: &Host<'_>, n: u64) -> Gone
    requires held { Held (seen host.now) regs (world_in core arrays.old) }
    requires room { Roomy n core.side.bus.clock }
    ensures { Part (seen host.now) regs n (not (before_graphics core.side.beam.cycle)) (world_in core arrays.old) result.done (world_in result.core arrays.new) (reads_in result.noted) }
{
    let mut now = core;
    let mut noted = 0u64;
    for i in 0..n {
        let lit = schedule::before_graphics(now.side.beam.cycle);
        if lit {
            return Gone {
                done: i,
                core: now,
                noted,
            };
        }
        let stepped = inner_dark(now, regs, arrays, host);
        now = stepped.core;
        noted = stepped.noted;
    }
    Gone {
        done: n,
        core: now,
        noted,
    }
}

// Ticks of one part of a line.
fn stage(core: Core, regs: Registers, arrays: &mut Arrays, host: &Host<'_>, n: u64) -> Gone
    requires held { Held (seen host.now) regs (world_in core arrays.old) }
    requires room { Roomy n core.side.bus.clock }
    ensures { Part (seen host.now) regs n Bool.true (world_in core arrays.old) result.done (world_in result.core arrays.new) (reads_in result.noted) }
{
    let lit = schedule::before_graphics(core.side.beam.cycle);
    if lit {
        return lit_run(core, regs, arrays, host, n);
    }
    dark_run(core, regs, arrays, host, n)
}

#[tactic(auto, using(crate::proofs::Clock::is_tickable))]
fn can_tick(clock: i64) -> bool
    ensures { result ≡ tickable clock }
{
    clock <= 4611686018427387902
}

fn can_line(kind: u8, clock: i64) -> bool
    ensures { result ≡ lineable (kind_of kind) clock }
{
    if kind == schedule::KIND_6567R8 {
        return clock <= 4611686018427387774;
    }
    clock <= 4611686018427387778
}

// How many ticks a part of a run may do at most: all of them are ones that the clock takes.
#[tactic(auto, using(crate::proofs::Staged::fits_one, crate::proofs::Staged::fits_some))]
fn fitting(n: u64, clock: i64) -> u64
    requires some { 0 < n }
    requires clock { CanTick clock }
    ensures some { 0 < result }
    ensures within { result ≤ n }
    ensures room { Roomy result clock }
{
    if 4611686018427387776 < clock {
        return 1;
    }
    if n < 63 {
        return n;
    }
    63
}

// Ticks over the lent arrays, until n are done or the clock can take no more.
#[tactic(auto, using(crate::proofs::Runs::all_done))]
fn run(core: Core, regs: Registers, arrays: &mut Arrays, host: &Host<'_>, n: u64) -> Ran
    requires { Held (seen host.now) regs (world_in core arrays.old) }
    ensures { answered result.refused (chip_of regs (world_in result.core arrays.new)) (reads_in result.noted) ≡ ticks_from (seen host.now) n (chip_of regs (world_in core arrays.old)) }
{
    let mut now = core;
    let mut noted = 0u64;
    let mut done = 0u64;
    while done < n {
        let clock = now.side.bus.clock;
        let can = can_tick(clock);
        if !can {
            return Ran {
                refused: 4,
                core: now,
                noted: 0,
            };
        }
        let most = fitting(n - done, clock);
        let gone = stage(now, regs, arrays, host, most);
        now = gone.core;
        noted = gone.noted;
        done += gone.done;
    }
    Ran {
        refused: 0,
        core: now,
        noted,
    }
}

// ---- a chip taken apart for a run, and put together after it

// The picture's arrays, to be lent to a run.
fn arrays_of(picture: Picture) -> Arrays
    ensures matrix { result.matrix ≡ picture.matrix }
    ensures pointers { result.slots.pointers ≡ picture.pointers }
    ensures bytes { result.slots.bytes ≡ picture.bytes }
    ensures words { result.slots.words ≡ picture.words }
{
    let matrix = picture.matrix;
    let pointers = picture.pointers;
    let bytes = picture.bytes;
    let words = picture.words;
    let slots = Slots {
        pointers,
        bytes,
        words,
    };
    Arrays { matrix, slots }
}

// The answer of a run that is over.
fn ended(regs: Registers, ran: Ran, arrays: Arrays) -> Answer
    ensures { result ≡ answered ran.refused (chip_of regs (world_in ran.core arrays)) (reads_in ran.noted) }
{
    let matrix = arrays.matrix;
    let pointers = arrays.slots.pointers;
    let bytes = arrays.slots.bytes;
    let words = arrays.slots.words;
    let picture = Picture {
        pen: ran.core.pen,
        matrix,
        pointers,
        bytes,
        words,
    };
    let chip = Chip {
        regs,
        side: ran.core.side,
        picture,
    };
    Answer {
        refused: ran.refused,
        chip,
        reads: access::reads_in(ran.noted),
    }
}

// A run of ticks of an accepted state: the picture's arrays are copied once, lent once, and packed once.
fn run_chip(chip: Chip, host: &Host<'_>, n: u64) -> Answer
    requires { Held (seen host.now) chip.regs (world_of chip) }
    ensures { result ≡ ticks_from (seen host.now) n chip }
{
    let core = Core {
        side: chip.side,
        pen: chip.picture.pen,
    };
    let mut arrays = arrays_of(chip.picture);
    let ran = run(core, chip.regs, &mut arrays, host, n);
    ended(chip.regs, ran, arrays)
}

// Ticks one by one: what is lent and the state are tested once, since a tick keeps both. With no tick to do it still tests.
// Both tests stand here, and `lines` asks here too: where they stand twice a run is compiled without what they show.
#[tactic(auto, using(crate::proofs::Runs::sound_lent, crate::proofs::Runs::sound_state, crate::proofs::Runs::sound_held, crate::proofs::Runs::tested_sound, crate::proofs::Runs::tested_unsound))]
fn tested(chip: Chip, ram: &[u8], rom: &[u8], colour: &[u8], bank: u8, n: u64) -> Answer
    ensures { result ≡ tested_from (host ram.now rom.now colour.now bank) n chip }
{
    let lent = memory::lend(ram, rom, colour, bank);
    match lent {
        Err(why) => chip::answered(why.number(), chip),
        Ok(host) => {
            let state = chip::state_refusal(chip);
            if state != 0 {
                return chip::answered(state, chip);
            }
            run_chip(chip, &host, n)
        }
    }
}

// One tick. A host that ticks often calls `ticks`: by value, each call copies the state.
#[tactic(auto, using(crate::proofs::Runs::tested_some, crate::proofs::Runs::one_tick))]
pub fn tick(chip: Chip, ram: &[u8], rom: &[u8], colour: &[u8], bank: u8) -> Answer
    ensures { result ≡ ticked (host ram.now rom.now colour.now bank) chip }
{
    tested(chip, ram, rom, colour, bank, 1)
}

// ---- a line at a time

// Lines over the lent arrays, until n are done or the clock can take no more.
fn line_run(core: Core, regs: Registers, arrays: &mut Arrays, host: &Host<'_>, n: u64) -> Ran
    requires held { Held (seen host.now) regs (world_in core arrays.old) }
    requires at { at_line_end core.side ≡ Bool.true }
    ensures { answered result.refused (chip_of regs (world_in result.core arrays.new)) (reads_in result.noted) ≡ lines_from (seen host.now) n (chip_of regs (world_in core arrays.old)) }
{
    let mut now = core;
    for done in 0..n {
        let can = can_line(now.side.beam.kind, now.side.bus.clock);
        if !can {
            return Ran {
                refused: 4,
                core: now,
                noted: 0u64,
            };
        }
        now = engine::line(now, regs, arrays, host);
    }
    Ran {
        refused: 0,
        core: now,
        noted: 0u64,
    }
}

// A run of lines of an accepted state at the last cycle of one.
fn run_lines(chip: Chip, host: &Host<'_>, n: u64) -> Answer
    requires held { Held (seen host.now) chip.regs (world_of chip) }
    requires at { at_line_end chip.side ≡ Bool.true }
    ensures { result ≡ lines_from (seen host.now) n chip }
{
    let core = Core {
        side: chip.side,
        pen: chip.picture.pen,
    };
    let mut arrays = arrays_of(chip.picture);
    let ran = line_run(core, chip.regs, &mut arrays, host, n);
    ended(chip.regs, ran, arrays)
}

// A run of lines, each written as a whole: what is lent and acceptance are tested once, since a line keeps them and ends where the next begins.
#[tactic(auto, using(crate::proofs::Runs::sound_lent, crate::proofs::Lined::lines_none, crate::proofs::Lined::lines_unsound, crate::proofs::Lined::lines_tested))]
pub fn lines(chip: Chip, ram: &[u8], rom: &[u8], colour: &[u8], bank: u8, n: u64) -> Answer
    ensures { result ≡ lines_from (host ram.now rom.now colour.now bank) n chip }
{
    if n == 0 {
        return chip::answered(0, chip);
    }
    match memory::lend(ram, rom, colour, bank) {
        Err(why) => chip::answered(why.number(), chip),
        Ok(host) => {
            let sound = tested(chip, ram, rom, colour, bank, 0);
            if sound.refused != 0 {
                return sound;
            }
            let last = schedule::last_cycle(chip.side.beam.kind);
            if chip.side.beam.cycle != last {
                return chip::answered(11, chip);
            }
            run_lines(chip, &host, n)
        }
    }
}

// The next line, from a state at the last cycle of one.
#[tactic(auto, using(crate::proofs::Lined::one_line))]
pub fn line(chip: Chip, ram: &[u8], rom: &[u8], colour: &[u8], bank: u8) -> Answer
    ensures { result ≡ lined (host ram.now rom.now colour.now bank) chip }
{
    lines(chip, ram, rom, colour, bank, 1)
}

// ---- a run of ticks: to the line's end, whole lines, and the rest

// How many ticks there are to the line's end.
fn to_end(kind: u8, cycle: u16) -> u64
    ensures { result ≡ last_cycle (kind_of kind) - cycle }
{
    let last = schedule::last_cycle(kind);
    if cycle < last {
        return (last - cycle) as u64;
    }
    0
}

// Whole lines as far as they go before the last of n ticks, whose reads are told; then ticks. Where lines are refused all is done by ticks.
#[tactic(auto, using(crate::proofs::Runs::no_ticks, crate::proofs::Runs::tested_some, crate::proofs::Lined::lines_before))]
fn by_lines(chip: Chip, ram: &[u8], rom: &[u8], colour: &[u8], bank: u8, n: u64) -> Answer
    ensures { result ≡ ticks_from (host ram.now rom.now colour.now bank) n chip }
{
    if n == 0 {
        return chip::answered(0, chip);
    }
    let last = schedule::last_cycle(chip.side.beam.kind) as u64;
    let whole = (n - 1) / last;
    let far = lines(chip, ram, rom, colour, bank, whole);
    if far.refused != 0 {
        return tested(chip, ram, rom, colour, bank, n);
    }
    tested(far.chip, ram, rom, colour, bank, n - whole * last)
}

// A run that may have a whole line in it: ticks to the line's end first.
#[tactic(auto, using(crate::proofs::Staged::beyond))]
fn long_run(chip: Chip, ram: &[u8], rom: &[u8], colour: &[u8], bank: u8, n: u64) -> Answer
    ensures { result ≡ ticks_from (host ram.now rom.now colour.now bank) n chip }
{
    let first = to_end(chip.side.beam.kind, chip.side.beam.cycle);
    if (first == 0) | (n <= first) {
        return by_lines(chip, ram, rom, colour, bank, n);
    }
    let begun = tested(chip, ram, rom, colour, bank, first);
    if begun.refused != 0 {
        return begun;
    }
    by_lines(begun.chip, ram, rom, colour, bank, n - first)
}

// A run of ticks. One that is shorter than a line and its last tick has no whole line in it.
#[tactic(auto, using(crate::proofs::Runs::tested_some))]
pub fn ticks(chip: Chip, ram: &[u8], rom: &[u8], colour: &[u8], bank: u8, n: u64) -> Answer
    ensures { result ≡ ticks_from (host ram.now rom.now colour.now bank) n chip }
{
    if (0 < n) & (n < 64) {
        return tested(chip, ram, rom, colour, bank, n);
    }
    long_run(chip, ram, rom, colour, bank, n)
}
