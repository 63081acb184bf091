// The bus over a whole line: the cycles that ask, and those with AEC low, as the bits of words.
#![tactic(auto)]

ghost use Rattle.std.specs.Prelude.{◌≡◌, cond, suc, ◌+◌, ◌-◌, ◌*◌, ◌/◌, ◌^◌, ◌<◌, ◌≤◌};
ghost use Rattle.std.specs.Int.Bits.{bit_and, bit_xor};
ghost use Rattle.std.specs.Int.Count.{ones};
ghost use Rattle.laws.specs.Clock.{InRange};
ghost use Rattle.schedule.specs.Kind.{kind_of, last_cycle};
ghost use Rattle.schedule.specs.Requests.{mask_at};
ghost use Rattle.schedule.specs.Machinery.Places.{asking_at};
ghost use Rattle.arbitration.specs.Bus.{sprite_asks, clock_on};
ghost use Rattle.lines.specs.Bus.{waited, bus_line};
ghost use Rattle.waves.specs.Waves.{Wave, low_early, low_late, count_of, edge_of, four_of};

use arbitration::Bus;

// The eight sprites' requests by their places: sprite n asks in the places 2n to 2n + 4.
#[tactic(auto, using(crate::proofs::Cuts::placed))]
fn places(dma: u8) -> u32
    ensures { Wave 19 (λ t. sprite_asks dma (asking_at t)) result }
{
    let w = u32::from(dma);
    let a = (w | (w << 4)) & 0x0F0F;
    let b = (a | (a << 2)) & 0x3333;
    let x = (b | (b << 1)) & 0x5555;
    let y = x | (x << 1);
    let z = y | (y << 2);
    z | (x << 4)
}

// Who asks in the cycles 1 to 10: the sprites whose requests began in the line before.
fn early(kind: u8, dma: u8) -> u32
    ensures { Wave 10 (λ i. sprite_asks dma (mask_at (kind_of kind) (suc i))) result }
{
    let all = places(dma);
    if kind == schedule::KIND_6567R8 {
        all >> 10
    } else {
        all >> 9
    }
}

// Who asks from cycle 55 to the last: on the 6567R8 from the second of these on.
#[tactic(auto, using(crate::proofs::Cuts::some))]
fn late(kind: u8, dma: u8) -> u32
    ensures { Wave (last_cycle (kind_of kind) - 54) (λ i. sprite_asks dma (mask_at (kind_of kind) (55 + i))) result }
{
    let all = places(dma);
    if kind == schedule::KIND_6567R8 {
        (all & 1023) * 2
    } else {
        all & 511
    }
}

// The last four requests before a line, the newest at bit 3, as the AEC counter remembers them.
#[tactic(auto, using(crate::proofs::Runs::remembers_four, crate::proofs::Runs::remembers_three, crate::proofs::Runs::remembers_two, crate::proofs::Runs::remembers_one, crate::proofs::Runs::remembers_none))]
fn run_before(aec: i8) -> u32
    ensures { Wave 4 (λ i. waited aec (3 - i)) result }
{
    match aec {
        ..=-1 => 15,
        0 => 14,
        1 => 12,
        2 => 8,
        _ => 0,
    }
}

// A bad line has asked in the four cycles before 55.
fn run_matrix(bad: bool) -> u32
    ensures { result ≡ cond bad 15 0 }
{
    if bad { 15 } else { 0 }
}

// AEC is low where a cycle and the three before it ask; the word begins three cycles earlier.
fn four(w: u32) -> u32
    ensures { result ≡ four_of w }
{
    (w >> 3) & (w >> 2) & (w >> 1) & w
}

// AEC in the first cycles of a line: bit c is set where it is low in cycle c, 0 to 10.
pub fn low_early(kind: u8, dma: u8, aec: i8) -> u32
    ensures { Wave 11 (low_early (kind_of kind) dma aec) result }
{
    let asked = early(kind, dma);
    let run = run_before(aec);
    four(asked * 16 + run)
}

// AEC in the last cycles of a line: bit i is set where it is low in cycle 54 + i.
#[tactic(auto, using(crate::proofs::Cuts::at_most, crate::proofs::Cuts::run_most))]
pub fn low_late(kind: u8, bad: bool, dma: u8) -> u32
    ensures { Wave (last_cycle (kind_of kind) - 53) (low_late (kind_of kind) bad dma) result }
{
    let asked = late(kind, dma);
    let run = run_matrix(bad);
    four(asked * 16 + run)
}

// The bits of one word that the other has not.
fn without(w: u32, other: u32) -> u32
    ensures { result ≡ bit_xor w (bit_and w other) }
{
    w ^ (w & other)
}

// BA as the cycle before left it: the word one cycle on.
fn held_of(asked: u32, balow: bool) -> u32
    requires { asked < 2048 }
    ensures { result ≡ asked * 2 + cond balow 1 0 }
{
    if balow { asked * 2 + 1 } else { asked * 2 }
}

// The same from cycle 55 to the last, and no further.
#[tactic(auto, unfolding(schedule::specs::Kind::kind_of))]
fn held_late(kind: u8, asked: u32, bad: bool) -> u32
    requires { asked < 2048 }
    ensures { result ≡ bit_and (2 ^ (last_cycle (kind_of kind) - 54) - 1) (asked * 2 + cond bad 1 0) }
{
    let held = held_of(asked, bad);
    if kind == schedule::KIND_6567R8 {
        2047 & held
    } else {
        511 & held
    }
}

// The last four requests of a line, the newest at bit 3.
#[tactic(auto, using(crate::proofs::Cuts::run_most), unfolding(schedule::specs::Kind::kind_of))]
fn run_after(kind: u8, asked: u32, bad: bool) -> u32
    requires { asked < 2048 }
    ensures { result ≡ (asked * 16 + cond bad 15 0) / 2 ^ (last_cycle (kind_of kind) - 54) }
{
    let run = run_matrix(bad);
    let all = asked * 16 + run;
    if kind == schedule::KIND_6567R8 {
        all >> 11
    } else {
        all >> 9
    }
}

// How many more requests AEC waits for, after these four.
#[tactic(auto, using(crate::proofs::Runs::three, crate::proofs::Runs::two, crate::proofs::Runs::one, crate::proofs::Runs::nought, crate::proofs::Runs::minus))]
fn count_of(run: u32) -> i8
    requires { run < 16 }
    ensures { result ≡ count_of run }
{
    match run {
        0..8 => 3,
        8..12 => 2,
        12..14 => 1,
        14 => 0,
        _ => -1,
    }
}

// The clock of the last cycle in a word, whose first bit is the cycle after `from`; the old one where it has none.
#[tactic(auto, unfolding(crate::specs::Waves::edge_of))]
fn last_clock(w: u32, from: u8, clock: i64, old: i64) -> i64
    requires first { from ≤ 54 }
    requires clock { InRange clock }
    ensures { result ≡ edge_of w from clock old }
{
    if w == 0 {
        return old;
    }
    arbitration::clock_on(clock, from + (32 - w.leading_zeros()) as u8)
}

// How many of a line's cycles have AEC low: on a bad line 40 between the two words' cycles.
fn lost_of(low: u32, over: u32, bad: bool) -> u64
    ensures { result ≡ ones (low / 2 ^ 1) + cond bad 40 0 + ones (over / 2 ^ 1) }
{
    let few = u64::from((low >> 1).count_ones() + (over >> 1).count_ones());
    if bad { few + 40 } else { few }
}

// The clock of BA's last fall: in the last cycles, with the matrix in cycle 12, or in the first ones.
fn fall_of(first: u32, last: u32, bad: bool, clock: i64, old: i64) -> i64
    requires { InRange clock }
    ensures { result ≡ edge_of last 54 clock (cond bad (clock_on 12 clock) (edge_of first 0 clock old)) }
{
    let early = last_clock(first, 0, clock, old);
    let matrix = arbitration::clock_on(clock, 12);
    let middle = arbitration::edge_clock(bad, matrix, early);
    last_clock(last, 54, clock, middle)
}

// The clock of its last rise: in the last cycles, or in the first ones.
fn rise_of(first: u32, last: u32, clock: i64, old: i64) -> i64
    requires { InRange clock }
    ensures { result ≡ edge_of last 54 clock (edge_of first 0 clock old) }
{
    let early = last_clock(first, 0, clock, old);
    last_clock(last, 54, clock, early)
}

// What a line leaves of the bus, by the DMA before its comparisons and after them.
#[tactic(auto, using(crate::proofs::Glue::small_run, crate::proofs::Cuts::at_most, schedule::proofs::Places::last_most))]
pub fn bus_line(bus: Bus, kind: u8, bad: bool, before: u8, after: u8) -> Bus
    requires { InRange bus.clock }
    ensures { result ≡ bus_line (kind_of kind) bad (record { before = before; first = after; after = after }) bus }
{
    let first = early(kind, before);
    let last = late(kind, after);
    let held = held_of(first, bus.balow);
    let kept = held_late(kind, last, bad);
    let run = run_after(kind, last, bad);
    let fall = fall_of(
        without(first, held),
        without(last, kept),
        bad,
        bus.clock,
        bus.fall,
    );
    let rise = rise_of(
        without(held, first),
        without(kept, last),
        bus.clock,
        bus.rise,
    );
    let lost = lost_of(
        low_early(kind, before, bus.aec),
        low_late(kind, bad, after),
        bad,
    );
    let clock = arbitration::clock_on(bus.clock, schedule::last_cycle(kind) as u8);
    Bus {
        clock,
        fall,
        rise,
        aec: count_of(run),
        balow: 8 <= run,
        aeclow: run == 15,
        lost,
    }
}
