// The timing side of the chip, and its step: a tick is handed the timing registers and nothing of the picture.
#![tactic(auto)]

ghost use Rattle.std.specs.Prelude.{◌≡◌, Bool, ◌<◌};
ghost use Rattle.laws.specs.Clock.{InRange};
ghost use Rattle.schedule.specs.Kind.{kind_of};
ghost use Rattle.schedule.specs.Requests.{mask_at};
ghost use Rattle.schedule.specs.Machinery.Places.{Placed};
ghost use Rattle.schedule.specs.Machinery.Stretches.{before_graphics};
ghost use Rattle.arbitration.specs.Bus.{requested};
ghost use Rattle.side.specs.Phases.{begin_at, left40_at, left38_at, right38_at, right40_at, remember_at, end_at, bordered, step_at, first_at, second_at, load_at, phased, slot_moved};
ghost use Rattle.side.specs.Turn.{fresh_side, turned};
ghost use Rattle.side.specs.Machinery.Halves.{Draws, Rests, orders_of};
ghost use Rattle.side.specs.Machinery.Leap.{only_counts, leapt};

use arbitration::Bus;
use border::Border;
use raster::Frame;
use registers::{Controls, Irq};
use rows::{Rowed, Rows, Waits};
use sprites::Sprites;
use timing::Beam;

#[derive(Clone, Copy)]
pub struct Side {
    pub irq: Irq,
    pub beam: Beam,
    pub frame: Frame,
    pub border: Border,
    pub sprites: Sprites,
    pub bus: Bus,
    pub rows: Rows,
    pub pending: Waits,
    // the interrupt line as the last tick left it
    pub changed: bool,
    // the refresh counter; last, where it costs a run of ticks least
    pub refresh: u8,
}

// What the timing side tells the picture to do in a cycle: numbers and no picture value.
#[derive(Clone, Copy)]
pub struct Orders {
    pub cycle: u16,
    pub graphics: bool,
    pub moves: bool,
    pub waiting: bool,
    pub plain: bool,
    pub hidden: bool,
    pub vc: u16,
    pub vmli: u8,
    pub rc: u8,
    pub fills: bool,
    pub place: u8,
    pub column: u16,
    pub sprite: usize,
    pub pointing: bool,
    pub fetching: bool,
    pub mask: bool,
    pub mc: u8,
    pub low: bool,
    // the refresh counter as a refresh access of this cycle finds it
    pub refresh: u8,
}

#[derive(Clone, Copy)]
pub struct Turned {
    pub side: Side,
    pub orders: Orders,
}

// ---- the border's compares, each in its cycle

#[tactic(auto, unfolding(crate::specs::Phases::begin_at))]
fn border_begin(b: Border, cycle: u16, raster: u16, den: bool) -> Border
    ensures { result ≡ begin_at cycle raster den b }
{
    if schedule::line_begins(cycle) {
        return b.begin_line(raster, den);
    }
    b
}

#[tactic(auto, unfolding(crate::specs::Phases::left40_at))]
fn border_left40(b: Border, cycle: u16, raster: u16, g: Controls) -> Border
    ensures { result ≡ left40_at cycle raster g.den g.csel b }
{
    if schedule::left40(cycle) {
        return b.left40(g.csel, raster, g.den);
    }
    b
}

#[tactic(auto, unfolding(crate::specs::Phases::left38_at))]
fn border_left38(b: Border, cycle: u16, raster: u16, g: Controls) -> Border
    ensures { result ≡ left38_at cycle raster g.den g.csel b }
{
    if schedule::left38(cycle) {
        return b.left38(g.csel, raster, g.den);
    }
    b
}

#[tactic(auto, unfolding(crate::specs::Phases::right38_at))]
fn border_right38(b: Border, cycle: u16, csel: bool) -> Border
    ensures { result ≡ right38_at cycle csel b }
{
    if schedule::right38(cycle) {
        return b.right38(csel);
    }
    b
}

#[tactic(auto, unfolding(crate::specs::Phases::right40_at))]
fn border_right40(b: Border, cycle: u16, csel: bool) -> Border
    ensures { result ≡ right40_at cycle csel b }
{
    if schedule::right40(cycle) {
        return b.right40(csel);
    }
    b
}

#[tactic(auto, unfolding(crate::specs::Phases::remember_at))]
fn border_remember(b: Border, cycle: u16) -> Border
    ensures { result ≡ remember_at cycle b }
{
    if schedule::main_remembered(cycle) {
        return b.remember();
    }
    b
}

#[tactic(auto, unfolding(crate::specs::Phases::end_at))]
fn border_end(b: Border, kind: u8, cycle: u16, raster: u16, den: bool) -> Border
    ensures { result ≡ end_at (kind_of kind) cycle raster den b }
{
    if schedule::line_ends(kind, cycle) {
        return b.line_end(raster, den);
    }
    b
}

// The left compares, up to cycle 18.
fn border_left(b: Border, kind: u8, cycle: u16, raster: u16, g: Controls) -> Border
    requires { Draws cycle }
    ensures { result ≡ bordered (kind_of kind) cycle raster g.den g.csel b }
{
    let wide = border_left40(b, cycle, raster, g);
    let narrow = border_left38(wide, cycle, raster, g);
    border_remember(narrow, cycle)
}

fn border_lit(b: Border, kind: u8, cycle: u16, raster: u16, g: Controls) -> Border
    requires { Draws cycle }
    ensures { result ≡ bordered (kind_of kind) cycle raster g.den g.csel b }
{
    if schedule::past(cycle) {
        return b;
    }
    border_left(b, kind, cycle, raster, g)
}

// The compares of a line's ends, in the cycles 1, 56 and 57 and in the last.
fn border_ends(b: Border, kind: u8, cycle: u16, raster: u16, g: Controls) -> Border
    requires { Rests cycle }
    ensures { result ≡ bordered (kind_of kind) cycle raster g.den g.csel b }
{
    let begun = border_begin(b, cycle, raster, g.den);
    let early = border_right38(begun, cycle, g.csel);
    let late = border_right40(early, cycle, g.csel);
    border_end(late, kind, cycle, raster, g.den)
}

fn border_dark(b: Border, kind: u8, cycle: u16, raster: u16, g: Controls) -> Border
    requires { Rests cycle }
    ensures { result ≡ bordered (kind_of kind) cycle raster g.den g.csel b }
{
    if schedule::between(cycle) {
        return b;
    }
    border_ends(b, kind, cycle, raster, g)
}

// ---- the sprites' phases, each in its cycle

#[tactic(auto, unfolding(crate::specs::Phases::step_at))]
fn sprites_step(s: Sprites, cycle: u16) -> Sprites
    ensures { result ≡ step_at cycle s }
{
    if schedule::mcbase_step(cycle) {
        return s.mcbase_step();
    }
    s
}

#[tactic(auto, unfolding(crate::specs::Phases::first_at))]
fn sprites_first(s: Sprites, kind: u8, cycle: u16, raster: u16, g: Controls) -> Sprites
    ensures { result ≡ first_at (kind_of kind) cycle raster g.my g.enable g.yexp s }
{
    if schedule::first_phase(kind, cycle) {
        return s.first_phase(raster, g.my, g.enable, g.yexp);
    }
    s
}

#[tactic(auto, unfolding(crate::specs::Phases::second_at))]
fn sprites_second(s: Sprites, kind: u8, cycle: u16, raster: u16, g: Controls) -> Sprites
    ensures { result ≡ second_at (kind_of kind) cycle raster g.my g.enable g.yexp s }
{
    if schedule::second_phase(kind, cycle) {
        return s.second_phase(raster, g.my, g.enable, g.yexp);
    }
    s
}

#[tactic(auto, unfolding(crate::specs::Phases::load_at))]
fn sprites_load(s: Sprites, kind: u8, cycle: u16, raster: u16, g: Controls) -> Sprites
    ensures { result ≡ load_at (kind_of kind) cycle raster g.my g.enable s }
{
    if schedule::mc_load(kind, cycle) {
        return s.load_mc(raster, g.my, g.enable);
    }
    s
}

// The step of MCBASE; where the last graphics access is, the 6569 has its first phase.
fn sprites_lit(s: Sprites, kind: u8, cycle: u16, raster: u16, g: Controls) -> Sprites
    requires { Draws cycle }
    ensures { result ≡ phased (kind_of kind) cycle raster g.my g.enable g.yexp s }
{
    let stepped = sprites_step(s, cycle);
    sprites_first(stepped, kind, cycle, raster, g)
}

// The phases of a line's end.
fn sprites_ends(s: Sprites, kind: u8, cycle: u16, raster: u16, g: Controls) -> Sprites
    requires { Rests cycle }
    ensures { result ≡ phased (kind_of kind) cycle raster g.my g.enable g.yexp s }
{
    let first = sprites_first(s, kind, cycle, raster, g);
    let second = sprites_second(first, kind, cycle, raster, g);
    sprites_load(second, kind, cycle, raster, g)
}

fn sprites_dark(s: Sprites, kind: u8, cycle: u16, place: u16, raster: u16, g: Controls) -> Sprites
    requires placed { Placed (kind_of kind) cycle place }
    requires rests { Rests cycle }
    ensures { result ≡ phased (kind_of kind) cycle raster g.my g.enable g.yexp s }
{
    if schedule::calm(place) {
        return s;
    }
    sprites_ends(s, kind, cycle, raster, g)
}

// The slot of this cycle moves its sprite's MC on: one byte beside the pointer, two in the data slot.
#[tactic(auto, unfolding(crate::specs::Phases::slot_moved))]
fn sprites_slot(s: Sprites, pointing: bool, fetching: bool, k: usize) -> Sprites
    requires { k < 8 }
    ensures { result ≡ slot_moved pointing fetching k s }
{
    if pointing {
        return s.fetch(k, 1);
    }
    if fetching {
        return s.fetch(k, 2);
    }
    s
}

// The request of a cycle with a graphics access: no sprite asks before the last one.
fn asked_lit(ba: bool, dma: u8, kind: u8, cycle: u16) -> bool
    requires { Draws cycle }
    ensures { result ≡ requested ba dma (mask_at (kind_of kind) cycle) }
{
    if schedule::early(cycle) {
        return !ba;
    }
    arbitration::request(ba, dma, schedule::mask(kind, cycle))
}

// ---- the whole step

impl Side {
    #[tactic(auto, unfolding(crate::specs::Turn::fresh_side))]
    pub fn new(kind: u8) -> Self
        ensures { result ≡ fresh_side kind }
    {
        Self {
            irq: Irq::new(),
            beam: Beam::new(kind),
            frame: Frame::new(),
            border: Border::new(),
            sprites: Sprites::new(),
            bus: Bus::new(),
            rows: Rows::new(),
            pending: Waits { place: None },
            changed: false,
            refresh: 255,
        }
    }
}

// What the row counters and the bus have the picture do; the slot's fields and the refresh counter are the caller's.
fn ordered(cycle: u16, bad: bool, hidden: bool, rowed: Rowed, aeclow: bool) -> Orders
    ensures { result ≡ orders_of cycle bad hidden rowed aeclow }
{
    Orders {
        cycle,
        graphics: rowed.graphics,
        moves: rowed.moves,
        waiting: rowed.waiting,
        plain: bad | (rowed.rc != 0),
        hidden,
        vc: rowed.vc,
        vmli: rowed.vmli,
        rc: rowed.rc,
        fills: rowed.fetches & aeclow,
        place: rowed.rows.vmli,
        column: rowed.rows.vc,
        sprite: 0,
        pointing: false,
        fetching: false,
        mask: false,
        mc: 0,
        low: false,
        refresh: 0,
    }
}

// ---- a line's two parts: the cycles with a graphics access, and the others

// A tick with a graphics access: the line, the frame and the interrupt stay, and no slot is there.
pub fn turn_lit(side: Side, g: Controls) -> Turned
    requires clock { InRange side.bus.clock }
    requires before { before_graphics side.beam.cycle ≡ Bool.true }
    requires lost { side.bus.lost < 256 }
    ensures { result ≡ turned g side }
{
    let kind = side.beam.kind;
    let cycle = side.beam.cycle + 1;
    let raster = side.beam.raster;
    let latch = timing::latched(false, raster, g.den, side.beam.latch);
    let border = border_lit(side.border, kind, cycle, raster, g);
    let sprites = sprites_lit(side.sprites, kind, cycle, raster, g);
    let beam = side.beam.turn(
        cycle, raster, latch, latch, raster, g.den, g.rsel, g.yscroll,
    );
    let asked = asked_lit(beam.ba, sprites.dma, kind, cycle);
    let bus = side.bus.clocked(1).arbitrate(asked).count(false);
    let rowed = rows::turn_lit(side.rows, cycle, beam.bad, beam.rising);
    let rows = rowed.rows;
    let pending = rows::next_pending(rowed.fetches & !bus.aeclow, rows.vmli, side.pending);
    Turned {
        side: Side {
            beam,
            border,
            sprites,
            bus,
            rows,
            pending,
            changed: side.irq.line,
            ..side
        },
        orders: Orders {
            mask: laws::has_bit(sprites.dma, 0),
            mc: sprites.at(0).mc,
            low: side.bus.aeclow,
            refresh: side.refresh,
            ..ordered(cycle, beam.bad, border.disabled, rowed, bus.aeclow)
        },
    }
}

// A tick without one: here the line, the frame and the refresh counter may move on, and a sprite's slot may be there.
pub fn turn_dark(side: Side, g: Controls) -> Turned
    requires clock { InRange side.bus.clock }
    requires before { before_graphics side.beam.cycle ≡ Bool.false }
    requires lost { side.bus.lost < 256 }
    ensures { result ≡ turned g side }
{
    let kind = side.beam.kind;
    let cycle = timing::next_cycle(kind, side.beam.cycle);
    let place = schedule::place(kind, cycle);
    let sweep = raster::turn(
        kind,
        side.frame,
        side.irq,
        cycle,
        side.beam.raster,
        g.compare,
        g.den,
        side.beam.latch,
        side.refresh,
    );
    let swept = sweep.swept;
    let raster = swept.raster;
    let border = border_dark(side.border, kind, cycle, raster, g);
    let phased = sprites_dark(side.sprites, kind, cycle, place, raster, g);
    let beam = side.beam.turn(
        cycle,
        swept.line,
        swept.latch,
        swept.kept,
        raster,
        g.den,
        g.rsel,
        g.yscroll,
    );
    let asked = arbitration::request(beam.ba, phased.dma, schedule::asking(place));
    let begins = schedule::line_begins(cycle);
    let bus = side.bus.clocked(1).arbitrate(asked).count(begins);
    let k = schedule::sprite_at(place);
    let pointing = schedule::pointing(place);
    let fetching = schedule::fetching(place);
    let sprites = sprites_slot(phased, pointing, fetching, k);
    let after = schedule::slot_after_bus(kind, cycle);
    let low = laws::pick(after, bus.aeclow, side.bus.aeclow);
    let rowed = rows::turn_dark(side.rows, cycle, beam.bad, beam.rising, swept.wraps);
    let rows = rowed.rows;
    let pending = rows::next_pending(rowed.fetches & !bus.aeclow, rows.vmli, side.pending);
    let refresh = raster::refresh_after(cycle, sweep.refresh);
    Turned {
        side: Side {
            irq: swept.irq,
            beam,
            frame: swept.frame,
            border,
            sprites,
            bus,
            rows,
            pending,
            changed: swept.irq.line,
            refresh,
        },
        orders: Orders {
            sprite: k,
            pointing,
            fetching,
            mask: laws::has_bit(phased.dma, k),
            mc: phased.at(k).mc,
            low,
            refresh: sweep.refresh,
            ..ordered(cycle, beam.bad, border.disabled, rowed, bus.aeclow)
        },
    }
}

// ---- ticks that only count

// Whether a tick after the left compares and before the last graphics access only counts.
#[tactic(auto, unfolding(crate::specs::Machinery::Leap::only_counts))]
pub fn only_counts(side: Side, yscroll: u8) -> bool
    ensures { result ≡ only_counts yscroll side }
{
    let bad = timing::bad_line(side.beam.raster, yscroll, side.beam.latch);
    !bad & (side.beam.raster != 0x30)
        & !side.bus.balow
        & !side.bus.aeclow
        & !side.rows.transition
        & !side.rows.access
}

// Some such ticks on.
pub fn leap(mut side: Side, k: u8) -> Side
    requires clock { InRange side.bus.clock }
    requires cycle { side.beam.cycle < 66 }
    ensures { result ≡ leapt k side }
{
    side.beam.cycle += laws::wide(k);
    side.bus = side.bus.clocked(k);
    side.rows = side.rows.later(k);
    side
}
