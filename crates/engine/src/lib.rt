// A line at a time: the state after a whole line without a write, from the state at the last cycle of the line before.
// No step of a tick is in it: what a line does to each part is worked out at once, and the forty columns by column.
#![tactic(auto)]

ghost use Rattle.std.specs.Prelude.{◌≡◌, ◌<◌};
ghost use Rattle.laws.specs.Clock.{InRange};
ghost use Rattle.memory.specs.Lent.{seen};
ghost use Rattle.schedule.specs.Kind.{kind_of, last_cycle};
ghost use Rattle.columns.specs.Columns.{Clocks};
ghost use Rattle.engine.specs.Parts.{turned_of, row_merged, pen_line, two_masks, fetch_by, slots_by};
ghost use Rattle.engine.specs.World.{world_in, Begins};
ghost use Rattle.lines.specs.Side.{masks_in};
ghost use Rattle.lines.specs.Whole.{line_world};
ghost use Rattle.fetches.specs.Fetches.{latches};
ghost use Rattle.laws.specs.Pick.{pick};
ghost use Rattle.raster.specs.Refresh.{less_by};
ghost use Rattle.engine.specs.Counters.{Sound, base_by, early3, bases_of, equal_of, settled_by, settled_of, incremented_by, incremented_of, counted_of};
ghost use Rattle.lines.specs.Bus.{masks_of};
ghost use Rattle.lines.specs.Sprites.{sprites_loaded};
ghost use Rattle.lines.specs.Rows.{rows_line};
ghost use Rattle.engine.specs.Begin.{begun_of, interrupt_of, framed_of};

use access::{Latch, Slots};
use border::Border;
use columns::Hidden;
use memory::{Host, Memory};
use picture::Pen;
use raster::Frame;
use registers::{Controls, Irq, Registers};
use rows::Rows;
use side::Side;
use sprites::{Sprite, Sprites};
use timing::Beam;

// ---- the line and the frame

// What a line begins with: its number before a frame's end in it and after, and whether it is a bad one.
#[derive(Clone, Copy)]
pub struct Begun {
    pub line: u16,
    pub wraps: bool,
    pub raster: u16,
    pub matched: bool,
    pub latch: bool,
    pub bad: bool,
    pub rises: bool,
}

fn begin(side: Side, g: Controls) -> Begun
    ensures { result ≡ begun_of g side }
{
    let last = timing::at_last_line(side.beam.kind, side.beam.raster);
    let line = timing::next_line(side.beam.kind, side.beam.raster);
    let wraps = side.frame.ending | last;
    let latch = laws::pick(line == 0x30, g.den, side.beam.latch);
    let bad = timing::bad_line(line, g.yscroll, latch);
    Begun {
        line,
        wraps,
        raster: laws::pick(wraps, 0, line),
        matched: !last & (line == g.compare),
        latch: latch & !wraps,
        bad: bad & !wraps,
        rises: bad & !side.beam.bad,
    }
}

// The raster interrupt: once while matched, and for line 0 without a look at the match.
fn interrupt(irq: Irq, before: bool, begun: Begun, compare: u16) -> Irq
    ensures { result ≡ interrupt_of irq before begun.matched begun.wraps compare }
{
    let raises = raster::match_raises(begun.matched, before);
    let told = raster::raise(irq, raises);
    raster::raise(told, begun.wraps & (compare == 0))
}

// The refresh counter after the five accesses of a line.
#[tactic(auto, unfolding(raster::specs::Refresh::less_by))]
fn refreshed(wraps: bool, counter: u8) -> u8
    ensures { result ≡ less_by 5 (pick wraps 0xFF counter) }
{
    laws::pick(wraps, 255, counter).wrapping_sub(5)
}

// ---- the border

// What a line leaves of the border, and where in the line output is shut off.
#[derive(Clone, Copy)]
pub struct Framed {
    pub border: Border,
    pub hidden: Hidden,
}

#[tactic(auto, unfolding(lines::specs::Border::border_line, lines::specs::Border::hidden_in))]
fn frame(b: Border, begun: Begun, g: Controls) -> Framed
    ensures { result ≡ framed_of begun.line begun.raster g.den g.csel b }
{
    let opened = b.begin_line(begun.line, g.den);
    let wide = opened.remember().left40(g.csel, begun.raster, g.den);
    let narrow = wide.remember().left38(g.csel, begun.raster, g.den);
    let closed = narrow.right38(g.csel).right40(g.csel);
    Framed {
        border: closed.line_end(begun.raster, g.den),
        hidden: Hidden {
            first: opened.disabled,
            second: wide.disabled,
            rest: narrow.disabled,
        },
    }
}

// ---- the rows

fn row(rows: Rows, begun: Begun) -> Rows
    ensures { result ≡ rows_line begun.bad begun.rises begun.wraps rows }
{
    let shows = rows.display | begun.rises;
    let base = laws::pick(begun.wraps, 0, rows.vcbase);
    let rc = laws::pick(begun.bad, 0, rows.rc);
    let vc = laws::pick(shows, (base % 1024 + 40) % 1024, base);
    let goes = (shows & (rc != 7)) | begun.bad;
    Rows {
        vc,
        vcbase: laws::pick(rc == 7, vc, base),
        rc: laws::pick(goes, (rc % 8 + 1) % 8, rc),
        vmli: laws::pick(shows, 40, 0),
        display: goes,
        transition: false,
        access: false,
    }
}

// ---- the sprites' counters

// A sprite's base after the step of MCBASE: before it come the bytes of its slots in this line, if there are any.
fn base_at(s: Sprites, k: usize, early: bool, bytes: u8) -> u8
    requires { (k < 8) × (bytes < 4) }
    ensures { result ≡ base_by s k early bytes }
{
    let p = s.at(k);
    let on = laws::has_bit(s.dma, k);
    let flip = laws::has_bit(s.flip, k);
    let clearing = laws::has_bit(s.clear, k);
    let mc = sprites::moved(on & early, p.mc, bytes);
    sprites::next_base(flip, clearing, p.base, mc)
}

// The bytes of sprite 3 that a line begins with: its pointer slot may be in the line before.
#[tactic(auto, unfolding(schedule::specs::Kind::kind_of))]
fn bytes3(kind: u8) -> u8
    ensures { result ≡ early3 (kind_of kind) }
{
    if kind == schedule::KIND_6567R8 { 2 } else { 3 }
}

// The eight bases after the step of MCBASE.
#[tactic(auto, using(crate::proofs::Columned::early3_small))]
fn stepped(s: Sprites, kind: u8) -> [u8; 8]
    requires { Sound s }
    ensures bases { result ≡ bases_of (kind_of kind) s }
    ensures sound { Sound s }
{
    let three = bytes3(kind);
    [
        base_at(s, 0, false, 0),
        base_at(s, 1, false, 0),
        base_at(s, 2, false, 0),
        base_at(s, 3, true, three),
        base_at(s, 4, true, 3),
        base_at(s, 5, true, 3),
        base_at(s, 6, true, 3),
        base_at(s, 7, true, 3),
    ]
}

// The sprites whose byte is y, as a mask, sprite k at bit k.
#[tactic(auto, unfolding(crate::specs::Counters::mask_of, laws::specs::Pick::pick))]
fn equal(bytes: [u8; 8], y: u8) -> u8
    ensures { result ≡ equal_of bytes y }
{
    laws::pick(bytes[0] == y, 1, 0)
        | laws::pick(bytes[1] == y, 2, 0)
        | laws::pick(bytes[2] == y, 4, 0)
        | laws::pick(bytes[3] == y, 8, 0)
        | laws::pick(bytes[4] == y, 16, 0)
        | laws::pick(bytes[5] == y, 32, 0)
        | laws::pick(bytes[6] == y, 64, 0)
        | laws::pick(bytes[7] == y, 128, 0)
}

// A sprite after the comparisons and the load of MC.
fn settled(s: Sprites, k: usize, starts: u8, base: u8) -> Sprite
    requires { k < 8 }
    ensures { result ≡ settled_by s k starts base }
{
    let next = laws::pick(laws::has_bit(starts, k), 0, base);
    Sprite {
        mc: next,
        base: next,
        ..s.at(k)
    }
}

// What the load of MC leaves of the sprites, by the bases that the step of MCBASE left.
fn settle(s: Sprites, bases: [u8; 8], raster: u16, g: Controls) -> Sprites
    ensures { result ≡ settled_of s bases raster g.my g.enable g.yexp }
{
    let meets = g.enable & equal(g.my, (raster % 256) as u8);
    let stays = s.dma & !equal(bases, 63);
    let starts = meets & !stays;
    let dma = stays | meets;
    Sprites {
        each: [
            settled(s, 0, starts, bases[0]),
            settled(s, 1, starts, bases[1]),
            settled(s, 2, starts, bases[2]),
            settled(s, 3, starts, bases[3]),
            settled(s, 4, starts, bases[4]),
            settled(s, 5, starts, bases[5]),
            settled(s, 6, starts, bases[6]),
            settled(s, 7, starts, bases[7]),
        ],
        flip: (s.flip ^ g.yexp) & !(starts & g.yexp),
        clear: 0,
        dma,
        prev: dma,
        display: (s.display | meets) & dma,
        vmatch: 0,
    }
}

// A sprite after the bytes of its slots at the line's end, if there are any.
fn incremented(s: Sprites, k: usize, late: bool, bytes: u8) -> Sprite
    requires { (k < 8) × (bytes < 4) }
    ensures { result ≡ incremented_by s k late bytes }
{
    let p = s.at(k);
    let on = laws::has_bit(s.dma, k);
    Sprite {
        mc: sprites::moved(on & late, p.mc, bytes),
        ..p
    }
}

// What the slots of the line's end leave: sprites 0 to 2 have both theirs there, sprite 3 may have its pointer slot there.
#[tactic(auto, unfolding(sprites::specs::Sprites::sprite_at))]
fn increment(s: Sprites, third: bool) -> Sprites
    ensures { result ≡ incremented_of third s }
{
    Sprites {
        each: [
            incremented(s, 0, true, 3),
            incremented(s, 1, true, 3),
            incremented(s, 2, true, 3),
            incremented(s, 3, third, 1),
            s.each[4],
            s.each[5],
            s.each[6],
            s.each[7],
        ],
        ..s
    }
}

// What a line leaves of the sprites, and before it what the load of MC leaves: its mask is the one of both comparisons.
#[derive(Clone, Copy)]
pub struct Counted {
    pub loaded: Sprites,
    pub after: Sprites,
}

fn count(s: Sprites, kind: u8, raster: u16, g: Controls) -> Counted
    ensures counted { result ≡ counted_of (kind_of kind) raster g.my g.enable g.yexp s }
    ensures masks { masks_of (kind_of kind) raster g.my g.enable g.yexp s ≡ two_masks s.dma (sprites_loaded (kind_of kind) raster g.my g.enable g.yexp s).dma }
{
    let bases = stepped(s, kind);
    let third = kind == schedule::KIND_6567R8;
    let loaded = settle(s, bases, raster, g);
    let after = increment(loaded, third);
    Counted { loaded, after }
}

// ---- the timing side

// What a line leaves of the timing side, and what the picture goes by.
#[derive(Clone, Copy)]
pub struct Turned {
    pub side: Side,
    pub begun: Begun,
    pub framed: Framed,
    pub loaded: Sprites,
}

fn turn(side: Side, g: Controls) -> Turned
    requires clock { InRange side.bus.clock }
    requires cycle { side.beam.cycle ≡ last_cycle (kind_of side.beam.kind) }
    ensures turned { result ≡ turned_of g side }
    ensures masks { masks_in g side ≡ two_masks side.sprites.dma (turned_of g side).loaded.dma }
{
    let kind = side.beam.kind;
    let begun = begin(side, g);
    let irq = interrupt(side.irq, side.frame.matched, begun, g.compare);
    let framed = frame(side.border, begun, g);
    let counted = count(side.sprites, kind, begun.raster, g);
    let dma = counted.loaded.dma;
    let bus = waves::bus_line(side.bus, kind, begun.bad, side.sprites.dma, dma);
    let rows = row(side.rows, begun);
    let refresh = refreshed(begun.wraps, side.refresh);
    let beam = Beam {
        raster: begun.raster,
        den: g.den,
        rsel: g.rsel,
        yscroll: g.yscroll,
        latch: begun.latch,
        bad: begun.bad,
        rising: false,
        ba: true,
        ..side.beam
    };
    let frame = Frame {
        ending: false,
        matched: begun.matched,
    };
    let next = Side {
        irq,
        beam,
        frame,
        border: framed.border,
        sprites: counted.after,
        bus,
        rows,
        changed: irq.line,
        refresh,
        ..side
    };
    Turned {
        side: next,
        begun,
        framed,
        loaded: counted.loaded,
    }
}

// ---- the whole line

// What a line changes besides the lent arrays.
#[derive(Clone, Copy)]
pub struct Core {
    pub side: Side,
    pub pen: Pen,
}

// The picture's arrays, lent to a run.
#[derive(Clone, Copy)]
pub struct Arrays {
    pub matrix: [u16; 40],
    pub slots: Slots,
}

// The pen and the matrix line after the forty columns.
fn show(matrix: &mut [u16; 40], core: Core, turned: Turned, regs: Registers, host: &Host<'_>) -> Pen
    requires vcbase { core.side.rows.vcbase < 1024 }
    requires clocks { Clocks core.side.bus.clock core.pen.forced }
    ensures pen { result ≡ pen_line regs (row_merged (seen host.now) regs.ptrs core.side.rows turned.begun turned.framed core.side.bus.clock core.pen matrix.old) core.pen }
    ensures matrix { matrix.new ≡ (row_merged (seen host.now) regs.ptrs core.side.rows turned.begun turned.framed core.side.bus.clock core.pen matrix.old).matrix }
{
    let shows = core.side.rows.display | turned.begun.rises;
    let base = laws::pick(turned.begun.wraps, 0, core.side.rows.vcbase);
    let rc = laws::pick(turned.begun.bad, 0, core.side.rows.rc);
    let mode = registers::mode(regs.ctrl1, regs.ctrl2);
    let old = laws::pick(core.pen.changing, mode, core.pen.old);
    let latch = columns::columns(
        matrix,
        Latch {
            ch: core.pen.ch,
            carry: core.pen.carry,
        },
        turned.begun.bad,
        shows,
        turned.begun.bad | (rc != 0),
        base,
        core.side.bus.clock,
        core.pen.forced,
        turned.framed.hidden,
        regs.ptrs,
        host,
    );
    Pen {
        ch: latch.ch,
        carry: latch.carry,
        gfx: 0,
        mode,
        old,
        changing: false,
        ..core.pen
    }
}

// What the slots of the line fetch: with the sprites before it, and with those that the load of MC left.
fn fetch(slots: &mut Slots, side: Side, turned: Turned, ptrs: u8, m: &Memory<'_>)
    ensures { latches slots.new.pointers slots.new.bytes slots.new.words ≡ slots_by (kind_of side.beam.kind) (fetch_by (kind_of side.beam.kind) turned.begun.bad (two_masks side.sprites.dma turned.loaded.dma) side.bus ptrs m.now.ram.now m.now.rom.now m.now.bank) side.sprites turned.loaded (latches slots.old.pointers slots.old.bytes slots.old.words) }
{
    let kind = side.beam.kind;
    let low = waves::low_early(kind, side.sprites.dma, side.bus.aec);
    let over = waves::low_late(kind, turned.begun.bad, turned.loaded.dma);
    fetches::early(slots, side.sprites, kind, low, ptrs, m);
    fetches::late(slots, turned.loaded, kind, over, ptrs, m);
}

// The next line, as a whole.
pub fn line(core: Core, regs: Registers, arrays: &mut Arrays, host: &Host<'_>) -> Core
    requires { Begins (world_in core arrays.old) }
    ensures { world_in result arrays.new ≡ line_world (seen host.now) regs (world_in core arrays.old) }
{
    let g = registers::timed(regs);
    let turned = turn(core.side, g);
    fetch(
        &mut arrays.slots,
        core.side,
        turned,
        regs.ptrs,
        &host.memory,
    );
    let pen = show(&mut arrays.matrix, core, turned, regs, host);
    Core {
        side: turned.side,
        pen,
    }
}
