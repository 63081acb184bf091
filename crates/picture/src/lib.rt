// The picture side: what the accesses of a cycle leave in it. It is told what to do by the timing side's orders.
#![tactic(auto)]

ghost use Rattle.std.specs.Prelude.{◌≡◌, Bool, ◌<◌};
ghost use Rattle.laws.specs.Clock.{InRange};
ghost use Rattle.access.specs.Matrix.{filled};
ghost use Rattle.access.specs.Merge.{latch_of};
ghost use Rattle.picture.specs.Machinery.Spots.{dark_byte, finished, drawn_by, gap_spot, slot_noted, lit_noted, dark_noted};
ghost use Rattle.picture.specs.Pen.{fresh_pen, same_clock, character_of, graphics_of, slotted, matrix_after};

use access::{Latch, Slots, Spots};
use memory::{Found, Host, Memory};
use schedule::Reasons;
use side::Orders;

// The picture's numbers; its arrays are lent beside it.
#[derive(Clone, Copy)]
pub struct Pen {
    pub ch: u16,
    pub carry: u16,
    pub gfx: u8,
    pub mode: u8,
    pub old: u8,
    pub changing: bool,
    pub forced: i64,
}

// The picture's numbers after a cycle, and where its graphics and its character access read.
#[derive(Clone, Copy)]
pub struct Drawn {
    pub pen: Pen,
    pub spots: Spots,
}

impl Pen {
    #[tactic(auto, unfolding(crate::specs::Pen::fresh_pen))]
    pub fn new() -> Self
        ensures { result ≡ fresh_pen }
    {
        Self {
            ch: 0,
            carry: 0,
            gfx: 0,
            mode: 0,
            old: 0,
            changing: false,
            forced: 0,
        }
    }
}

// Whether this is the very cycle that forced the bad line.
#[tactic(auto, using(crate::proofs::Same::same_bits))]
pub fn same_clock(clock: i64, forced: i64) -> bool
    ensures { result ≡ same_clock clock forced }
{
    clock == forced
}

// The character latch after the graphics access of this cycle, if it has one.
#[tactic(auto, unfolding(crate::specs::Pen::character_of))]
pub fn character(matrix: &mut [u16; 40], orders: Orders, clock: i64, pen: Pen) -> Latch
    requires { InRange clock × InRange pen.forced }
    ensures latch { result ≡ latch_of (character_of matrix.old orders clock pen) }
    ensures matrix { matrix.new ≡ (character_of matrix.old orders clock pen).matrix }
{
    let latch = Latch {
        ch: pen.ch,
        carry: pen.carry,
    };
    if !orders.graphics {
        return latch;
    }
    let f = access::since(clock, pen.forced);
    access::latched_char(
        matrix,
        orders.moves,
        orders.hidden,
        orders.plain,
        orders.cycle,
        f,
        orders.vmli,
        latch,
    )
}

// The graphics byte after a cycle without a graphics access, which reads nowhere.
fn dark_byte(orders: Orders, pen: Pen) -> Found
    ensures { result ≡ dark_byte orders pen }
{
    Found {
        byte: laws::pick(schedule::graphics_cleared(orders.cycle), 0, pen.gfx),
        address: 0,
    }
}

// The graphics byte after this cycle, and where its access read; 0 where it has none.
#[tactic(auto, unfolding(crate::specs::Pen::graphics_of))]
pub fn graphics(
    ch: u16,
    orders: Orders,
    clock: i64,
    pen: Pen,
    mode: u8,
    ptrs: u8,
    m: &Memory<'_>,
) -> Found
    ensures { result ≡ graphics_of ch orders clock pen mode ptrs m.now.ram.now m.now.rom.now m.now.bank }
{
    if !orders.graphics {
        return dark_byte(orders, pen);
    }
    let forced = orders.waiting & schedule::late_idle(orders.cycle) & same_clock(clock, pen.forced);
    let address = access::access_address(
        orders.moves,
        forced,
        mode,
        pen.old,
        ptrs,
        ch,
        orders.vc,
        orders.rc,
        m.bank,
    );
    memory::read(m, address)
}

// The end of a cycle, once its latch and its graphics byte are there: the character access, and the mode moves on.
fn finished(
    pen: Pen,
    orders: Orders,
    mode: u8,
    ptrs: u8,
    latch: Latch,
    found: Found,
    matrix: &mut [u16; 40],
    host: &Host<'_>,
) -> Drawn
    ensures drawn { result ≡ finished pen orders mode ptrs latch found host.now.memory.ram.now host.now.memory.rom.now host.now.memory.bank }
    ensures matrix { matrix.new ≡ filled matrix.old orders.fills orders.place orders.column ptrs host.now.memory.ram.now host.now.memory.rom.now host.now.colour.now host.now.memory.bank }
{
    let filled = access::fill(
        matrix,
        orders.fills,
        orders.place,
        orders.column,
        ptrs,
        host,
    );
    let old = laws::pick(pen.changing, mode, pen.old);
    Drawn {
        pen: Pen {
            ch: latch.ch,
            carry: latch.carry,
            gfx: found.byte,
            mode,
            old,
            changing: false,
            ..pen
        },
        spots: Spots {
            first: found.address,
            second: filled,
        },
    }
}

// The picture's numbers after a cycle; the matrix line takes the character access of the same cycle.
#[tactic(auto, unfolding(crate::specs::Machinery::Spots::drawn_by, crate::specs::Pen::pen_after, crate::specs::Pen::matrix_after))]
pub fn draw(
    pen: Pen,
    orders: Orders,
    clock: i64,
    mode: u8,
    ptrs: u8,
    matrix: &mut [u16; 40],
    host: &Host<'_>,
) -> Drawn
    requires { InRange clock × InRange pen.forced }
    ensures drawn { result ≡ drawn_by matrix.old orders clock pen mode ptrs host.now.memory.ram.now host.now.memory.rom.now host.now.memory.bank }
    ensures matrix { matrix.new ≡ matrix_after matrix.old orders clock pen ptrs host.now.memory.ram.now host.now.memory.rom.now host.now.colour.now host.now.memory.bank }
{
    let latch = character(matrix, orders, clock, pen);
    let found = graphics(latch.ch, orders, clock, pen, mode, ptrs, &host.memory);
    finished(pen, orders, mode, ptrs, latch, found, matrix, host)
}

// The same where the cycle has no graphics access: the latch stays.
#[tactic(auto, unfolding(crate::specs::Machinery::Spots::drawn_by, crate::specs::Pen::pen_after, crate::specs::Pen::matrix_after, crate::specs::Pen::character_of, crate::specs::Pen::graphics_of))]
pub fn draw_dark(
    pen: Pen,
    orders: Orders,
    clock: i64,
    mode: u8,
    ptrs: u8,
    matrix: &mut [u16; 40],
    host: &Host<'_>,
) -> Drawn
    requires { orders.graphics ≡ Bool.false }
    ensures drawn { result ≡ drawn_by matrix.old orders clock pen mode ptrs host.now.memory.ram.now host.now.memory.rom.now host.now.memory.bank }
    ensures matrix { matrix.new ≡ matrix_after matrix.old orders clock pen ptrs host.now.memory.ram.now host.now.memory.rom.now host.now.colour.now host.now.memory.bank }
{
    let latch = Latch {
        ch: pen.ch,
        carry: pen.carry,
    };
    finished(
        pen,
        orders,
        mode,
        ptrs,
        latch,
        dark_byte(orders, pen),
        matrix,
        host,
    )
}

// Where a cycle without a slot and without graphics reads: its refresh, or the idle access.
fn gap_spot(refreshing: bool, counter: u8) -> u16
    ensures { result ≡ gap_spot refreshing counter }
{
    if refreshing {
        return raster::refresh_address(counter);
    }
    0x3FFF
}

// The sprite slot of a cycle, if it has one; and the reads of the slot, or of the gap where there is none, in one number.
#[tactic(auto, unfolding(crate::specs::Machinery::Spots::slot_noted, crate::specs::Pen::slotted))]
pub fn slot(slots: &mut Slots, orders: Orders, ptrs: u8, m: &Memory<'_>) -> u64
    requires { orders.sprite < 8 }
    ensures noted { result ≡ slot_noted slots.old.pointers orders ptrs m.now.ram.now m.now.rom.now m.now.bank }
    ensures pointers { slots.new.pointers ≡ (slotted slots.old.pointers slots.old.bytes slots.old.words orders ptrs m.now.ram.now m.now.rom.now m.now.bank).pointers }
    ensures bytes { slots.new.bytes ≡ (slotted slots.old.pointers slots.old.bytes slots.old.words orders ptrs m.now.ram.now m.now.rom.now m.now.bank).bytes }
    ensures words { slots.new.words ≡ (slotted slots.old.pointers slots.old.bytes slots.old.words orders ptrs m.now.ram.now m.now.rom.now m.now.bank).words }
{
    let k = orders.sprite;
    if orders.pointing {
        let at = access::pointer_slot(
            &mut slots.pointers,
            &mut slots.bytes,
            k,
            k == 0,
            orders.mask,
            orders.mc,
            orders.low,
            ptrs,
            m,
        );
        return access::noted(
            schedule::reasons_pointer(k == 0, orders.mask, orders.low),
            at,
        );
    }
    if orders.fetching {
        let at = access::data_slot(
            &slots.pointers,
            &mut slots.bytes,
            &mut slots.words,
            k,
            orders.mask,
            orders.mc,
            orders.low,
            m,
        );
        return access::noted(schedule::reasons_data(orders.mask, orders.low), at);
    }
    let refreshing = schedule::refresh(orders.cycle);
    let at = Spots {
        first: gap_spot(refreshing, orders.refresh),
        second: 0,
    };
    access::noted(schedule::reasons_gap(refreshing), at)
}

// The reads of a cycle with a graphics access: `at` is where `draw` read.
#[tactic(auto, unfolding(crate::specs::Machinery::Spots::lit_noted))]
pub fn noted_lit(orders: Orders, at: Spots) -> u64
    ensures { result ≡ lit_noted orders at }
{
    access::noted(schedule::reasons_lit(orders.moves, orders.fills), at)
}

// The reads of a cycle without one: its slot's or its gap's; the matrix's comes after the refresh.
#[tactic(auto, unfolding(crate::specs::Machinery::Spots::dark_noted))]
pub fn noted_dark(orders: Orders, slot: u64, at: Spots) -> u64
    ensures { result ≡ dark_noted orders slot at }
{
    let fills = orders.fills;
    if fills {
        let why = Reasons {
            first: schedule::REFRESH,
            second: schedule::MATRIX,
        };
        let both = Spots {
            first: raster::refresh_address(orders.refresh),
            second: at.second,
        };
        return access::noted(why, both);
    }
    slot
}
