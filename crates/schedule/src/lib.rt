// The schedule of a line: what the kind of chip decides, when each event happens, which sprites ask for the bus, and how many have DMA.
#![tactic(auto, unfolding(crate::specs::Diagram::happens, crate::specs::Diagram::slot_after_bus, crate::specs::Kind::known, crate::specs::Kind::kind_of, crate::specs::Machinery::Places::pointing_at, crate::specs::Machinery::Places::fetching_at, crate::specs::Machinery::Places::sprite_in, crate::specs::Machinery::Places::is_calm, crate::specs::Machinery::Stretches::is_later, crate::specs::Machinery::Stretches::is_past, crate::specs::Machinery::Stretches::is_early, crate::specs::Machinery::Stretches::is_between, crate::specs::Machinery::Stretches::is_still, crate::specs::Machinery::Stretches::before_graphics, crate::specs::Machinery::Reads::lit_reasons, crate::specs::Machinery::Reads::pointer_reasons, crate::specs::Machinery::Reads::data_reasons, crate::specs::Machinery::Reads::gap_reasons))]

ghost use Rattle.std.specs.Prelude.{◌≡◌};
ghost use Rattle.schedule.specs.Kind.{known, kind_of, last_cycle, last_line, first_pointer};
ghost use Rattle.schedule.specs.Diagram.{line_begins, frame_ends, refresh, matrix_request, vc_load, access_chosen, character_access, vmli_counts, graphics_access, late_idle, access_ends, graphics_cleared, row_ends, crunch, mcbase_step, first_phase, second_phase, mc_load, main_remembered, left40, left38, right38, right40, line_ends, happens, slot_after_bus};
ghost use Rattle.schedule.specs.Requests.{mask_at, sprites_in};
ghost use Rattle.schedule.specs.Machinery.Places.{place_of, asking_at, pointing_at, fetching_at, sprite_in, is_calm};
ghost use Rattle.schedule.specs.Machinery.Stretches.{is_later, is_past, is_early, is_between, is_still, before_graphics};
ghost use Rattle.schedule.specs.Machinery.Reads.{seen, sprite_reason, graphics_reason, gap_reason, lit_reasons, pointer_reasons, data_reasons, gap_reasons};

// ---- the kinds of chip

pub const KIND_6569: u8 = 0;

pub const KIND_6567R8: u8 = 1;

pub fn is_known(kind: u8) -> bool
    ensures { result ≡ known kind }
{
    kind <= KIND_6567R8
}

// The cycles of a line are numbered from 1.
pub fn last_cycle(kind: u8) -> u16
    ensures { result ≡ last_cycle (kind_of kind) }
{
    if kind == KIND_6567R8 {
        return 65;
    }
    63
}

// The lines of a frame are numbered from 0.
pub fn last_line(kind: u8) -> u16
    ensures { result ≡ last_line (kind_of kind) }
{
    if kind == KIND_6567R8 {
        return 262;
    }
    311
}

// Sprite 0's pointer slot: the other sprites' follow it, one every second cycle.
fn first_pointer(kind: u8) -> u16
    ensures { result ≡ first_pointer (kind_of kind) }
{
    if kind == KIND_6567R8 {
        return 59;
    }
    58
}

// The first character access, from which VMLI's limit counts.
pub const FIRST_CHARACTER: u16 = 15;

// A tick after these cycles may only count: the left compares are over, and a character access is still to come after it.
pub const COUNTED_FROM: u16 = 18;

pub const COUNTED_LAST: u16 = 52;

// ---- places: the cycles since sprite 0 began to ask, which the two kinds have alike

// A sprite asks for the bus so many cycles before its pointer.
const WARNING: u16 = 3;

// The places at which some sprite asks; from WARNING on some sprite has a slot.
const PLACES: u16 = WARNING + 2 * 8;

// So many sprites ask at once: one begins every second cycle, and goes on for WARNING + 2, the pointer and the data slot among them.
const AT_ONCE: u16 = (WARNING + 3) / 2;

const ALL_OF_THEM: u16 = (1 << AT_ONCE) - 1;

const NEWEST: u16 = 1 << (AT_ONCE - 1);

// A line goes round, so the cycles before sprite 0's first request come after the last one.
pub fn place(kind: u8, cycle: u16) -> u16
    ensures { result ≡ place_of (kind_of kind) cycle }
{
    let first = first_pointer(kind) - WARNING;
    if first <= cycle {
        return cycle - first;
    }
    cycle + last_cycle(kind) - first
}

// The sprites that ask at a place. They move up by one every second cycle; in between the oldest is over.
pub fn asking(place: u16) -> u8
    ensures { result ≡ asking_at place }
{
    if PLACES <= place {
        return 0;
    }
    (((ALL_OF_THEM - place % 2) << (place / 2)) / NEWEST % 256) as u8
}

// Some sprite's pointer slot is at this place.
pub fn pointing(place: u16) -> bool
    ensures { result ≡ pointing_at place }
{
    (WARNING <= place) & (place < PLACES) & (place % 2 == 1)
}

// Some sprite's data slot is at this place: the one after each pointer slot.
pub fn fetching(place: u16) -> bool
    ensures { result ≡ fetching_at place }
{
    (WARNING <= place) & (place < PLACES) & (place % 2 == 0)
}

// The sprite whose slot this place holds; 0 where it holds none.
pub fn sprite_at(place: u16) -> usize
    ensures { result ≡ sprite_in place }
{
    if place < WARNING {
        return 0;
    }
    if PLACES <= place {
        return 0;
    }
    ((place - WARNING) / 2) as usize
}

// Away from the sprites' phases of a line's end.
pub fn calm(place: u16) -> bool
    ensures { result ≡ is_calm place }
{
    WARNING < place
}

// ---- the requests

// The sprites that ask for the bus in a cycle, sprite k at bit k; none for a number that is no cycle.
pub fn mask(kind: u8, cycle: u16) -> u8
    ensures { result ≡ mask_at (kind_of kind) cycle }
{
    if cycle < 1 {
        return 0;
    }
    if last_cycle(kind) < cycle {
        return 0;
    }
    asking(place(kind, cycle))
}

// How many sprites have DMA on.
pub fn sprites_in(dma: u8) -> u32
    ensures { result ≡ sprites_in dma }
{
    u8::count_ones(dma)
}

// The slots of cycles 1 and 2 and sprite 0's pointer slot come after their cycle's arbitration.
#[tactic(auto, using(crate::proofs::Places::zero_first), unfolding(crate::specs::Diagram::slot_after_bus))]
pub fn slot_after_bus(kind: u8, cycle: u16) -> bool
    ensures { result ≡ slot_after_bus (kind_of kind) cycle }
{
    (cycle == 1) | (cycle == 2) | (cycle == first_pointer(kind))
}

// ---- stretches of a line in which some events never happen

// Past the line's begin and the frame's end.
pub fn later(cycle: u16) -> bool
    ensures { result ≡ is_later cycle }
{
    2 < cycle
}

// Past the left compares.
pub fn past(cycle: u16) -> bool
    ensures { result ≡ is_past cycle }
{
    18 < cycle
}

// Before the last graphics access.
pub fn early(cycle: u16) -> bool
    ensures { result ≡ is_early cycle }
{
    cycle < 55
}

// Between the compares of a line's ends.
pub fn between(cycle: u16) -> bool
    ensures { result ≡ is_between cycle }
{
    ((2 <= cycle) & (cycle <= 55)) | ((58 <= cycle) & (cycle <= 62))
}

// Where no counter of a row moves.
pub fn still(cycle: u16) -> bool
    ensures { result ≡ is_still cycle }
{
    ((3 <= cycle) & (cycle <= 13)) | (59 <= cycle)
}

// Where the next cycle has a graphics access.
pub fn before_graphics(cycle: u16) -> bool
    ensures { result ≡ before_graphics cycle }
{
    (15 <= cycle) & (cycle <= 54)
}

// ---- why a cycle reads

// The reasons of a cycle's reads, in order, 0 for none.
#[derive(Clone, Copy)]
pub struct Reasons {
    pub first: u8,
    pub second: u8,
}

pub const POINTER: u8 = 1;

pub const SPRITE: u8 = 2;

pub const MATRIX: u8 = 3;

pub const GRAPHICS: u8 = 4;

pub const IDLE: u8 = 5;

pub const REFRESH: u8 = 6;

// A reason where there is a read.
fn when(go: bool, reason: u8) -> u8
    ensures { result ≡ seen go reason }
{
    if go {
        return reason;
    }
    0
}

// A sprite's byte without DMA is an idle read.
fn sprite_reason(on: bool) -> u8
    ensures { result ≡ sprite_reason on }
{
    if on {
        return SPRITE;
    }
    IDLE
}

fn graphics_reason(moves: bool) -> u8
    ensures { result ≡ graphics_reason moves }
{
    if moves {
        return GRAPHICS;
    }
    IDLE
}

fn gap_reason(refreshing: bool) -> u8
    ensures { result ≡ gap_reason refreshing }
{
    if refreshing {
        return REFRESH;
    }
    IDLE
}

// Of a cycle with a graphics access.
pub fn reasons_lit(moves: bool, fills: bool) -> Reasons
    ensures { result ≡ lit_reasons moves fills }
{
    Reasons {
        first: graphics_reason(moves),
        second: when(fills, MATRIX),
    }
}

// Of a pointer slot: `first` is sprite 0's, whose byte 2 needs the bus.
pub fn reasons_pointer(first: bool, on: bool, low: bool) -> Reasons
    ensures { result ≡ pointer_reasons first on low }
{
    Reasons {
        first: POINTER,
        second: when((on & !first) | low, sprite_reason(on)),
    }
}

// Of a data slot.
pub fn reasons_data(on: bool, low: bool) -> Reasons
    ensures { result ≡ data_reasons on low }
{
    let byte = sprite_reason(on);
    Reasons {
        first: byte,
        second: when(on | low, byte),
    }
}

// Of a cycle that has neither a slot nor a graphics access, nor one of the matrix.
pub fn reasons_gap(refreshing: bool) -> Reasons
    ensures { result ≡ gap_reasons refreshing }
{
    Reasons {
        first: gap_reason(refreshing),
        second: 0,
    }
}

// ---- each event of the diagram, as a test of the cycle

pub fn refresh(cycle: u16) -> bool
    ensures { result ≡ happens refresh cycle }
{
    (11 <= cycle) & (cycle <= 15)
}

pub fn line_begins(cycle: u16) -> bool
    ensures { result ≡ happens line_begins cycle }
{
    cycle == 1
}

pub fn frame_ends(cycle: u16) -> bool
    ensures { result ≡ happens frame_ends cycle }
{
    cycle == 2
}

pub fn matrix_request(cycle: u16) -> bool
    ensures { result ≡ happens matrix_request cycle }
{
    (12 <= cycle) & (cycle <= 54)
}

pub fn vc_load(cycle: u16) -> bool
    ensures { result ≡ happens vc_load cycle }
{
    cycle == 14
}

pub fn access_chosen(cycle: u16) -> bool
    ensures { result ≡ happens access_chosen cycle }
{
    cycle == 15
}

pub fn character_access(cycle: u16) -> bool
    ensures { result ≡ happens character_access cycle }
{
    (15 <= cycle) & (cycle <= 54)
}

pub fn vmli_counts(cycle: u16) -> bool
    ensures { result ≡ happens vmli_counts cycle }
{
    (14 <= cycle) & (cycle <= 55)
}

pub fn graphics_access(cycle: u16) -> bool
    ensures { result ≡ happens graphics_access cycle }
{
    (16 <= cycle) & (cycle <= 55)
}

pub fn late_idle(cycle: u16) -> bool
    ensures { result ≡ happens late_idle cycle }
{
    (18 <= cycle) & (cycle <= 55)
}

pub fn access_ends(cycle: u16) -> bool
    ensures { result ≡ happens access_ends cycle }
{
    cycle == 55
}

pub fn graphics_cleared(cycle: u16) -> bool
    ensures { result ≡ happens graphics_cleared cycle }
{
    cycle == 56
}

pub fn row_ends(cycle: u16) -> bool
    ensures { result ≡ happens row_ends cycle }
{
    cycle == 58
}

pub fn crunch(cycle: u16) -> bool
    ensures { result ≡ happens crunch cycle }
{
    cycle == 15
}

pub fn mcbase_step(cycle: u16) -> bool
    ensures { result ≡ happens mcbase_step cycle }
{
    cycle == 16
}

#[tactic(auto, using(crate::proofs::Places::first_least), unfolding(crate::specs::Diagram::happens))]
pub fn first_phase(kind: u8, cycle: u16) -> bool
    ensures { result ≡ happens (first_phase (kind_of kind)) cycle }
{
    cycle == first_pointer(kind) - WARNING
}

#[tactic(auto, using(crate::proofs::Places::first_least), unfolding(crate::specs::Diagram::happens))]
pub fn second_phase(kind: u8, cycle: u16) -> bool
    ensures { result ≡ happens (second_phase (kind_of kind)) cycle }
{
    cycle == first_pointer(kind) - 2
}

pub fn mc_load(kind: u8, cycle: u16) -> bool
    ensures { result ≡ happens (mc_load (kind_of kind)) cycle }
{
    cycle == first_pointer(kind)
}

pub fn main_remembered(cycle: u16) -> bool
    ensures { result ≡ happens main_remembered cycle }
{
    (16 <= cycle) & (cycle <= 17)
}

pub fn left40(cycle: u16) -> bool
    ensures { result ≡ happens left40 cycle }
{
    cycle == 17
}

pub fn left38(cycle: u16) -> bool
    ensures { result ≡ happens left38 cycle }
{
    cycle == 18
}

pub fn right38(cycle: u16) -> bool
    ensures { result ≡ happens right38 cycle }
{
    cycle == 56
}

pub fn right40(cycle: u16) -> bool
    ensures { result ≡ happens right40 cycle }
{
    cycle == 57
}

pub fn line_ends(kind: u8, cycle: u16) -> bool
    ensures { result ≡ happens (line_ends (kind_of kind)) cycle }
{
    cycle == last_cycle(kind)
}
