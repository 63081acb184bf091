// The C front end: questions on plain numbers, each with an answer for every number. Those that take no kind are about the 6569.
#![tactic(auto)]

ghost use Rattle.std.specs.Prelude.{◌≡◌, ◌+◌};
ghost use Rattle.schedule.specs.Kind.{the6569, kind_of, last_cycle, last_line};
ghost use Rattle.schedule.specs.Requests.{mask_at, sprites_in};
ghost use Rattle.frontend.specs.Plain.{bad_line_number};

// The sprites that ask for the bus in a cycle of the 6569, sprite k at bit k.
#[tactic(auto, unfolding(schedule::specs::Kind::kind_of))]
#[unsafe(no_mangle)]
pub extern "C" fn nickelplait_mask(cycle: u16) -> u8
    ensures { result ≡ mask_at the6569 cycle }
{
    schedule::mask(schedule::KIND_6569, cycle)
}

// Whether a raster line is a bad one: 1 where it is, else 0.
#[tactic(auto, unfolding(crate::specs::Plain::bad_line_number))]
#[unsafe(no_mangle)]
pub extern "C" fn nickelplait_bad_line(raster: u16, yscroll: u8, latch: u8) -> u8
    ensures { result ≡ bad_line_number raster yscroll latch }
{
    timing::bad_line(raster, yscroll, latch != 0) as u8
}

// How many sprites of a DMA mask have DMA on.
#[unsafe(no_mangle)]
pub extern "C" fn nickelplait_sprite_count(dma: u8) -> u32
    ensures { result ≡ sprites_in dma }
{
    schedule::sprites_in(dma)
}

// The same of a kind of chip, 0 the 6569 and 1 the 6567R8; any other number is answered as the 6569.
#[unsafe(no_mangle)]
pub extern "C" fn nickelplait_kind_mask(kind: u8, cycle: u16) -> u8
    ensures { result ≡ mask_at (kind_of kind) cycle }
{
    schedule::mask(kind, cycle)
}

// How many cycles a line has: they are numbered from 1.
#[unsafe(no_mangle)]
pub extern "C" fn nickelplait_kind_cycles(kind: u8) -> u16
    ensures { result ≡ last_cycle (kind_of kind) }
{
    schedule::last_cycle(kind)
}

// How many lines a frame has: they are numbered from 0.
#[unsafe(no_mangle)]
pub extern "C" fn nickelplait_kind_lines(kind: u8) -> u16
    ensures { result ≡ last_line (kind_of kind) + 1 }
{
    schedule::last_line(kind) + 1
}
