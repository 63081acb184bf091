// The C front end as a static library: each export is the function of `frontend` of its name, with its promise.
#![tactic(auto)]

ghost use Rattle.std.specs.Prelude.{◌≡◌, ◌+◌};
ghost use Rattle.schedule.specs.Kind.{the6569, kind_of, last_cycle, last_line};
ghost use Rattle.schedule.specs.Requests.{mask_at, sprites_in};
ghost use Rattle.frontend.specs.Plain.{bad_line_number};

#[unsafe(no_mangle)]
pub extern "C" fn nickelplait_mask(cycle: u16) -> u8
    ensures { result ≡ mask_at the6569 cycle }
{
    frontend::nickelplait_mask(cycle)
}

#[unsafe(no_mangle)]
pub extern "C" fn nickelplait_bad_line(raster: u16, yscroll: u8, latch: u8) -> u8
    ensures { result ≡ bad_line_number raster yscroll latch }
{
    frontend::nickelplait_bad_line(raster, yscroll, latch)
}

#[unsafe(no_mangle)]
pub extern "C" fn nickelplait_sprite_count(dma: u8) -> u32
    ensures { result ≡ sprites_in dma }
{
    frontend::nickelplait_sprite_count(dma)
}

#[unsafe(no_mangle)]
pub extern "C" fn nickelplait_kind_mask(kind: u8, cycle: u16) -> u8
    ensures { result ≡ mask_at (kind_of kind) cycle }
{
    frontend::nickelplait_kind_mask(kind, cycle)
}

#[unsafe(no_mangle)]
pub extern "C" fn nickelplait_kind_cycles(kind: u8) -> u16
    ensures { result ≡ last_cycle (kind_of kind) }
{
    frontend::nickelplait_kind_cycles(kind)
}

#[unsafe(no_mangle)]
pub extern "C" fn nickelplait_kind_lines(kind: u8) -> u16
    ensures { result ≡ last_line (kind_of kind) + 1 }
{
    frontend::nickelplait_kind_lines(kind)
}
