// The sprites' slots of a whole line: what they fetch, slot after slot in the kind's order.
#![tactic(auto)]

ghost use Rattle.std.specs.Prelude.{◌≡◌, ◌<◌};
ghost use Rattle.laws.specs.Bits.{has_bit};
ghost use Rattle.schedule.specs.Kind.{kind_of};
ghost use Rattle.sprites.specs.Sprites.{sprite_at};
ghost use Rattle.lines.specs.Sprites.{early_slots, late_slots};
ghost use Rattle.lines.specs.Slots.{slots_read};
ghost use Rattle.fetches.specs.Fetches.{latches, in_slots, from, fetch_early, fetch_late, fetching_read, pointing_read, sprite_read, four_five, six_seven, four_to_seven, zero_one, zero_to_two, place_early, place_late, third_early, third_late};

use access::Slots;
use memory::Memory;
use sprites::Sprites;

// What all slots of an end of a line go by: the sprites before them, AEC in the cycles, bit by bit, and the memory.
#[derive(Clone, Copy)]
struct Fetch<'a> {
    sprites: Sprites,
    low: u32,
    ptrs: u8,
    memory: Memory<'a>,
}

// The pointer slot of sprite k; bit `at` is AEC for it. A slot stands where it is called, compiled for its own sprite.
#[inline(always)]
#[tactic(auto, unfolding(crate::specs::Fetches::pointing_read, sprites::specs::Sprites::sprite_at))]
fn pointing(slots: &mut Slots, f: Fetch<'_>, k: usize, at: u32)
    requires sprite { k < 8 }
    requires bit { at < 32 }
    ensures { in_slots slots.new ≡ from f.entry (pointing_read k (has_bit f.entry.sprites.dma k) (sprite_at f.entry.sprites k).mc (has_bit f.entry.low at)) (in_slots slots.old) }
{
    let on = laws::has_bit(f.sprites.dma, k);
    let mc = f.sprites.each[k].mc;
    let low = laws::is_set(f.low, at);
    let Slots {
        pointers,
        bytes,
        ..
    } = slots;
    access::pointer_slot(pointers, bytes, k, k == 0, on, mc, low, f.ptrs, &f.memory);
}

// Its data slot, with MC as the slot finds it.
#[inline(always)]
#[tactic(auto, unfolding(crate::specs::Fetches::fetching_read))]
fn fetching(slots: &mut Slots, f: Fetch<'_>, k: usize, mc: u8, at: u32)
    requires sprite { k < 8 }
    requires bit { at < 32 }
    ensures { in_slots slots.new ≡ fetching_read k (has_bit f.entry.sprites.dma k) mc (has_bit f.entry.low at) f.entry.memory.ram.now f.entry.memory.rom.now f.entry.memory.bank (in_slots slots.old) }
{
    let on = laws::has_bit(f.sprites.dma, k);
    let low = laws::is_set(f.low, at);
    let Slots {
        pointers,
        bytes,
        words,
    } = slots;
    access::data_slot(pointers, bytes, words, k, on, mc, low, &f.memory);
}

// Both slots of sprite k; AEC for the one is bit `first`, for the other bit `second`.
#[inline(always)]
#[tactic(auto, unfolding(crate::specs::Fetches::pair_read, sprites::specs::Sprites::sprite_at))]
fn pair(slots: &mut Slots, f: Fetch<'_>, k: usize, first: u32, second: u32)
    requires sprite { k < 8 }
    requires first { first < 32 }
    requires second { second < 32 }
    ensures { in_slots slots.new ≡ from f.entry (sprite_read f.entry.sprites f.entry.low k first second) (in_slots slots.old) }
{
    let on = laws::has_bit(f.sprites.dma, k);
    let next = sprites::moved(on, f.sprites.each[k].mc, 1);
    pointing(slots, f, k, first);
    fetching(slots, f, k, next, second);
}

// The sprites 4 and 5; bit `at` is AEC for the first one's data, and the other bits follow it.
#[tactic(auto, unfolding(crate::specs::Fetches::four_five))]
fn four_five(slots: &mut Slots, f: Fetch<'_>, at: u32)
    requires { at < 16 }
    ensures { in_slots slots.new ≡ from f.entry (four_five f.entry.sprites f.entry.low at) (in_slots slots.old) }
{
    pair(slots, f, 4, 2, at);
    pair(slots, f, 5, at + 1, at + 2);
}

// The sprites 6 and 7, from bit `at` on.
#[tactic(auto, unfolding(crate::specs::Fetches::six_seven))]
fn six_seven(slots: &mut Slots, f: Fetch<'_>, at: u32)
    requires { at < 16 }
    ensures { in_slots slots.new ≡ from f.entry (six_seven f.entry.sprites f.entry.low at) (in_slots slots.old) }
{
    pair(slots, f, 6, at, at + 1);
    pair(slots, f, 7, at + 2, at + 3);
}

// The four sprites whose slots are early on both kinds.
#[tactic(auto, unfolding(crate::specs::Fetches::four_to_seven))]
fn four_to_seven(slots: &mut Slots, f: Fetch<'_>, at: u32)
    requires { at < 8 }
    ensures { in_slots slots.new ≡ from f.entry (four_to_seven f.entry.sprites f.entry.low at) (in_slots slots.old) }
{
    four_five(slots, f, at);
    six_seven(slots, f, at + 3);
}

// The sprites 0 and 1: bit `at` is the cycle of sprite 0's pointer, and serves its data too.
#[tactic(auto, unfolding(crate::specs::Fetches::zero_one))]
fn zero_one(slots: &mut Slots, f: Fetch<'_>, at: u32)
    requires { at < 16 }
    ensures { in_slots slots.new ≡ from f.entry (zero_one f.entry.sprites f.entry.low at) (in_slots slots.old) }
{
    pair(slots, f, 0, at, at);
    pair(slots, f, 1, at + 1, at + 2);
}

// The three sprites whose slots are late on both kinds.
#[tactic(auto, unfolding(crate::specs::Fetches::zero_to_two))]
fn zero_to_two(slots: &mut Slots, f: Fetch<'_>, at: u32)
    requires { at < 8 }
    ensures { in_slots slots.new ≡ from f.entry (zero_to_two f.entry.sprites f.entry.low at) (in_slots slots.old) }
{
    zero_one(slots, f, at);
    pair(slots, f, 2, at + 3, at + 4);
}

// Sprite 3 as a line begins: on the 6567R8 its pointer slot was in the line before.
#[tactic(auto, unfolding(crate::specs::Fetches::third_early, schedule::specs::Kind::kind_of, sprites::specs::Sprites::sprite_at))]
fn third(slots: &mut Slots, f: Fetch<'_>, kind: u8)
    ensures { in_slots slots.new ≡ from f.entry (third_early f.entry.sprites f.entry.low (kind_of kind)) (in_slots slots.old) }
{
    if kind == schedule::KIND_6567R8 {
        fetching(slots, f, 3, f.sprites.each[3].mc, 1);
    } else {
        pair(slots, f, 3, 1, 2);
    }
}

// Sprite 3 as a line ends: only the 6567R8 has a slot of it there.
#[tactic(auto, unfolding(crate::specs::Fetches::third_late, schedule::specs::Kind::kind_of))]
fn third_late(slots: &mut Slots, f: Fetch<'_>, kind: u8)
    ensures { in_slots slots.new ≡ from f.entry (third_late f.entry.sprites f.entry.low (kind_of kind)) (in_slots slots.old) }
{
    if kind == schedule::KIND_6567R8 {
        pointing(slots, f, 3, 10);
    }
}

// The bit of sprite 4's data at a line's beginning: on the 6567R8 it is a cycle earlier.
#[tactic(auto, unfolding(crate::specs::Fetches::place_early, schedule::specs::Kind::kind_of))]
fn place_early(kind: u8) -> u32
    ensures { result ≡ place_early (kind_of kind) }
{
    if kind == schedule::KIND_6567R8 { 2 } else { 3 }
}

// The bit of sprite 0's pointer at its end, cycle 58: on the 6567R8 it is a cycle later.
#[tactic(auto, unfolding(crate::specs::Fetches::place_late, schedule::specs::Kind::kind_of))]
fn place_late(kind: u8) -> u32
    ensures { result ≡ place_late (kind_of kind) }
{
    if kind == schedule::KIND_6567R8 { 5 } else { 4 }
}

// What the slots at the beginning of a line fetch; bit c of `low` is set where AEC is low in cycle c.
#[tactic(auto, using(crate::proofs::Glue::early_whole, crate::proofs::Glue::early_fits))]
pub fn early(slots: &mut Slots, sprites: Sprites, kind: u8, low: u32, ptrs: u8, m: &Memory<'_>)
    ensures { latches slots.new.pointers slots.new.bytes slots.new.words ≡ slots_read (kind_of kind) (fetch_early low ptrs m.now.ram.now m.now.rom.now m.now.bank) (early_slots (kind_of kind)) sprites (latches slots.old.pointers slots.old.bytes slots.old.words) }
{
    let f = Fetch {
        sprites,
        low,
        ptrs,
        memory: *m,
    };
    let at = place_early(kind);
    third(slots, f, kind);
    four_to_seven(slots, f, at);
}

// What the slots at its end fetch, with the sprites as the load of MC left them; bit c - 54 of `low` is for cycle c.
#[tactic(auto, using(crate::proofs::Glue::late_whole, crate::proofs::Glue::late_fits))]
pub fn late(slots: &mut Slots, sprites: Sprites, kind: u8, low: u32, ptrs: u8, m: &Memory<'_>)
    ensures { latches slots.new.pointers slots.new.bytes slots.new.words ≡ slots_read (kind_of kind) (fetch_late low ptrs m.now.ram.now m.now.rom.now m.now.bank) (late_slots (kind_of kind)) sprites (latches slots.old.pointers slots.old.bytes slots.old.words) }
{
    let f = Fetch {
        sprites,
        low,
        ptrs,
        memory: *m,
    };
    let at = place_late(kind);
    zero_to_two(slots, f, at);
    third_late(slots, f, kind);
}
