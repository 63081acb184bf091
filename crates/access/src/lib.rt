// What the chip reads in a cycle: the matrix, the graphics, the sprites' slots, and what an access leaves behind.
// The picture's arrays are lent, and say their lengths; every step takes any number, so that a state's bounds need not travel.
#![tactic(auto)]

ghost use Rattle.std.specs.Prelude.{◌≡◌, true, false, [], ◌+◌, ◌*◌, ◌<◌, get_or, set};
ghost use Rattle.laws.specs.Clock.{InRange};
ghost use Rattle.access.specs.Reads.{told};
ghost use Rattle.access.specs.Machinery.Noted.{read_for, reads_of, noted_of, reads_in};
ghost use Rattle.access.specs.Matrix.{matrix_entry, fill_spot, filled, late_word};
ghost use Rattle.access.specs.Merge.{since_of, previous_of, carry_of, mix_of, latch_of, merged_at, merged, latched};
ghost use Rattle.access.specs.Graphics.{ecm, bmm, mcm, ecm_masked, text_address, bitmap_address, plain_address, bmm_fell, ecm_fell, graphics_address, idle_address, access_address};
ghost use Rattle.access.specs.Slots.{byte_address, byte_read, or_open, pointer_spots, data_spots, pointers_after, two_stored, byte_two_after, data_after, word_of, words_after};

use memory::{Host, Memory};
use schedule::Reasons;

// The character that a graphics access uses, and the bits that a merge carries on.
#[derive(Clone, Copy)]
pub struct Latch {
    pub ch: u16,
    pub carry: u16,
}

// What a character access found: twelve bits of the matrix line, and the address of the eight that memory has.
#[derive(Clone, Copy)]
pub struct Entry {
    pub word: u16,
    pub address: u16,
}

// A read of a tick: the number of its reason, 0 for none, and the address that was on the bus.
#[derive(Clone, Copy)]
pub struct Read {
    pub reason: u8,
    pub address: u16,
}

// A tick's reads, in order.
#[derive(Clone, Copy)]
pub struct Reads {
    pub first: Read,
    pub second: Read,
}

// Where the two accesses of a cycle read, whether or not they have the bus.
#[derive(Clone, Copy)]
pub struct Spots {
    pub first: u16,
    pub second: u16,
}

// What the sprites' slots fetched: the pointers, three bytes a sprite, and the words that are put together of them.
#[derive(Clone, Copy)]
pub struct Slots {
    pub pointers: [u8; 8],
    pub bytes: [u8; 24],
    pub words: [u32; 8],
}

// Where there is no read.
const SILENT: Read = Read {
    reason: 0,
    address: 0,
};

#[tactic(auto, unfolding(crate::specs::Reads::told))]
pub fn no_reads() -> Reads
    ensures { result ≡ told [] }
{
    Reads {
        first: SILENT,
        second: SILENT,
    }
}

// A read for a reason.
#[tactic(auto, unfolding(crate::specs::Machinery::Noted::read_for))]
fn read_for(reason: u8, address: u16) -> Read
    ensures { result ≡ read_for reason address }
{
    if reason == 0 {
        return SILENT;
    }
    Read { reason, address }
}

// A tick's reads: the timing side has the reasons, the picture side the addresses.
#[tactic(auto, unfolding(crate::specs::Machinery::Noted::reads_of))]
fn reads_for(reasons: Reasons, spots: Spots) -> Reads
    ensures { result ≡ reads_of reasons spots }
{
    Reads {
        first: read_for(reasons.first, spots.first),
        second: read_for(reasons.second, spots.second),
    }
}

// Two of them in one number: a run of ticks hands on one, and not four.
#[tactic(auto, unfolding(crate::specs::Machinery::Noted::noted_of))]
pub fn noted(reasons: Reasons, spots: Spots) -> u64
    ensures { result ≡ noted_of reasons spots }
{
    u64::from(reasons.first) * 65536
        + u64::from(spots.first)
        + u64::from(reasons.second) * 281474976710656
        + u64::from(spots.second) * 4294967296
}

// The reads that such a number holds.
#[tactic(auto, unfolding(crate::specs::Machinery::Noted::reads_in))]
pub fn reads_in(noted: u64) -> Reads
    ensures { result ≡ reads_in noted }
{
    let reasons = Reasons {
        first: (noted / 65536 % 256) as u8,
        second: (noted / 281474976710656 % 256) as u8,
    };
    let spots = Spots {
        first: (noted % 65536) as u16,
        second: (noted / 4294967296 % 65536) as u16,
    };
    reads_for(reasons, spots)
}

// ---- the matrix

// A character access: the screen code below, the colour nibble above, and where the code was read.
#[tactic(auto, unfolding(crate::specs::Matrix::matrix_entry))]
pub fn matrix_entry(host: &Host<'_>, ptrs: u8, vc: u16) -> Entry
    ensures { result ≡ matrix_entry host.now.memory.ram.now host.now.memory.rom.now host.now.colour.now host.now.memory.bank ptrs vc }
{
    let found = memory::read(&host.memory, u16::from(ptrs / 16) * 1024 + vc % 1024);
    let at = usize::from(vc % 1024);
    Entry {
        word: u16::from(host.colour[at] % 16) * 256 + u16::from(found.byte),
        address: found.address,
    }
}

// The matrix line after a cycle in which a character access may fill a place, and the address of that access.
#[tactic(auto, using(rows::proofs::Laws::place_small), unfolding(crate::specs::Matrix::fill_spot, crate::specs::Matrix::filled, crate::specs::Matrix::matrix_entry))]
pub fn fill(matrix: &mut [u16; 40], go: bool, vmli: u8, vc: u16, ptrs: u8, host: &Host<'_>) -> u16
    ensures spots { result ≡ fill_spot go vc ptrs host.now.memory.ram.now host.now.memory.rom.now host.now.memory.bank }
    ensures matrix { matrix.new ≡ filled matrix.old go vmli vc ptrs host.now.memory.ram.now host.now.memory.rom.now host.now.colour.now host.now.memory.bank }
{
    if go {
        let at = usize::from(rows::place(vmli));
        let entry = matrix_entry(host, ptrs, vc);
        matrix[at] = entry.word;
        return entry.address;
    }
    0
}

// What the CPU's byte leaves in a pending place.
#[tactic(auto, unfolding(crate::specs::Matrix::late_word))]
pub fn late_word(byte: u8) -> u16
    ensures { result ≡ late_word byte }
{
    u16::from(byte % 16) * 256 + 255
}

// ---- the character latch and the forced merge

// Cycles since a forced bad line, from 0 to 40.
#[tactic(auto, using(crate::proofs::Signs::between_fits, crate::proofs::Signs::elapsed_fits, crate::proofs::Signs::below_40_fits, crate::proofs::Signs::before, crate::proofs::Signs::soon, crate::proofs::Signs::late))]
pub fn since(clock: i64, forced: i64) -> u8
    requires { InRange clock × InRange forced }
    ensures { result ≡ since_of clock forced }
{
    let elapsed = clock - forced - 2;
    if elapsed < 0 {
        return 0;
    }
    if elapsed < 40 {
        return elapsed as u8;
    }
    40
}

// The place whose bits leak into a merge.
#[tactic(auto, unfolding(crate::specs::Merge::previous_of))]
pub fn previous_place(f: u8, v: u8) -> u8
    ensures { result ≡ previous_of f v }
{
    if f == v {
        return 0;
    }
    if v < f {
        return rows::place((f - 1) % (f - v));
    }
    if f == 0 {
        return rows::place(v - 1);
    }
    rows::place(f - 1)
}

#[tactic(auto, unfolding(crate::specs::Merge::carry_of))]
pub fn carry_of(cycle: u16, old: u16, previous: u16) -> u16
    ensures { result ≡ carry_of cycle old previous }
{
    if cycle % 4 == 3 {
        return 0x08A6 & previous;
    }
    0x08A6 & (old | previous)
}

#[tactic(auto, unfolding(crate::specs::Merge::mix_of))]
pub fn mix(carry: u16, current: u16, next: u16) -> u16
    ensures { result ≡ mix_of carry current next }
{
    ((carry | (next & 0x013F)) & (current | next)) | (!carry & (current & next))
}

// The merge, f cycles after the forced bad line: all three entries are read before the two stores.
#[tactic(auto, using(rows::proofs::Laws::place_small, crate::proofs::Laws::previous_small), unfolding(crate::specs::Merge::merged_at))]
pub fn merge_at(matrix: &mut [u16; 40], cycle: u16, f: u8, vmli: u8, old: u16) -> Latch
    ensures latch { result ≡ latch_of (merged_at matrix.old cycle f vmli old) }
    ensures matrix { matrix.new ≡ (merged_at matrix.old cycle f vmli old).matrix }
{
    let previous = usize::from(previous_place(f, vmli));
    let current = usize::from(rows::place(vmli));
    let next = usize::from(rows::place(f));
    let pd = matrix[previous];
    let cd = matrix[current];
    let nd = matrix[next];
    let carry = carry_of(cycle, old, pd);
    let mixed = mix(carry, cd, nd);
    matrix[current] = mixed;
    matrix[next] = mixed;
    Latch { ch: mixed, carry }
}

// Without a bad line in row 0: a merge within forty cycles of a forced one, the plain entry later.
#[tactic(auto, using(rows::proofs::Laws::place_small), unfolding(crate::specs::Merge::merged))]
pub fn merge(matrix: &mut [u16; 40], cycle: u16, f: u8, vmli: u8, old: u16) -> Latch
    ensures latch { result ≡ latch_of (merged matrix.old cycle f vmli old) }
    ensures matrix { matrix.new ≡ (merged matrix.old cycle f vmli old).matrix }
{
    if 40 <= f {
        let current = usize::from(rows::place(vmli));
        return Latch {
            ch: matrix[current],
            carry: old,
        };
    }
    merge_at(matrix, cycle, f, vmli, old)
}

// The character latch: kept while hidden, cleared by an idle access, else the matrix line's entry or a merge.
#[tactic(auto, using(rows::proofs::Laws::place_small), unfolding(crate::specs::Merge::latched))]
pub fn latched_char(
    matrix: &mut [u16; 40],
    moves: bool,
    hidden: bool,
    plain: bool,
    cycle: u16,
    f: u8,
    vmli: u8,
    latch: Latch,
) -> Latch
    ensures latch { result ≡ latch_of (latched matrix.old moves hidden plain cycle f vmli latch.ch latch.carry) }
    ensures matrix { matrix.new ≡ (latched matrix.old moves hidden plain cycle f vmli latch.ch latch.carry).matrix }
{
    if hidden {
        return latch;
    }
    if !moves {
        return Latch { ch: 0, ..latch };
    }
    if plain {
        let at = usize::from(rows::place(vmli));
        return Latch {
            ch: matrix[at],
            ..latch
        };
    }
    merge(matrix, cycle, f, vmli, latch.carry)
}

// ---- graphics addresses

// The bits of a mode number.
fn has_ecm(mode: u8) -> bool
    ensures { result ≡ ecm mode }
{
    mode / 4 % 2 == 1
}

fn has_bmm(mode: u8) -> bool
    ensures { result ≡ bmm mode }
{
    mode / 2 % 2 == 1
}

fn has_mcm(mode: u8) -> bool
    ensures { result ≡ mcm mode }
{
    mode % 2 == 1
}

// ECM holds address bits 9 and 10 at 0.
#[tactic(auto, unfolding(crate::specs::Graphics::ecm_masked))]
pub fn ecm_masked(ecm: bool, address: u16) -> u16
    ensures { result ≡ ecm_masked ecm address }
{
    if ecm {
        return address / 2048 * 2048 + address % 512;
    }
    address
}

#[tactic(auto, unfolding(crate::specs::Graphics::text_address))]
pub fn text_address(ptrs: u8, ch: u16, rc: u8) -> u16
    ensures { result ≡ text_address ptrs ch rc }
{
    u16::from(ptrs / 2 % 8) * 2048 + ch % 256 * 8 + u16::from(rc)
}

#[tactic(auto, unfolding(crate::specs::Graphics::bitmap_address))]
pub fn bitmap_address(ptrs: u8, vc: u16, rc: u8) -> u16
    ensures { result ≡ bitmap_address ptrs vc rc }
{
    u16::from(ptrs / 8 % 2) * 8192 + vc % 1024 * 8 + u16::from(rc)
}

#[tactic(auto, unfolding(crate::specs::Graphics::plain_address))]
pub fn plain_address(mode: u8, ptrs: u8, ch: u16, vc: u16, rc: u8) -> u16
    ensures { result ≡ plain_address mode ptrs ch vc rc }
{
    let ecm = has_ecm(mode);
    if has_bmm(mode) {
        return ecm_masked(ecm, bitmap_address(ptrs, vc, rc));
    }
    ecm_masked(ecm, text_address(ptrs, ch, rc))
}

// The first access after BMM fell: the bitmap counter is still on the address.
#[tactic(auto, unfolding(crate::specs::Graphics::bmm_fell))]
pub fn bmm_fell(fell: bool, ptrs: u8, vc: u16, rc: u8, bank: u8, address: u16) -> u16
    ensures { result ≡ bmm_fell fell ptrs vc rc bank address }
{
    if !fell {
        return address;
    }
    let bitmap = bitmap_address(ptrs, vc, rc);
    if memory::in_rom(bank, address) {
        return address / 256 * 256 + bitmap % 256;
    }
    bitmap
}

// The first access after ECM fell: its mask is still on the address.
#[tactic(auto, unfolding(crate::specs::Graphics::ecm_fell))]
pub fn ecm_fell(fell: bool, bitmap: bool, bank: u8, address: u16) -> u16
    ensures { result ≡ ecm_fell fell bitmap bank address }
{
    let masked = fell & (bitmap | memory::in_rom(bank, address));
    ecm_masked(masked, address)
}

#[tactic(auto, unfolding(crate::specs::Graphics::graphics_address, crate::specs::Graphics::ecm_fell, crate::specs::Graphics::bmm_fell, crate::specs::Graphics::ecm_masked))]
pub fn graphics_address(mode: u8, old: u8, ptrs: u8, ch: u16, vc: u16, rc: u8, bank: u8) -> u16
    ensures { result ≡ graphics_address mode old ptrs ch vc rc bank }
{
    let plain = plain_address(mode, ptrs, ch, vc, rc);
    if mode == old {
        return plain;
    }
    let bmm = has_bmm(mode);
    let was_bmm = has_bmm(old);
    let after_bmm = bmm_fell(was_bmm & !bmm, ptrs, vc, rc, bank, plain);
    let left_ecm = has_ecm(old) & !has_ecm(mode);
    let into_bitmap = bmm & (!was_bmm | has_mcm(mode));
    ecm_fell(left_ecm, into_bitmap, bank, after_bmm)
}

#[tactic(auto, unfolding(crate::specs::Graphics::idle_address))]
pub fn idle_address(old: u8, forced: bool) -> u16
    ensures { result ≡ idle_address old forced }
{
    if forced {
        return 0x38FF;
    }
    ecm_masked(has_ecm(old), 0x3FFF)
}

// The address of a graphics access, in display or in idle state.
#[tactic(auto, unfolding(crate::specs::Graphics::access_address))]
pub fn access_address(
    moves: bool,
    forced: bool,
    mode: u8,
    old: u8,
    ptrs: u8,
    ch: u16,
    vc: u16,
    rc: u8,
    bank: u8,
) -> u16
    ensures { result ≡ access_address moves forced mode old ptrs ch vc rc bank }
{
    if moves {
        return graphics_address(mode, old, ptrs, ch, vc, rc, bank);
    }
    idle_address(old, forced)
}

// ---- the sprites' slots

#[tactic(auto, unfolding(crate::specs::Slots::byte_address))]
pub fn byte_address(on: bool, pointer: u8, mc: u8) -> u16
    ensures { result ≡ byte_address on pointer mc }
{
    if on {
        return u16::from(pointer) * 64 + u16::from(mc % 64);
    }
    0x3FFF
}

// A byte that was read, or the open bus.
#[tactic(auto, unfolding(crate::specs::Slots::or_open))]
pub fn or_open(seen: bool, byte: u8) -> u8
    ensures { result ≡ or_open seen byte }
{
    if seen { byte } else { 255 }
}

// Byte 2 of a sprite with DMA, and where it was read. `first` is sprite 0's, which needs the bus.
fn byte_two_on(
    bytes: &mut [u8; 24],
    k: usize,
    first: bool,
    pointer: u8,
    mc: u8,
    low: bool,
    m: &Memory<'_>,
) -> u16
    requires { k < 8 }
    ensures spots { result ≡ (byte_read true pointer mc m.now.ram.now m.now.rom.now m.now.bank).address }
    ensures bytes { bytes.new ≡ two_stored bytes.old k first true low (byte_read true pointer mc m.now.ram.now m.now.rom.now m.now.bank) }
{
    let data = memory::read(m, byte_address(true, pointer, mc));
    bytes[k * 3 + 2] = or_open(!first | low, data.byte);
    data.address
}

// Of one without: its address is the idle one, whatever its pointer and MC are.
#[tactic(auto, unfolding(crate::specs::Slots::byte_address))]
fn byte_two_off(bytes: &mut [u8; 24], k: usize, low: bool, m: &Memory<'_>) -> u16
    requires { k < 8 }
    ensures spots { result ≡ (byte_read false 0 0 m.now.ram.now m.now.rom.now m.now.bank).address }
    ensures bytes { bytes.new ≡ two_stored bytes.old k false false low (byte_read false 0 0 m.now.ram.now m.now.rom.now m.now.bank) }
{
    let data = memory::read(m, 0x3FFF);
    bytes[k * 3 + 2] = or_open(low, data.byte);
    data.address
}

// The two stand apart, so that each is compiled for its own address.
#[tactic(auto, unfolding(crate::specs::Slots::byte_address))]
fn byte_two(
    bytes: &mut [u8; 24],
    k: usize,
    first: bool,
    on: bool,
    pointer: u8,
    mc: u8,
    low: bool,
    m: &Memory<'_>,
) -> u16
    requires { k < 8 }
    ensures spots { result ≡ (byte_read on pointer mc m.now.ram.now m.now.rom.now m.now.bank).address }
    ensures bytes { bytes.new ≡ two_stored bytes.old k first on low (byte_read on pointer mc m.now.ram.now m.now.rom.now m.now.bank) }
{
    if on {
        return byte_two_on(bytes, k, first, pointer, mc, low, m);
    }
    byte_two_off(bytes, k, low, m)
}

// A pointer slot: the pointer, then byte 2.
#[tactic(auto, unfolding(crate::specs::Slots::pointer_spots, crate::specs::Slots::pointers_after, crate::specs::Slots::byte_two_after))]
pub fn pointer_slot(
    pointers: &mut [u8; 8],
    bytes: &mut [u8; 24],
    k: usize,
    first: bool,
    on: bool,
    mc: u8,
    low: bool,
    ptrs: u8,
    m: &Memory<'_>,
) -> Spots
    requires { k < 8 }
    ensures spots { result ≡ pointer_spots k on mc ptrs m.now.ram.now m.now.rom.now m.now.bank }
    ensures pointers { pointers.new ≡ pointers_after pointers.old k ptrs m.now.ram.now m.now.rom.now m.now.bank }
    ensures bytes { bytes.new ≡ byte_two_after bytes.old k first on mc low ptrs m.now.ram.now m.now.rom.now m.now.bank }
{
    let found = memory::read(m, u16::from(ptrs / 16) * 1024 + 1016 + k as u16);
    pointers[k] = found.byte;
    let second = byte_two(bytes, k, first, on, found.byte, mc, low, m);
    Spots {
        first: found.address,
        second,
    }
}

#[tactic(auto, unfolding(crate::specs::Slots::word_of))]
pub fn word_of(two: u8, one: u8, zero: u8) -> u32
    ensures { result ≡ word_of two one zero }
{
    u32::from(two) * 65536 + u32::from(one) * 256 + u32::from(zero)
}

// Bytes 1 and 0 in their places, and the word put together with byte 2.
fn store_data(bytes: &mut [u8; 24], words: &mut [u32; 8], k: usize, one: u8, zero: u8)
    requires { k < 8 }
    ensures bytes { bytes.new ≡ set (set bytes.old (k * 3) zero) (k * 3 + 1) one }
    ensures words { words.new ≡ set words.old k (word_of (get_or bytes.old (k * 3 + 2) 0) one zero) }
{
    let at = k * 3;
    words[k] = word_of(bytes[at + 2], one, zero);
    bytes[at] = zero;
    bytes[at + 1] = one;
}

// The data of a sprite with DMA: byte 1, byte 0, and the word put together.
#[tactic(auto, unfolding(crate::specs::Slots::or_open, crate::specs::Slots::data_spots, crate::specs::Slots::byte_one, crate::specs::Slots::byte_zero, crate::specs::Slots::data_after, crate::specs::Slots::words_after))]
fn data_on(
    pointers: &[u8; 8],
    bytes: &mut [u8; 24],
    words: &mut [u32; 8],
    k: usize,
    mc: u8,
    m: &Memory<'_>,
) -> Spots
    requires { k < 8 }
    ensures spots { result ≡ data_spots pointers.now k true mc m.now.ram.now m.now.rom.now m.now.bank }
    ensures bytes { bytes.new ≡ data_after pointers.now bytes.old k true mc false m.now.ram.now m.now.rom.now m.now.bank }
    ensures words { words.new ≡ words_after pointers.now bytes.old words.old k true mc false m.now.ram.now m.now.rom.now m.now.bank }
{
    let pointer = pointers[k];
    let first = memory::read(m, byte_address(true, pointer, mc));
    let second = memory::read(m, byte_address(true, pointer, mc % 64 + 1));
    store_data(bytes, words, k, first.byte, second.byte);
    Spots {
        first: first.address,
        second: second.address,
    }
}

// Of one without, which reads at the idle address: byte 1 whatever AEC is.
#[tactic(auto, unfolding(crate::specs::Slots::byte_address, crate::specs::Slots::data_spots, crate::specs::Slots::byte_one, crate::specs::Slots::byte_zero, crate::specs::Slots::data_after, crate::specs::Slots::words_after))]
fn data_off(
    bytes: &mut [u8; 24],
    words: &mut [u32; 8],
    k: usize,
    low: bool,
    m: &Memory<'_>,
) -> Spots
    requires { k < 8 }
    ensures spots { result ≡ data_spots [] k false 0 m.now.ram.now m.now.rom.now m.now.bank }
    ensures bytes { bytes.new ≡ data_after [] bytes.old k false 0 low m.now.ram.now m.now.rom.now m.now.bank }
    ensures words { words.new ≡ words_after [] bytes.old words.old k false 0 low m.now.ram.now m.now.rom.now m.now.bank }
{
    let data = memory::read(m, 0x3FFF);
    let zero = or_open(low, data.byte);
    store_data(bytes, words, k, data.byte, zero);
    Spots {
        first: data.address,
        second: data.address,
    }
}

// A data slot. Byte 1 is read with and without DMA.
#[tactic(auto, unfolding(crate::specs::Slots::byte_zero, crate::specs::Slots::data_after, crate::specs::Slots::words_after, crate::specs::Slots::byte_address, crate::specs::Slots::data_spots, crate::specs::Slots::byte_one))]
pub fn data_slot(
    pointers: &[u8; 8],
    bytes: &mut [u8; 24],
    words: &mut [u32; 8],
    k: usize,
    on: bool,
    mc: u8,
    low: bool,
    m: &Memory<'_>,
) -> Spots
    requires { k < 8 }
    ensures spots { result ≡ data_spots pointers.now k on mc m.now.ram.now m.now.rom.now m.now.bank }
    ensures bytes { bytes.new ≡ data_after pointers.now bytes.old k on mc low m.now.ram.now m.now.rom.now m.now.bank }
    ensures words { words.new ≡ words_after pointers.now bytes.old words.old k on mc low m.now.ram.now m.now.rom.now m.now.bank }
{
    if on {
        return data_on(pointers, bytes, words, k, mc, m);
    }
    data_off(bytes, words, k, low, m)
}
