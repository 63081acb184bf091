// A saved chip: its 311 bytes, and the chip that bytes hold. The format is `Scene`: version 5 is written, and versions 1 to 4 are read too.
// Every field has a fixed place, numbers lie low byte first, and a flag is 0 or 1.
#![tactic(auto)]

ghost use Rattle.std.specs.Prelude.{◌≡◌, ◌∷◌, [], ◌+◌, ◌*◌, ◌%◌, ◌≤◌, ◌<◌, length};
ghost use Rattle.laws.specs.Bytes.{low_byte, high_byte};
ghost use Rattle.scene.specs.Numbers.{bits, clock_of, place_byte, pending_of, word_at, long_at, clock_at};
ghost use Rattle.versions.specs.Put.{Put};
ghost use Rattle.versions.specs.Versions.{next, third};
ghost use Rattle.scene.specs.Decode.{eight_at, beam_at, registers_at, irq_at, border_at, sprite_from, sprites_at, pointers_at, words_at, sprite_bytes_at, matrix_at, rows_at, bus_at, frame_at, pen_at, waits_at, side_at, picture_at, chip_at, head_fine, early_flags, sprites_clear, late_flags, ranges_fine, fields_fine, no_scene, decoded_fields, decoded_newest, decoded};
ghost use Rattle.scene.specs.Encode.{head_bytes, register_bytes, mask_bytes, sprite_bytes, sprite_row, sprite_rows, entry_bytes, rest_of, clock_bytes, clocks_bytes, rest_bytes, tail_bytes, encoded};

use arbitration::Bus;
use border::Border;
use chip::{Chip, Picture};
use picture::Pen;
use raster::Frame;
use registers::{Irq, Registers};
use rows::{Rows, Waits};
use side::Side;
use sprites::{Sprite, Sprites};
use timing::Beam;

// Bytes that are no scene: the chip at power-up comes in place of theirs.
#[derive(Clone, Copy)]
pub struct NoScene {
    pub chip: Chip,
}

// ---- numbers as bytes

// A number of two bytes, low byte first.
fn pair(x: u16) -> [u8; 2]
    ensures { result ≡ low_byte x ∷ high_byte x ∷ [] }
{
    x.to_le_bytes()
}

#[tactic(auto, unfolding(crate::specs::Numbers::place_byte))]
fn place_byte(place: Option<u8>) -> u8
    ensures { result ≡ place_byte place }
{
    place.unwrap_or(255)
}

#[tactic(auto, unfolding(crate::specs::Numbers::pending_of))]
fn place_of(b: u8) -> Option<u8>
    ensures { result ≡ pending_of b }
{
    (b != 255).then_some(b)
}

// ---- bytes to fields
fn word_at(bytes: &[u8], at: usize) -> u16
    requires { at + 2 ≤ length bytes.now }
    ensures { result ≡ word_at bytes.now at }
{
    u16::from_le_bytes([bytes[at], bytes[at + 1]])
}

fn long_at(bytes: &[u8], at: usize) -> u32
    requires { at + 4 ≤ length bytes.now }
    ensures { result ≡ long_at bytes.now at }
{
    u32::from_le_bytes([bytes[at], bytes[at + 1], bytes[at + 2], bytes[at + 3]])
}

#[tactic(auto, unfolding(crate::specs::Numbers::clock_of))]
fn clock_at(bytes: &[u8], at: usize) -> i64
    requires { at + 8 ≤ length bytes.now }
    ensures { result ≡ clock_at bytes.now at }
{
    i64::from_le_bytes(eight_at(bytes, at))
}

fn eight_at(bytes: &[u8], at: usize) -> [u8; 8]
    requires { at + 8 ≤ length bytes.now }
    ensures { result ≡ eight_at bytes.now at }
{
    let mut eight = [0u8; 8];
    eight.copy_from_slice(&bytes[at..at + 8]);
    eight
}

fn beam_at(bytes: &[u8; 311]) -> Beam
    ensures { result ≡ beam_at bytes.now }
{
    Beam {
        kind: bytes[308],
        cycle: word_at(bytes, 4),
        raster: word_at(bytes, 6),
        den: bytes[8] == 1,
        rsel: bytes[9] == 1,
        yscroll: bytes[10],
        bad: bytes[11] == 1,
        rising: bytes[12] == 1,
        ba: bytes[13] == 1,
        latch: bytes[271] == 1,
    }
}

fn registers_at(bytes: &[u8; 311]) -> Registers
    ensures { result ≡ registers_at bytes.now }
{
    Registers {
        mx: eight_at(bytes, 14),
        my: eight_at(bytes, 22),
        cols: eight_at(bytes, 30),
        bg: [bytes[38], bytes[39], bytes[40], bytes[41]],
        msbx: bytes[42],
        enable: bytes[43],
        yexp: bytes[44],
        xexp: bytes[45],
        prio: bytes[46],
        multi: bytes[47],
        mc0: bytes[48],
        mc1: bytes[49],
        ctrl1: bytes[50],
        ctrl2: bytes[51],
        compare: word_at(bytes, 52),
        ptrs: bytes[54],
        border: bytes[55],
    }
}

fn irq_at(bytes: &[u8; 311]) -> Irq
    ensures { result ≡ irq_at bytes.now }
{
    Irq {
        flags: bytes[56],
        enable: bytes[57],
        line: bytes[58] == 1,
    }
}

fn border_at(bytes: &[u8; 311]) -> Border
    ensures { result ≡ border_at bytes.now }
{
    Border {
        vertical: bytes[59] == 1,
        main: bytes[60] == 1,
        old: bytes[61] == 1,
        disabled: bytes[62] == 1,
        part40: bytes[63],
        part38: bytes[64],
        top: word_at(bytes, 65),
        bottom: word_at(bytes, 67),
    }
}

fn sprite_at(bytes: &[u8], at: usize) -> Sprite
    requires { at + 12 ≤ length bytes.now }
    ensures { result ≡ sprite_from bytes.now at }
{
    Sprite {
        number: u32::from(bytes[at]),
        mc: bytes[at + 2],
        base: bytes[at + 3],
    }
}

fn sprites_at(bytes: &[u8; 311]) -> Sprites
    ensures { result ≡ sprites_at bytes.now }
{
    Sprites {
        each: [
            sprite_at(bytes, 75),
            sprite_at(bytes, 87),
            sprite_at(bytes, 99),
            sprite_at(bytes, 111),
            sprite_at(bytes, 123),
            sprite_at(bytes, 135),
            sprite_at(bytes, 147),
            sprite_at(bytes, 159),
        ],
        flip: bytes[69],
        clear: bytes[70],
        dma: bytes[71],
        prev: bytes[72],
        display: bytes[73],
        vmatch: bytes[74],
    }
}

fn pointers_at(bytes: &[u8; 311]) -> [u8; 8]
    ensures { result ≡ pointers_at bytes.now }
{
    [
        bytes[76], bytes[88], bytes[100], bytes[112], bytes[124], bytes[136], bytes[148],
        bytes[160],
    ]
}

fn words_at(bytes: &[u8; 311]) -> [u32; 8]
    ensures { result ≡ words_at bytes.now }
{
    [
        long_at(bytes, 80),
        long_at(bytes, 92),
        long_at(bytes, 104),
        long_at(bytes, 116),
        long_at(bytes, 128),
        long_at(bytes, 140),
        long_at(bytes, 152),
        long_at(bytes, 164),
    ]
}

fn sprite_bytes_at(bytes: &[u8; 311]) -> [u8; 24]
    ensures { result ≡ sprite_bytes_at bytes.now }
{
    [
        bytes[84], bytes[85], bytes[86], bytes[96], bytes[97], bytes[98], bytes[108], bytes[109],
        bytes[110], bytes[120], bytes[121], bytes[122], bytes[132], bytes[133], bytes[134],
        bytes[144], bytes[145], bytes[146], bytes[156], bytes[157], bytes[158], bytes[168],
        bytes[169], bytes[170],
    ]
}

fn matrix_at(bytes: &[u8; 311]) -> [u16; 40]
    ensures { result ≡ matrix_at bytes.now }
{
    let mut matrix = [0u16; 40];
    for k in 0..40 {
        matrix[k] = word_at(bytes, 171 + 2 * k);
    }
    matrix
}

fn rows_at(bytes: &[u8; 311]) -> Rows
    ensures { result ≡ rows_at bytes.now }
{
    Rows {
        vc: word_at(bytes, 251),
        vcbase: word_at(bytes, 253),
        rc: bytes[255],
        vmli: bytes[256],
        display: bytes[260] == 1,
        transition: bytes[261] == 1,
        access: bytes[262] == 1,
    }
}

fn bus_at(bytes: &[u8; 311]) -> Bus
    ensures { result ≡ bus_at bytes.now }
{
    Bus {
        clock: clock_at(bytes, 299),
        fall: clock_at(bytes, 275),
        rise: clock_at(bytes, 283),
        aec: bytes[274].cast_signed(),
        balow: bytes[257] == 1,
        aeclow: bytes[258] == 1,
        lost: u64::from(bytes[309]),
    }
}

fn frame_at(bytes: &[u8; 311]) -> Frame
    ensures { result ≡ frame_at bytes.now }
{
    Frame {
        ending: bytes[272] == 1,
        matched: bytes[273] == 1,
    }
}

fn pen_at(bytes: &[u8; 311]) -> Pen
    ensures { result ≡ pen_at bytes.now }
{
    Pen {
        ch: word_at(bytes, 266),
        carry: word_at(bytes, 268),
        gfx: bytes[270],
        mode: bytes[263],
        old: bytes[264],
        changing: bytes[265] == 1,
        forced: clock_at(bytes, 291),
    }
}

fn waits_at(bytes: &[u8; 311]) -> Waits
    ensures { result ≡ waits_at bytes.now }
{
    Waits {
        place: place_of(bytes[307]),
    }
}

fn side_at(bytes: &[u8; 311]) -> Side
    ensures { result ≡ side_at bytes.now }
{
    Side {
        irq: irq_at(bytes),
        beam: beam_at(bytes),
        frame: frame_at(bytes),
        border: border_at(bytes),
        sprites: sprites_at(bytes),
        bus: bus_at(bytes),
        rows: rows_at(bytes),
        pending: waits_at(bytes),
        changed: bytes[259] == 1,
        refresh: bytes[310],
    }
}

fn picture_at(bytes: &[u8; 311]) -> Picture
    ensures { result ≡ picture_at bytes.now }
{
    Picture {
        pen: pen_at(bytes),
        matrix: matrix_at(bytes),
        pointers: pointers_at(bytes),
        bytes: sprite_bytes_at(bytes),
        words: words_at(bytes),
    }
}

// ---- what is a scene

fn head_fine(bytes: &[u8; 311]) -> bool
    ensures { result ≡ head_fine bytes.now }
{
    bytes.starts_with(b"NPS")
}

fn early_flags(bytes: &[u8; 311]) -> bool
    ensures { result ≡ early_flags bytes.now }
{
    versions::are_flags(&[
        bytes[8], bytes[9], bytes[11], bytes[12], bytes[13], bytes[58], bytes[59], bytes[60],
        bytes[61], bytes[62],
    ])
}

fn sprites_clear(bytes: &[u8; 311]) -> bool
    ensures { result ≡ sprites_clear bytes.now }
{
    let cleared = [
        bytes[79], bytes[91], bytes[103], bytes[115], bytes[127], bytes[139], bytes[151],
        bytes[163],
    ];
    cleared == [0; 8]
}

fn late_flags(bytes: &[u8; 311]) -> bool
    ensures { result ≡ late_flags bytes.now }
{
    versions::are_flags(&[
        bytes[257], bytes[258], bytes[259], bytes[260], bytes[261], bytes[262], bytes[265],
        bytes[271], bytes[272], bytes[273],
    ])
}

// The two modes and the pending place.
fn ranges_fine(bytes: &[u8; 311]) -> bool
    ensures { result ≡ ranges_fine bytes.now }
{
    (bytes[263] < 8) & (bytes[264] < 8) & ((bytes[307] == 255) | (bytes[307] < 40))
}

fn fields_fine(bytes: &[u8; 311]) -> bool
    ensures { result ≡ fields_fine bytes.now }
{
    head_fine(bytes)
        && early_flags(bytes)
        && sprites_clear(bytes)
        && late_flags(bytes)
        && ranges_fine(bytes)
}

// The chip that a scene holds.
fn chip_at(bytes: &[u8; 311]) -> Chip
    ensures { result ≡ chip_at bytes.now }
{
    Chip {
        regs: registers_at(bytes),
        side: side_at(bytes),
        picture: picture_at(bytes),
    }
}

// ---- versions

fn no_scene() -> Result<Chip, NoScene>
    ensures { result ≡ no_scene }
{
    Err(NoScene {
        chip: chip::power_up(0),
    })
}

// The newest version alone.
#[tactic(auto, unfolding(crate::specs::Decode::decoded_newest, crate::specs::Decode::decoded_fields))]
pub fn decode_newest(bytes: &[u8]) -> Result<Chip, NoScene>
    ensures { result ≡ decoded_newest bytes.now }
{
    let Ok(newest) = <&[u8; 311]>::try_from(bytes) else {
        return no_scene();
    };
    if versions::is_version(bytes, 5, 311) && fields_fine(newest) {
        return Ok(chip_at(newest));
    }
    no_scene()
}

// Version 4 has no refresh counter: 0xFF, which is right from the next frame on.
#[tactic(auto, unfolding(versions::specs::Versions::next))]
fn decode_fourth(bytes: &[u8]) -> Result<Chip, NoScene>
    ensures { result ≡ decoded_newest (next 4 310 255 bytes.now) }
{
    if !versions::is_version(bytes, 4, 310) {
        return decode_newest(bytes);
    }
    let mut fifth = [0u8; 311];
    versions::grow(bytes, &mut fifth, 5, 255);
    decode_newest(&fifth)
}

// Version 3 has no lost cycles: 0, which is right from the next line on.
#[tactic(auto, unfolding(versions::specs::Versions::next))]
fn decode_third(bytes: &[u8]) -> Result<Chip, NoScene>
    ensures { result ≡ decoded_newest (next 4 310 255 (next 3 309 0 bytes.now)) }
{
    if !versions::is_version(bytes, 3, 309) {
        return decode_fourth(bytes);
    }
    let mut fourth = [0u8; 310];
    versions::grow(bytes, &mut fourth, 4, 0);
    decode_fourth(&fourth)
}

// Version 2 has a flag for each sprite: the mask decides, and they go.
#[tactic(auto, unfolding(versions::specs::Versions::third))]
fn decode_second(bytes: &[u8]) -> Result<Chip, NoScene>
    ensures { result ≡ decoded_newest (next 4 310 255 (next 3 309 0 (third bytes.now))) }
{
    if !versions::is_flagged(bytes) {
        return decode_third(bytes);
    }
    let mut third = [0u8; 309];
    versions::unflag(bytes, &mut third);
    decode_third(&third)
}

// Version 1 has no kind: it is the 6569's, 0.
#[tactic(auto, unfolding(crate::specs::Decode::decoded, versions::specs::Versions::renewed, versions::specs::Versions::next))]
pub fn decode(bytes: &[u8]) -> Result<Chip, NoScene>
    ensures { result ≡ decoded bytes.now }
{
    if !versions::is_version(bytes, 1, 308) {
        return decode_second(bytes);
    }
    let mut second = [0u8; 309];
    versions::grow(bytes, &mut second, 2, 0);
    decode_second(&second)
}

// ---- fields to bytes

fn head_bytes(b: Beam) -> [u8; 14]
    ensures { result ≡ head_bytes b }
{
    let cycle = pair(b.cycle);
    let raster = pair(b.raster);
    [
        b'N',
        b'P',
        b'S',
        5,
        cycle[0],
        cycle[1],
        raster[0],
        raster[1],
        b.den as u8,
        b.rsel as u8,
        b.yscroll,
        b.bad as u8,
        b.rising as u8,
        b.ba as u8,
    ]
}

fn register_bytes(r: Registers) -> [u8; 42]
    ensures { result ≡ register_bytes r }
{
    let compare = pair(r.compare);
    [
        r.mx[0], r.mx[1], r.mx[2], r.mx[3], r.mx[4], r.mx[5], r.mx[6], r.mx[7], r.my[0], r.my[1],
        r.my[2], r.my[3], r.my[4], r.my[5], r.my[6], r.my[7], r.cols[0], r.cols[1], r.cols[2],
        r.cols[3], r.cols[4], r.cols[5], r.cols[6], r.cols[7], r.bg[0], r.bg[1], r.bg[2], r.bg[3],
        r.msbx, r.enable, r.yexp, r.xexp, r.prio, r.multi, r.mc0, r.mc1, r.ctrl1, r.ctrl2,
        compare[0], compare[1], r.ptrs, r.border,
    ]
}

// Interrupt, border and the sprites' masks.
fn mask_bytes(i: Irq, b: Border, s: Sprites) -> [u8; 19]
    ensures { result ≡ mask_bytes i b s }
{
    let top = pair(b.top);
    let bottom = pair(b.bottom);
    [
        i.flags,
        i.enable,
        i.line as u8,
        b.vertical as u8,
        b.main as u8,
        b.old as u8,
        b.disabled as u8,
        b.part40,
        b.part38,
        top[0],
        top[1],
        bottom[0],
        bottom[1],
        s.flip,
        s.clear,
        s.dma,
        s.prev,
        s.display,
        s.vmatch,
    ]
}

fn sprite_bytes(s: Sprite, pointer: u8, word: u32, b0: u8, b1: u8, b2: u8) -> [u8; 12]
    ensures { result ≡ sprite_bytes s pointer word b0 b1 b2 }
{
    let word = word.to_le_bytes();
    [
        (s.number % 256) as u8,
        pointer,
        s.mc,
        s.base,
        0,
        word[0],
        word[1],
        word[2],
        word[3],
        b0,
        b1,
        b2,
    ]
}

// What stands before the clocks; the AEC counter comes as its byte.
fn rest_bytes(r: Rows, b: Bus, changed: bool, p: Pen, latch: bool, f: Frame, aec: u8) -> [u8; 24]
    ensures { result ≡ rest_bytes r b changed p latch f aec }
{
    let vc = pair(r.vc);
    let vcbase = pair(r.vcbase);
    let ch = pair(p.ch);
    let carry = pair(p.carry);
    [
        vc[0],
        vc[1],
        vcbase[0],
        vcbase[1],
        r.rc,
        r.vmli,
        b.balow as u8,
        b.aeclow as u8,
        changed as u8,
        r.display as u8,
        r.transition as u8,
        r.access as u8,
        p.mode,
        p.old,
        p.changing as u8,
        ch[0],
        ch[1],
        carry[0],
        carry[1],
        p.gfx,
        latch as u8,
        f.ending as u8,
        f.matched as u8,
        aec,
    ]
}

#[tactic(auto, unfolding(crate::specs::Numbers::bits))]
fn clock_bytes(x: i64) -> [u8; 8]
    ensures { result ≡ clock_bytes x }
{
    x.to_le_bytes()
}

// ---- the bytes of a chip: each part follows the one before it, and what stood after it is written later

fn sprite_row(s: Sprites, p: Picture, k: usize) -> [u8; 12]
    requires { k < 8 }
    ensures { result ≡ sprite_row s p k }
{
    sprite_bytes(
        s.at(k),
        p.pointers[k],
        p.words[k],
        p.bytes[3 * k],
        p.bytes[3 * k + 1],
        p.bytes[3 * k + 2],
    )
}

fn put_sprite(out: &mut [u8; 311], k: usize, s: Sprites, p: Picture)
    requires { k < 8 }
    ensures { Put out.old out.new (75 + 12 * k) (75 + 12 * k + 12) (sprite_row s p k) }
{
    versions::put(out, 75 + 12 * k, &sprite_row(s, p, k));
}

fn put_sprites(out: &mut [u8; 311], s: Sprites, p: Picture)
    ensures { Put out.old out.new 75 171 (sprite_rows s p 8) }
{
    for k in 0..8 {
        put_sprite(out, k, s, p);
    }
}

fn put_word(out: &mut [u8], at: usize, x: u16)
    requires { at + 2 ≤ length out.old }
    ensures { Put out.old out.new at (at + 2) (low_byte x ∷ high_byte x ∷ []) }
{
    versions::put(out, at, &pair(x));
}

fn put_matrix(out: &mut [u8; 311], matrix: [u16; 40])
    ensures { Put out.old out.new 171 251 (entry_bytes matrix 40) }
{
    for k in 0..40 {
        put_word(out, 171 + 2 * k, matrix[k]);
    }
}

fn put_clock(out: &mut [u8], at: usize, x: i64)
    requires { at + 8 ≤ length out.old }
    ensures { Put out.old out.new at (at + 8) (clock_bytes x) }
{
    versions::put(out, at, &clock_bytes(x));
}

fn put_clocks(out: &mut [u8; 311], bus: Bus, forced: i64)
    ensures { Put out.old out.new 275 307 (clocks_bytes bus forced) }
{
    put_clock(out, 275, bus.fall);
    put_clock(out, 283, bus.rise);
    put_clock(out, 291, forced);
    put_clock(out, 299, bus.clock);
}

fn put_head(out: &mut [u8; 311], beam: Beam)
    ensures { Put out.old out.new 0 14 (head_bytes beam) }
{
    versions::put(out, 0, &head_bytes(beam));
}

fn put_registers(out: &mut [u8; 311], regs: Registers)
    ensures { Put out.old out.new 14 56 (register_bytes regs) }
{
    versions::put(out, 14, &register_bytes(regs));
}

fn put_masks(out: &mut [u8; 311], irq: Irq, border: Border, sprites: Sprites)
    ensures { Put out.old out.new 56 75 (mask_bytes irq border sprites) }
{
    versions::put(out, 56, &mask_bytes(irq, border, sprites));
}

fn put_rest(out: &mut [u8; 311], s: Side, pen: Pen)
    ensures { Put out.old out.new 251 275 (rest_of s pen) }
{
    let aec = s.bus.aec.cast_unsigned();
    let part = rest_bytes(s.rows, s.bus, s.changed, pen, s.beam.latch, s.frame, aec);
    versions::put(out, 251, &part);
}

fn put_tail(out: &mut [u8; 311], pending: Option<u8>, kind: u8, lost: u64, refresh: u8)
    ensures { Put out.old out.new 307 311 (tail_bytes pending kind lost refresh) }
{
    let part = [place_byte(pending), kind, (lost % 256) as u8, refresh];
    versions::put(out, 307, &part);
}

// The second promise follows from the first, and spares a caller who hands the bytes on its proof.
#[tactic(auto, unfolding(crate::specs::Encode::encoded))]
pub fn encode(chip: Chip, out: &mut [u8; 311])
    ensures out_after { out.new ≡ encoded chip }
    ensures out_len { length out.new ≡ 311 }
{
    put_head(out, chip.side.beam);
    put_registers(out, chip.regs);
    put_masks(out, chip.side.irq, chip.side.border, chip.side.sprites);
    put_sprites(out, chip.side.sprites, chip.picture);
    put_matrix(out, chip.picture.matrix);
    put_rest(out, chip.side, chip.picture.pen);
    put_clocks(out, chip.side.bus, chip.picture.pen.forced);
    put_tail(
        out,
        chip.side.pending.place,
        chip.side.beam.kind,
        chip.side.bus.lost,
        chip.side.refresh,
    );
}
