// The chip's view of the memory that the host lends: what is lent and when it is refused, one read, and the 64 bytes that a pointer shows.
#![tactic(auto)]

ghost use Rattle.std.specs.Prelude.{◌≡◌, ◌≤◌, IfOk};
ghost use Rattle.memory.specs.Memory.{in_rom, read_at, block_refusal, block_of, block_place};
ghost use Rattle.memory.specs.Lent.{host, seen, lent_refusal, refusal_number, refused};

// The memory that a read of the chip reaches, and the bank that it sees.
#[derive(Clone, Copy)]
pub struct Memory<'a> {
    pub ram: &'a [u8; 16384],
    pub rom: &'a [u8; 4096],
    pub bank: u8,
}

// All that the host lends to a call.
#[derive(Clone, Copy)]
pub struct Host<'a> {
    pub memory: Memory<'a>,
    pub colour: &'a [u8; 1024],
}

// Why lent memory is refused: a wrong length, or a bank that there is not.
#[derive(Clone, Copy, PartialEq, Eq)]
pub enum Refusal {
    Length,
    Bank,
}

// What a read found: the byte, and the address as the chip puts it on the bus.
#[derive(Clone, Copy)]
pub struct Found {
    pub byte: u8,
    pub address: u16,
}

// Whether an address of the chip's shows the character ROM.
pub fn in_rom(bank: u8, address: u16) -> bool
    ensures { result ≡ in_rom bank address }
{
    ((bank == 0) | (bank == 2)) & (address / 4096 == 1)
}

// One read; the chip sees the low fourteen bits of an address.
#[tactic(auto, using(crate::proofs::Page::in_page), unfolding(crate::specs::Memory::read_at))]
pub fn read(m: &Memory<'_>, address: u16) -> Found
    ensures { result ≡ read_at m.now.ram.now m.now.rom.now m.now.bank address }
{
    let at = address % 16384;
    if in_rom(m.bank, at) {
        let i = (at % 4096) as usize;
        return Found {
            byte: m.rom[i],
            address: at,
        };
    }
    let i = at as usize;
    Found {
        byte: m.ram[i],
        address: at,
    }
}

// The number of a block question's refusal: 1 for a length, 2 for a bank, 0 for none.
#[tactic(auto, unfolding(crate::specs::Memory::block_refusal))]
pub fn block_refusal<'a>(ram: &'a [u8], rom: &'a [u8], pointer: u8, bank: u8) -> u8
    ensures { result ≡ block_refusal ram.now rom.now bank }
{
    if ram.len() != 16384 {
        return 1;
    }
    if rom.len() != 4096 {
        return 1;
    }
    if 3 < bank {
        return 2;
    }
    0
}

// The 64 bytes that a pointer shows, as a part of the lent memory that holds them; empty where refused.
pub fn block<'a>(ram: &'a [u8], rom: &'a [u8], pointer: u8, bank: u8) -> &'a [u8]
    ensures bytes { result.now ≡ block_of ram.now rom.now pointer bank }
    ensures place { result.ref_ptr ≡ block_place ram.entry rom.entry pointer bank }
{
    if block_refusal(ram, rom, pointer, bank) != 0 {
        return &ram[..0];
    }
    let start = laws::wide(pointer) * 64;
    if in_rom(bank, start) {
        let from = (start % 4096) as usize;
        return &rom[from..from + 64];
    }
    let at = start as usize;
    &ram[at..at + 64]
}

impl Refusal {
    // The number that a call answers a refusal with.
    pub fn number(self) -> u8
        ensures { result ≡ refusal_number self }
    {
        match self {
            Refusal::Length => 1,
            Refusal::Bank => 2,
        }
    }
}

// What the host lends, once its lengths and its bank are tested.
pub fn lend<'a>(
    ram: &'a [u8],
    rom: &'a [u8],
    colour: &'a [u8],
    bank: u8,
) -> Result<Host<'a>, Refusal>
    ensures number { refused result ≡ lent_refusal (host ram.now rom.now colour.now bank) }
    ensures shows { IfOk result (λ h. seen h ≡ host ram.now rom.now colour.now bank) }
    ensures bank { IfOk result (λ h. h.memory.bank ≤ 3) }
{
    let Some(ram) = ram.as_array::<16384>() else {
        return Err(Refusal::Length);
    };
    let Some(rom) = rom.as_array::<4096>() else {
        return Err(Refusal::Length);
    };
    let Some(colour) = colour.as_array::<1024>() else {
        return Err(Refusal::Length);
    };
    if bank > 3 {
        return Err(Refusal::Bank);
    }
    Ok(Host {
        memory: Memory { ram, rom, bank },
        colour,
    })
}
