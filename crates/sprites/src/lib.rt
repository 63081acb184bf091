// The eight sprites' counters: DMA, MCBASE, MC, the expansion flip-flops and the display mask.
#![tactic(auto)]

ghost use Rattle.std.specs.Prelude.{◌≡◌, ◌<◌};
ghost use Rattle.schedule.specs.Kind.{kind_of};
ghost use Rattle.sprites.specs.Sprites.{fresh, all_fresh, sprite_at, sprite_at≔, crunched, next_base, mc_moved, mask_after, step_one, mcbase_stepped, dma_begun, start_one, started, first_phased, second_phased, load_one, loaded, show_one, shown, mc_loaded, clear_after, flip_after, expand_written, fetched};
ghost use Rattle.sprites.specs.Fine.{fine_one, fine_test};

// A number of four bytes, so that a record moves as one value and not byte by byte (PERFORMANCE).
#[derive(Clone, Copy)]
pub struct Sprite {
    pub number: u32,
    pub mc: u8,
    pub base: u8,
}

// The masks have sprite k at bit k.
#[derive(Clone, Copy)]
pub struct Sprites {
    pub each: [Sprite; 8],
    pub flip: u8,
    pub clear: u8,
    pub dma: u8,
    pub prev: u8,
    pub display: u8,
    pub vmatch: u8,
}

// While clearing is pending, MCBASE's even bits are set where either counter has them, the odd ones where both do.
pub fn crunch(base: u8, mc: u8) -> u8
    ensures { result ≡ crunched base mc }
{
    (0x2A & base & mc) | (0x15 & (base | mc))
}

// MCBASE after its step: a clear expansion flip-flop keeps it.
#[tactic(auto, unfolding(crate::specs::Sprites::next_base))]
pub fn next_base(flip: bool, clearing: bool, base: u8, mc: u8) -> u8
    ensures { result ≡ next_base flip clearing base mc }
{
    if !flip {
        return base;
    }
    if clearing { crunch(base, mc) } else { mc }
}

// MC after some bytes of a sprite's slots, which count with DMA on alone.
pub fn moved(on: bool, mc: u8, bytes: u8) -> u8
    requires { bytes < 4 }
    ensures { result ≡ mc_moved on bytes mc }
{
    if on { (mc % 64 + bytes) % 64 } else { mc }
}

// The mask after a sprite's MCBASE step: the base of its last row ends DMA.
#[tactic(auto, unfolding(crate::specs::Sprites::mask_after))]
fn mask_after(mask: u8, k: usize, base: u8) -> u8
    requires { k < 8 }
    ensures { result ≡ mask_after mask k base }
{
    if base == 63 {
        laws::without_bit(mask, k)
    } else {
        mask
    }
}

impl Sprite {
    #[tactic(auto, unfolding(crate::specs::Sprites::fresh))]
    pub fn new(number: u32) -> Self
        ensures { result ≡ fresh number }
    {
        Self {
            number,
            mc: 0,
            base: 0,
        }
    }
}

impl Sprites {
    // Sprite k is numbered k; the expansion flip-flops are set.
    #[tactic(auto, unfolding(crate::specs::Sprites::all_fresh))]
    pub fn new() -> Self
        ensures { result ≡ all_fresh }
    {
        Self {
            each: [
                Sprite::new(0),
                Sprite::new(1),
                Sprite::new(2),
                Sprite::new(3),
                Sprite::new(4),
                Sprite::new(5),
                Sprite::new(6),
                Sprite::new(7),
            ],
            flip: 0xFF,
            clear: 0,
            dma: 0,
            prev: 0,
            display: 0,
            vmatch: 0,
        }
    }

    // Sprite k's record. A place known beforehand leaves the eight records where they are; a place worked out does not.
    #[inline(always)]
    #[tactic(auto, unfolding(crate::specs::Sprites::sprite_at))]
    pub fn at(self, k: usize) -> Sprite
        requires { k < 8 }
        ensures { result ≡ sprite_at self k }
    {
        match k {
            0 => self.each[0],
            1 => self.each[1],
            2 => self.each[2],
            3 => self.each[3],
            4 => self.each[4],
            5 => self.each[5],
            6 => self.each[6],
            _ => self.each[7],
        }
    }

    // Another record for sprite k, in the same way.
    #[inline(always)]
    fn put(mut self, k: usize, s: Sprite) -> Self
        requires { k < 8 }
        ensures { result ≡ sprite_at≔ k s self }
    {
        match k {
            0 => self.each[0] = s,
            1 => self.each[1] = s,
            2 => self.each[2] = s,
            3 => self.each[3] = s,
            4 => self.each[4] = s,
            5 => self.each[5] = s,
            6 => self.each[6] = s,
            _ => self.each[7] = s,
        }
        self
    }

    #[inline(always)]
    #[tactic(auto, unfolding(crate::specs::Sprites::step_one))]
    fn step_one(self, k: usize) -> Self
        requires { k < 8 }
        ensures { result ≡ step_one k self }
    {
        let flip = laws::has_bit(self.flip, k);
        let clearing = laws::has_bit(self.clear, k);
        let mut s = self.at(k);
        s.base = next_base(flip, clearing, s.base, s.mc);
        let mut all = self.put(k, s);
        all.dma = mask_after(all.dma, k, s.base);
        all
    }

    // The MCBASE step of all eight, with or without DMA.
    #[tactic(auto, using(crate::proofs::Folds::turn), unfolding(crate::specs::Sprites::up_to, crate::specs::Sprites::mcbase_stepped))]
    pub fn mcbase_step(mut self) -> Self
        ensures { result ≡ mcbase_stepped self }
    {
        self.prev = self.dma;
        for k in 0..8 {
            self = self.step_one(k);
        }
        self.clear = 0;
        self
    }

    #[inline(always)]
    #[tactic(auto, unfolding(crate::specs::Sprites::dma_begun))]
    fn begin(self, k: usize, yexp: u8) -> Self
        requires { k < 8 }
        ensures { result ≡ dma_begun k yexp self }
    {
        let mut s = self.at(k);
        s.base = 0;
        let mut all = self.put(k, s);
        all.dma = laws::with_bit(all.dma, k);
        if laws::has_bit(yexp, k) {
            all.flip = laws::without_bit(all.flip, k);
        }
        all
    }

    #[inline(always)]
    #[tactic(auto, unfolding(crate::specs::Sprites::start_one))]
    fn start_one(self, k: usize, y: u8, line: u8, enable: u8, yexp: u8) -> Self
        requires { k < 8 }
        ensures { result ≡ start_one line enable yexp k y self }
    {
        let on = laws::has_bit(self.dma, k);
        let starting = !on & laws::has_bit(enable, k) & (y == line);
        if starting { self.begin(k, yexp) } else { self }
    }

    // The Y comparison of either phase.
    #[tactic(auto, using(crate::proofs::Folds::turn), unfolding(crate::specs::Sprites::up_to, crate::specs::Sprites::started))]
    fn start(mut self, line: u8, my: [u8; 8], enable: u8, yexp: u8) -> Self
        ensures { result ≡ started line my enable yexp self }
    {
        for k in 0..8 {
            self = self.start_one(k, my[k], line, enable, yexp);
        }
        self
    }

    // The first phase inverts the flip-flops of the expanded sprites before it compares.
    #[tactic(auto, unfolding(crate::specs::Sprites::first_phased))]
    pub fn first_phase(mut self, raster: u16, my: [u8; 8], enable: u8, yexp: u8) -> Self
        ensures { result ≡ first_phased raster my enable yexp self }
    {
        self.prev = self.dma;
        self.vmatch = 0;
        self.flip ^= yexp;
        self.start((raster % 256) as u8, my, enable, yexp)
    }

    #[tactic(auto, unfolding(crate::specs::Sprites::second_phased))]
    pub fn second_phase(mut self, raster: u16, my: [u8; 8], enable: u8, yexp: u8) -> Self
        ensures { result ≡ second_phased raster my enable yexp self }
    {
        self.prev = self.dma;
        self.start((raster % 256) as u8, my, enable, yexp)
    }

    #[inline(always)]
    #[tactic(auto, unfolding(crate::specs::Sprites::load_one))]
    fn load_one(self, k: usize) -> Self
        requires { k < 8 }
        ensures { result ≡ load_one k self }
    {
        let mut s = self.at(k);
        s.mc = s.base;
        self.put(k, s)
    }

    #[tactic(auto, using(crate::proofs::Folds::turn), unfolding(crate::specs::Sprites::up_to, crate::specs::Sprites::loaded))]
    fn load(mut self) -> Self
        ensures { result ≡ loaded self }
    {
        for k in 0..8 {
            self = self.load_one(k);
        }
        self
    }

    #[inline(always)]
    #[tactic(auto, unfolding(crate::specs::Sprites::show_one))]
    fn show_one(mut self, k: usize, y: u8, line: u8, enable: u8) -> Self
        requires { k < 8 }
        ensures { result ≡ show_one line enable k y self }
    {
        let on = laws::has_bit(self.dma, k);
        let showing = on & laws::has_bit(enable, k) & (y == line);
        if showing {
            self.display = laws::with_bit(self.display, k);
        }
        self
    }

    #[tactic(auto, using(crate::proofs::Folds::turn), unfolding(crate::specs::Sprites::up_to, crate::specs::Sprites::shown))]
    fn show(mut self, line: u8, my: [u8; 8], enable: u8) -> Self
        ensures { result ≡ shown line my enable self }
    {
        for k in 0..8 {
            self = self.show_one(k, my[k], line, enable);
        }
        self
    }

    // MC from MCBASE for all eight, and which sprites show from now on.
    #[tactic(auto, unfolding(crate::specs::Sprites::mc_loaded))]
    pub fn load_mc(self, raster: u16, my: [u8; 8], enable: u8) -> Self
        ensures { result ≡ mc_loaded raster my enable self }
    {
        let mut s = self.load();
        s.display &= s.dma;
        s.show((raster % 256) as u8, my, enable)
    }

    // A write of the Y-expand register in a cycle; `old` is what the register held.
    #[tactic(auto, unfolding(crate::specs::Sprites::expand_written))]
    pub fn write_y_expand(mut self, kind: u8, value: u8, cycle: u16, old: u8) -> Self
        ensures { result ≡ expand_written (kind_of kind) value cycle old self }
    {
        self.clear = clear_after(value, cycle, self.clear, self.flip);
        self.flip = flip_after(kind, value, cycle, old, self.flip);
        self
    }

    #[tactic(auto, unfolding(crate::specs::Sprites::sprite_at))]
    fn fine_one(self, k: usize) -> bool
        requires { k < 8 }
        ensures { result ≡ fine_one k (sprite_at self k) }
    {
        let s = self.each[k];
        (s.number as usize == k) & (s.mc <= 63) & (s.base <= 63)
    }

    // Whether a state we accept may have these sprites.
    #[tactic(auto, using(crate::proofs::Folds::turn_test), unfolding(crate::specs::Fine::fine_test))]
    pub fn fine(self) -> bool
        ensures { result ≡ fine_test 8 self }
    {
        let mut fine = true;
        for k in 0..8 {
            fine &= self.fine_one(k);
        }
        fine
    }

    // Sprite k's MC after its slot fetched some bytes.
    #[tactic(auto, unfolding(crate::specs::Sprites::fetched))]
    pub fn fetch(self, k: usize, bytes: u8) -> Self
        requires { (k < 8) × (bytes < 4) }
        ensures { result ≡ fetched k bytes self }
    {
        let mut s = self.at(k);
        if laws::has_bit(self.dma, k) {
            s.mc = moved(true, s.mc, bytes);
            return self.put(k, s);
        }
        self
    }
}

// The sprites whose clearing is pending: a write in the crunch cycle replaces them.
#[tactic(auto, unfolding(crate::specs::Sprites::clear_after))]
fn clear_after(value: u8, cycle: u16, old: u8, flip: u8) -> u8
    ensures { result ≡ clear_after value cycle old flip }
{
    if schedule::crunch(cycle) {
        !(value | flip)
    } else {
        old
    }
}

// The flip-flops after the write: set where the new value is clear; elsewhere kept, in the first phase only where the old value was set.
#[tactic(auto, unfolding(crate::specs::Sprites::flip_after))]
fn flip_after(kind: u8, value: u8, cycle: u16, old: u8, flip: u8) -> u8
    ensures { result ≡ flip_after (kind_of kind) value cycle old flip }
{
    if schedule::first_phase(kind, cycle) {
        return (flip & (old | !value)) | !value;
    }
    flip | !value
}
