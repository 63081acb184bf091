// The register file and the interrupt latches, and what the control bits mean.
#![tactic(auto)]

ghost use Rattle.std.specs.Prelude.{◌≡◌};
ghost use Rattle.registers.specs.Control.{DEN, RSEL, YSCROLL, CSEL, mode_number, timed};
ghost use Rattle.registers.specs.Irq.{quiet, settled, triggered, cleared, enabled, irq_written};
ghost use Rattle.registers.specs.Registers.{fresh, written, controlled, control1_stored, control2_stored, expanded};
ghost use Rattle.registers.specs.Read.{read_control, read_latches, read_colour, control_at, colour_at, read_of};

pub fn den(ctrl1: u8) -> bool
    ensures { result ≡ DEN ctrl1 }
{
    laws::has_bit(ctrl1, 4)
}

pub fn rsel(ctrl1: u8) -> bool
    ensures { result ≡ RSEL ctrl1 }
{
    laws::has_bit(ctrl1, 3)
}

pub fn yscroll(ctrl1: u8) -> u8
    ensures { result ≡ YSCROLL ctrl1 }
{
    ctrl1 % 8
}

pub fn csel(ctrl2: u8) -> bool
    ensures { result ≡ CSEL ctrl2 }
{
    laws::has_bit(ctrl2, 3)
}

// ECM and BMM are neighbours in ctrl1.
pub fn mode(ctrl1: u8, ctrl2: u8) -> u8
    ensures { result ≡ mode_number ctrl1 ctrl2 }
{
    ctrl1 / 32 % 4 * 2 + ctrl2 / 16 % 2
}

#[derive(Clone, Copy)]
pub struct Irq {
    pub flags: u8,
    pub enable: u8,
    pub line: bool,
}

impl Irq {
    pub fn new() -> Self
        ensures { result ≡ quiet }
    {
        Irq {
            flags: 0,
            enable: 0,
            line: false,
        }
    }

    // Bit 7 of the flags and the line, from the latches and what is enabled.
    #[tactic(auto, unfolding(crate::specs::Irq::settled, crate::specs::Irq::asked))]
    fn settle(mut self) -> Self
        ensures { result ≡ settled self.flags self.enable }
    {
        let asked = self.flags & self.enable & 0x0F != 0;
        self.line = asked;
        if asked {
            self.flags = laws::with_bit(self.flags, 7);
            return self;
        }
        self.flags = laws::without_bit(self.flags, 7);
        self
    }

    #[tactic(auto, unfolding(crate::specs::Irq::triggered))]
    pub fn trigger(mut self, source: u8) -> Self
        ensures { result ≡ triggered self source }
    {
        self.flags = self.flags | source;
        self.settle()
    }

    #[tactic(auto, unfolding(crate::specs::Irq::cleared))]
    pub fn clear(mut self, mask: u8) -> Self
        ensures { result ≡ cleared self mask }
    {
        self.flags = self.flags & !(mask % 16);
        self.settle()
    }

    #[tactic(auto, unfolding(crate::specs::Irq::enabled))]
    pub fn write_enable(mut self, v: u8) -> Self
        ensures { result ≡ enabled self v }
    {
        self.enable = v % 16;
        self.settle()
    }

    #[tactic(auto, unfolding(crate::specs::Irq::irq_written))]
    pub fn write(self, addr: u16, v: u8) -> Self
        ensures { result ≡ irq_written self addr v }
    {
        match addr % 64 {
            0x19 => self.clear(v),
            0x1A => self.write_enable(v),
            _ => self,
        }
    }
}

#[derive(Clone, Copy)]
pub struct Registers {
    pub mx: [u8; 8],
    pub my: [u8; 8],
    pub cols: [u8; 8],
    pub bg: [u8; 4],
    pub msbx: u8,
    pub enable: u8,
    pub yexp: u8,
    pub xexp: u8,
    pub prio: u8,
    pub multi: u8,
    pub mc0: u8,
    pub mc1: u8,
    pub ctrl1: u8,
    pub ctrl2: u8,
    pub compare: u16,
    pub ptrs: u8,
    pub border: u8,
}

// 0x11: bit 7 is the raster's.
fn control1(ctrl1: u8, raster: u16) -> u8
    ensures { result ≡ read_control ctrl1 raster }
{
    (raster / 256 % 2 * 128) as u8 + ctrl1 % 128
}

// 0x19: bit 7 is the line.
#[tactic(auto, unfolding(crate::specs::Read::read_latches))]
fn latches(flags: u8, line: bool) -> u8
    ensures { result ≡ read_latches flags line }
{
    if line {
        0xF0 + flags % 16
    } else {
        0x70 + flags % 16
    }
}

// The unused upper half of a colour reads ones.
fn colour(c: u8) -> u8
    ensures { result ≡ read_colour c }
{
    0xF0 + c % 16
}

impl Registers {
    pub fn new() -> Self
        ensures { result ≡ fresh }
    {
        Registers {
            mx: [0; 8],
            my: [0; 8],
            cols: [0; 8],
            bg: [0; 4],
            msbx: 0,
            enable: 0,
            yexp: 0,
            xexp: 0,
            prio: 0,
            multi: 0,
            mc0: 0,
            mc1: 0,
            ctrl1: 0,
            ctrl2: 0,
            compare: 0,
            ptrs: 0,
            border: 0,
        }
    }

    #[tactic(auto, unfolding(crate::specs::Registers::written, crate::specs::Registers::latch))]
    pub fn write(mut self, addr: u16, v: u8) -> Self
        ensures { result ≡ written self addr v }
    {
        let reg = addr % 64;
        if reg < 0x10 {
            let n = (reg / 2) as usize;
            if reg % 2 == 0 {
                self.mx[n] = v;
            } else {
                self.my[n] = v;
            }
            return self;
        }
        if 0x27 <= reg {
            if reg <= 0x2E {
                let n = (reg - 0x27) as usize;
                self.cols[n] = v % 16;
            }
            return self;
        }
        match reg {
            0x10 => self.msbx = v,
            0x12 => self.compare = self.compare / 256 % 2 * 256 + u16::from(v),
            0x15 => self.enable = v,
            0x18 => self.ptrs = v,
            0x1B => self.prio = v,
            0x1C => self.multi = v,
            0x1D => self.xexp = v,
            0x20 => self.border = v % 16,
            0x21 => self.bg[0] = v % 16,
            0x22 => self.bg[1] = v % 16,
            0x23 => self.bg[2] = v % 16,
            0x24 => self.bg[3] = v % 16,
            0x25 => self.mc0 = v % 16,
            0x26 => self.mc1 = v % 16,
            _ => {}
        }
        self
    }

    // 0x10 to 0x1F.
    #[tactic(auto, unfolding(crate::specs::Read::control_at))]
    fn control(self, irq: Irq, raster: u16, reg: u16, penx: u8, peny: u8) -> u8
        ensures { result ≡ control_at self irq raster penx peny reg }
    {
        match reg {
            0x10 => self.msbx,
            0x11 => control1(self.ctrl1, raster),
            0x12 => (raster % 256) as u8,
            0x13 => penx,
            0x14 => peny,
            0x15 => self.enable,
            0x16 => 0xC0 + self.ctrl2 % 64,
            0x17 => self.yexp,
            0x18 => self.ptrs / 2 * 2 + 1,
            0x19 => latches(irq.flags, irq.line),
            0x1A => 0xF0 + irq.enable % 16,
            0x1B => self.prio,
            0x1C => self.multi,
            0x1D => self.xexp,
            _ => 0xFF,
        }
    }

    // 0x20 to 0x26, before the unused bits.
    #[tactic(auto, unfolding(crate::specs::Read::colour_at))]
    fn shade(self, reg: u16) -> u8
        ensures { result ≡ colour_at self reg }
    {
        match reg {
            0x20 => self.border,
            0x21 => self.bg[0],
            0x22 => self.bg[1],
            0x23 => self.bg[2],
            0x24 => self.bg[3],
            0x25 => self.mc0,
            _ => self.mc1,
        }
    }

    #[tactic(auto, unfolding(crate::specs::Read::read_of))]
    pub fn read(self, irq: Irq, raster: u16, addr: u16, penx: u8, peny: u8) -> u8
        ensures { result ≡ read_of self irq raster addr penx peny }
    {
        let reg = addr % 64;
        if reg < 0x10 {
            let n = (reg / 2) as usize;
            if reg % 2 == 0 {
                return self.mx[n];
            }
            return self.my[n];
        }
        if reg < 0x20 {
            return self.control(irq, raster, reg, penx, peny);
        }
        if reg < 0x27 {
            return colour(self.shade(reg));
        }
        if reg < 0x2F {
            let n = (reg - 0x27) as usize;
            return colour(self.cols[n]);
        }
        0xFF
    }

    pub fn controls(self, ctrl1: u8, ctrl2: u8, compare: u16) -> Self
        ensures { result ≡ controlled self ctrl1 ctrl2 compare }
    {
        Registers {
            ctrl1,
            ctrl2,
            compare,
            ..self
        }
    }

    // 0x11: its bit 7 is bit 8 of the compare line.
    pub fn write_control_1(mut self, v: u8) -> Self
        ensures { result ≡ control1_stored self v }
    {
        let high = laws::has_bit(v, 7);
        self.ctrl1 = v;
        self.compare = laws::pick(high, 256, 0) + self.compare % 256;
        self
    }

    pub fn write_control_2(mut self, v: u8) -> Self
        ensures { result ≡ control2_stored self v }
    {
        self.ctrl2 = v;
        self
    }

    pub fn expand(mut self, v: u8) -> Self
        ensures { result ≡ expanded self v }
    {
        self.yexp = v;
        self
    }
}

// ---- the timing registers

// What the timing side of a tick reads of the register file.
#[derive(Clone, Copy)]
pub struct Controls {
    pub den: bool,
    pub rsel: bool,
    pub yscroll: u8,
    pub csel: bool,
    pub compare: u16,
    pub my: [u8; 8],
    pub enable: u8,
    pub yexp: u8,
}

#[tactic(auto, unfolding(crate::specs::Control::timed))]
pub fn timed(regs: Registers) -> Controls
    ensures { result ≡ timed regs }
{
    let my = regs.my;
    Controls {
        den: den(regs.ctrl1),
        rsel: rsel(regs.ctrl1),
        yscroll: yscroll(regs.ctrl1),
        csel: csel(regs.ctrl2),
        compare: regs.compare,
        my,
        enable: regs.enable,
        yexp: regs.yexp,
    }
}
