// The border unit: the main and the vertical flip-flop, and the lines at which the vertical one changes.
#![tactic(auto)]

ghost use Rattle.std.specs.Prelude.{◌≡◌};
ghost use Rattle.border.specs.Border.{fresh, compared, switched, line_begun, line_ended, opened, left_passed, left_part, left40_passed, left38_passed, right38_passed, right40_passed, remembered};

#[derive(Clone, Copy)]
pub struct Border {
    pub vertical: bool,
    pub main: bool,
    // The main flip-flop as it was remembered, for the first part of a cell.
    pub old: bool,
    // Graphics are shut off.
    pub disabled: bool,
    // The main flip-flop before and after the left comparison at 40 and at 38 columns.
    pub part40: u8,
    pub part38: u8,
    // The lines that are compared.
    pub top: u16,
    pub bottom: u16,
}

// Before in bit 0, after in bit 1.
#[tactic(auto, unfolding(crate::specs::Border::left_part))]
fn part(before: bool, after: bool) -> u8
    ensures { result ≡ left_part before after }
{
    before as u8 | (after as u8) << 1
}

impl Border {
    pub fn new() -> Self
        ensures { result ≡ fresh }
    {
        Self {
            vertical: true,
            main: true,
            old: true,
            disabled: true,
            part40: 0,
            part38: 0,
            top: 0x37,
            bottom: 0xF7,
        }
    }

    #[tactic(auto, unfolding(crate::specs::Border::compared))]
    pub fn compares(mut self, rsel: bool) -> Self
        ensures { result ≡ compared self rsel }
    {
        if rsel {
            self.top = 0x33;
            self.bottom = 0xFB;
        } else {
            self.top = 0x37;
            self.bottom = 0xF7;
        }
        self
    }

    #[tactic(auto, unfolding(crate::specs::Border::switched))]
    fn turn(mut self, hit: bool, on: bool) -> Self
        ensures { result ≡ switched self hit on }
    {
        if hit {
            self.vertical = on;
            self.disabled = on;
        }
        self
    }

    #[tactic(auto, unfolding(crate::specs::Border::line_begun))]
    pub fn begin_line(self, raster: u16, den: bool) -> Self
        ensures { result ≡ line_begun self raster den }
    {
        let top = (raster == self.top) & den;
        let bottom = raster == self.bottom;
        self.turn(top, false).turn(bottom, true)
    }

    #[tactic(auto, unfolding(crate::specs::Border::switched, crate::specs::Border::line_ended))]
    pub fn line_end(self, raster: u16, den: bool) -> Self
        ensures { result ≡ line_ended self raster den }
    {
        let top = (raster == self.top) & den;
        let bottom = raster == self.bottom;
        self.turn(bottom | top, bottom)
    }

    #[tactic(auto, unfolding(crate::specs::Border::opened))]
    fn open(mut self) -> Self
        ensures { result ≡ opened self }
    {
        self.main = self.vertical & self.main;
        self
    }

    #[tactic(auto, unfolding(crate::specs::Border::left_passed))]
    fn pass_left(self, reached: bool, raster: u16, den: bool) -> Self
        ensures { result ≡ left_passed self reached raster den }
    {
        if reached {
            self.line_end(raster, den).open()
        } else {
            self
        }
    }

    #[tactic(auto, unfolding(crate::specs::Border::left40_passed))]
    pub fn left40(self, csel: bool, raster: u16, den: bool) -> Self
        ensures { result ≡ left40_passed self csel raster den }
    {
        let mut b = self.pass_left(csel, raster, den);
        b.part40 = part(self.main, b.main);
        b
    }

    #[tactic(auto, unfolding(crate::specs::Border::left38_passed))]
    pub fn left38(self, csel: bool, raster: u16, den: bool) -> Self
        ensures { result ≡ left38_passed self csel raster den }
    {
        let mut b = self.pass_left(!csel, raster, den);
        b.part38 = part(self.main, b.main);
        b
    }

    #[tactic(auto, unfolding(crate::specs::Border::right38_passed))]
    pub fn right38(mut self, csel: bool) -> Self
        ensures { result ≡ right38_passed self csel }
    {
        self.main = !csel | self.main;
        self
    }

    #[tactic(auto, unfolding(crate::specs::Border::right40_passed))]
    pub fn right40(mut self, csel: bool) -> Self
        ensures { result ≡ right40_passed self csel }
    {
        self.main = csel | self.main;
        self
    }

    pub fn remember(mut self) -> Self
        ensures { result ≡ remembered self }
    {
        self.old = self.main;
        self
    }
}
