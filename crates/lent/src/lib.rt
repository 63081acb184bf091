// The border unit's steps on a lent record: each copies the record out, calls the by-value method, and stores its answer.
#![tactic(auto)]

ghost use Rattle.std.specs.Prelude.{◌≡◌};
ghost use Rattle.border.specs.Border.{compared, line_begun, line_ended, left40_passed, left38_passed, right38_passed, right40_passed, remembered};

pub fn compares(b: &mut border::Border, rsel: bool)
    ensures { b.new ≡ compared b.entry.now rsel }
{
    *b = b.compares(rsel);
}

pub fn begin_line(b: &mut border::Border, raster: u16, den: bool)
    ensures { b.new ≡ line_begun b.entry.now raster den }
{
    *b = b.begin_line(raster, den);
}

pub fn line_end(b: &mut border::Border, raster: u16, den: bool)
    ensures { b.new ≡ line_ended b.entry.now raster den }
{
    *b = b.line_end(raster, den);
}

pub fn left40(b: &mut border::Border, csel: bool, raster: u16, den: bool)
    ensures { b.new ≡ left40_passed b.entry.now csel raster den }
{
    *b = b.left40(csel, raster, den);
}

pub fn left38(b: &mut border::Border, csel: bool, raster: u16, den: bool)
    ensures { b.new ≡ left38_passed b.entry.now csel raster den }
{
    *b = b.left38(csel, raster, den);
}

pub fn right38(b: &mut border::Border, csel: bool)
    ensures { b.new ≡ right38_passed b.entry.now csel }
{
    *b = b.right38(csel);
}

pub fn right40(b: &mut border::Border, csel: bool)
    ensures { b.new ≡ right40_passed b.entry.now csel }
{
    *b = b.right40(csel);
}

pub fn remember(b: &mut border::Border)
    ensures { b.new ≡ remembered b.entry.now }
{
    *b = b.remember();
}
