// The versions of a saved scene: which one bytes are, and the bytes of an older one as the next.
#![tactic(auto)]

ghost use Rattle.std.specs.Prelude.{◌≡◌, ◌+◌, ◌≤◌, ◌<◌, length};
ghost use Rattle.versions.specs.Put.{Put};
ghost use Rattle.versions.specs.Versions.{is_version, grown, are_flags, sprite_flags, is_flagged, unflagged};

// A part laid into bytes.
pub fn put(out: &mut [u8], at: usize, part: &[u8])
    requires { at + length part.now ≤ length out.old }
    ensures { Put out.old out.new at (at + length part.now) part.now }
{
    out[at..at + part.len()].copy_from_slice(part);
}

pub fn is_version(bytes: &[u8], version: u8, size: usize) -> bool
    requires { 3 < size }
    ensures { result ≡ is_version version size bytes.now }
{
    bytes.len() == size && bytes[3] == version
}

// The bytes of an older scene as those of the next version, which has one more.
pub fn grow(bytes: &[u8], out: &mut [u8], version: u8, more: u8)
    requires number { 3 < length bytes.now }
    requires size { length out.old ≡ length bytes.now + 1 }
    ensures { out.new ≡ grown version more bytes.now }
{
    put(out, 0, bytes);
    put(out, bytes.len(), &[more]);
    out[3] = version;
}

// Whether each of these bytes is a flag, 0 or 1.
pub fn are_flags(bytes: &[u8]) -> bool
    ensures { result ≡ are_flags bytes.now }
{
    bytes.iter().all(|&b| b < 2)
}

fn sprite_flags(bytes: &[u8]) -> bool
    requires { length bytes.now ≡ 309 }
    ensures { result ≡ sprite_flags bytes.now }
{
    are_flags(&[
        bytes[79], bytes[91], bytes[103], bytes[115], bytes[127], bytes[139], bytes[151],
        bytes[163],
    ])
}

// Whether these are the bytes of version 2, with a flag for each sprite.
#[tactic(auto, unfolding(crate::specs::Versions::is_flagged))]
pub fn is_flagged(bytes: &[u8]) -> bool
    ensures { result ≡ is_flagged bytes.now }
{
    is_version(bytes, 2, 309) && sprite_flags(bytes)
}

// The same bytes under the number 3, without the flags.
pub fn unflag(bytes: &[u8], out: &mut [u8; 309])
    requires { length bytes.now ≡ 309 }
    ensures { out.new ≡ unflagged bytes.now }
{
    put(out, 0, bytes);
    out[3] = 3;
    for at in [79, 91, 103, 115, 127, 139, 151, 163] {
        out[at] = 0;
    }
}
