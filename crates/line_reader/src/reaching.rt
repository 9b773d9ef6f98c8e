// Where a piece of a listing ends: at the first byte of the kind that is looked for.
ghost use Rattle.std.specs.Prelude.{◌≡◌, ◌+◌, ◌≤◌, false, length, drop};
ghost use Rattle.line_reader.specs.Reaching.{reach};

// Whether z is among the 16 bytes from p on. All of them are compared, so that this is one step of a processor's vector unit.
fn among_sixteen(s: &[u8], p: usize, z: u8) -> bool
    requires { p + 16 ≤ length s.now }
    ensures { result ≡ false → reach z (drop p s.now) ≡ 16 + reach z (drop (p + 16) s.now) }
{
    let mut found = false;
    for j in 0..16 {
        found = found | (s[p + j] == z);
    }
    found
}

// The place of the first z from p on, or the end where there is none: byte by byte, for a z that is near.
pub fn reach_near(s: &[u8], p: usize, z: u8) -> usize
    ensures { result ≡ p + reach z (drop p s.now) }
{
    for i in p..s.len() {
        if s[i] == z {
            return i;
        }
    }
    p.max(s.len())
}

// The same for a z that may be far: sixteen bytes at a time, then byte by byte.
pub fn reach(s: &[u8], p: usize, z: u8) -> usize
    ensures { result ≡ p + reach z (drop p s.now) }
{
    let mut i = p;
    // It goes on by sixteen bytes, up to where fewer are left. This is no `for` over `step_by(16)` or `chunks_exact(16)`, since the place where it
    // stops, found or not, is where the search byte by byte begins.
    while fields::whole(s.len(), i, 16) {
        if among_sixteen(s, i, z) {
            break;
        }
        i += 16;
    }
    reach_near(s, i, z)
}
