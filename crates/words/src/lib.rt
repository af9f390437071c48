// Words: two, three, four or eight bytes as one number, in either byte order, and the byte that stands for itself.
#![tactic(auto)]

ghost use Rattle.std.specs.Prelude.{◌≡◌, true, [], ◌∷◌, ◌+◌, ◌≤◌, length};
ghost use Rattle.words.specs.Word.{word_at, backwards};
ghost use Rattle.words.specs.Promises.{served, load_width, Joined, Placed, ReadWord, LoadedWord};

use answer::{ByteAt, Refusal, SampleAt};

// Whether words of this many bytes are read.
#[tactic(auto, unfolding(crate::specs::Promises::served))]
pub fn width_served(width: usize) -> bool
    ensures { result ≡ served width }
{
    matches!(width, 1 | 2 | 3 | 4 | 8)
}

// The word of two bytes, the least significant first. Joined and turned by hand: with std's `from_le_bytes` and `swap_bytes` predicted rows of
// six channels run at 0.55 to 0.67.
pub fn join2(a: u8, b: u8) -> u16
    ensures { Joined (a ∷ b ∷ []) result }
{
    (a as u16) + 256 * (b as u16)
}

// The word of three bytes, the least significant first.
pub fn join3(a: u8, b: u8, c: u8) -> u32
    ensures { Joined (a ∷ b ∷ c ∷ []) result }
{
    (join2(a, b) as u32) + 65536 * (c as u32)
}

// The word of four bytes, the least significant first.
pub fn join4(a: u8, b: u8, c: u8, d: u8) -> u32
    ensures { Joined (a ∷ b ∷ c ∷ d ∷ []) result }
{
    (a as u32) + 256 * (b as u32) + 65536 * (c as u32) + 16777216 * (d as u32)
}

// The word of eight bytes, the least significant first.
pub fn join8(a: u8, b: u8, c: u8, d: u8, e: u8, f: u8, g: u8, h: u8) -> u64
    ensures { Joined (a ∷ b ∷ c ∷ d ∷ e ∷ f ∷ g ∷ h ∷ []) result }
{
    (join4(a, b, c, d) as u64) + 4294967296 * (join4(e, f, g, h) as u64)
}

// The bytes of a word backwards: two of them.
pub fn backwards2(v: u16) -> u16
    ensures { result ≡ backwards 2 v }
{
    v % 256 * 256 + v / 256 % 256
}

// Three, the low ones of any number.
pub fn backwards3(v: u32) -> u32
    ensures { result ≡ backwards 3 v }
{
    backwards4(v) / 256
}

// Four.
pub fn backwards4(v: u32) -> u32
    ensures { result ≡ backwards 4 v }
{
    v % 256 * 16777216 + v / 256 % 256 * 65536 + v / 65536 % 256 * 256 + v / 16777216 % 256
}

// Eight.
pub fn backwards8(v: u64) -> u64
    ensures { result ≡ backwards 8 v }
{
    let low = v % 256 * 72057594037927936
        + v / 256 % 256 * 281474976710656
        + v / 65536 % 256 * 1099511627776
        + v / 16777216 % 256 * 4294967296;
    let high = v / 4294967296 % 256 * 16777216
        + v / 1099511627776 % 256 * 65536
        + v / 281474976710656 % 256 * 256
        + v / 72057594037927936 % 256;
    low + high
}

// The byte at which sample i begins, among `length` bytes of samples of this width.
pub fn byte_place(i: SampleAt, width: usize, length: usize) -> Result<ByteAt, Refusal>
    ensures { Placed i.0 width length result }
{
    let n = i.0;
    if width == 0 {
        return Err(Refusal::Unsupported);
    }
    if length / width <= n {
        return Err(Refusal::Truncated);
    }
    Ok(ByteAt(n * width))
}

fn little2(s: &[u8], at: usize) -> u16
    requires { at + 2 ≤ length s.now }
    ensures { result ≡ word_at s.now at 2 true }
{
    join2(s[at + 0], s[at + 1])
}

fn little3(s: &[u8], at: usize) -> u32
    requires { at + 3 ≤ length s.now }
    ensures { result ≡ word_at s.now at 3 true }
{
    join3(s[at + 0], s[at + 1], s[at + 2])
}

fn little4(s: &[u8], at: usize) -> u32
    requires { at + 4 ≤ length s.now }
    ensures { result ≡ word_at s.now at 4 true }
{
    join4(s[at + 0], s[at + 1], s[at + 2], s[at + 3])
}

fn little8(s: &[u8], at: usize) -> u64
    requires { at + 8 ≤ length s.now }
    ensures { result ≡ word_at s.now at 8 true }
{
    join8(
        s[at + 0],
        s[at + 1],
        s[at + 2],
        s[at + 3],
        s[at + 4],
        s[at + 5],
        s[at + 6],
        s[at + 7],
    )
}

fn get(s: &[u8], at: usize, width: usize, le: bool) -> u64
    requires { (served width ≡ true) × (at + width ≤ length s.now) }
    ensures { result ≡ word_at s.now at width le }
{
    if width == 1 {
        s[at] as u64
    } else if width == 2 {
        let v = little2(s, at);
        if le { v as u64 } else { backwards2(v) as u64 }
    } else if width == 3 {
        let v = little3(s, at);
        if le { v as u64 } else { backwards3(v) as u64 }
    } else if width == 4 {
        let v = little4(s, at);
        if le { v as u64 } else { backwards4(v) as u64 }
    } else {
        let v = little8(s, at);
        if le { v } else { backwards8(v) }
    }
}

// The word of `width` bytes at a place.
pub fn read_word(s: &[u8], at: ByteAt, width: usize, le: bool) -> Result<u64, Refusal>
    ensures { ReadWord s.now at.0 width le result }
{
    let at = at.0;
    if !width_served(width) {
        return Err(Refusal::Unsupported);
    }
    if s.len() < width {
        return Err(Refusal::Truncated);
    }
    if s.len() - width < at {
        return Err(Refusal::Truncated);
    }
    Ok(get(s, at, width, le))
}

fn load_width(wide: bool) -> usize
    ensures { result ≡ load_width wide }
{
    if wide { 2 } else { 1 }
}

// Sample i of one byte, or of two if `wide`.
pub fn load(s: &[u8], i: SampleAt, wide: bool, le: bool) -> Result<u32, Refusal>
    ensures { LoadedWord s.now i.0 wide le result }
{
    let width = load_width(wide);
    let at = byte_place(i, width, s.len())?;
    Ok(get(s, at.0, width, le) as u32)
}
