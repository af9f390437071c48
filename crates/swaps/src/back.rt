// Some bytes of `raw`, stored backwards. A word of them is read in a straight line, its bytes put backwards as a number, and stored in a
// function of its own: of that the compiler makes one load, one swap and one store, and in a loop many at once. One function over N bytes ran at
// 0.4 where they are 8, and at 0.67 where they are 4.
ghost use Rattle.std.specs.Prelude.{◌≡◌, true, ◌+◌, ◌≤◌, length};
ghost use Rattle.words.specs.Word.{word_at, Within, Put, PutHalves};
ghost use Rattle.swaps.specs.Swapped.{Room, Backwards, AsWord, Whole};

fn little2(s: &[u8], at: usize) -> u16
    requires { at + 2 ≤ length s.now }
    ensures { result ≡ word_at s.now at 2 true }
{
    u16::from_le_bytes([s[at + 0], s[at + 1]])
}

fn little4(s: &[u8], at: usize) -> u32
    requires { at + 4 ≤ length s.now }
    ensures { result ≡ word_at s.now at 4 true }
{
    u32::from_le_bytes([s[at + 0], s[at + 1], s[at + 2], s[at + 3]])
}

fn little8(s: &[u8], at: usize) -> u64
    requires { at + 8 ≤ length s.now }
    ensures { result ≡ word_at s.now at 8 true }
{
    u64::from_le_bytes([
        s[at + 0],
        s[at + 1],
        s[at + 2],
        s[at + 3],
        s[at + 4],
        s[at + 5],
        s[at + 6],
        s[at + 7],
    ])
}

fn store2(out: &mut [u8], at: usize, v: u16)
    requires { Within at 2 out.old }
    ensures { Put out.old at 2 true v out.new }
{
    out[at + 0] = (v / 1 % 256) as u8;
    out[at + 1] = (v / 256 % 256) as u8;
}

fn store4(out: &mut [u8], at: usize, v: u32)
    requires { Within at 4 out.old }
    ensures { Put out.old at 4 true v out.new }
{
    out[at + 0] = (v / 1 % 256) as u8;
    out[at + 1] = (v / 256 % 256) as u8;
    out[at + 2] = (v / 65536 % 256) as u8;
    out[at + 3] = (v / 16777216 % 256) as u8;
}

fn store8(out: &mut [u8], at: usize, v: u64)
    requires { at + 8 ≤ length out.old }
    ensures { PutHalves out.old at v out.new }
{
    store4(out, at, (v % 4294967296) as u32);
    store4(out, at + 4, (v / 4294967296) as u32);
}

pub(crate) fn back1(raw: &[u8], from: usize, out: &mut [u8], at: usize)
    requires { Room raw.now from 1 out.old at }
    ensures { Backwards raw.now from 1 out.old at out.new }
{
    out[at + 0] = raw[from + 0];
}

pub(crate) fn back2(raw: &[u8], from: usize, out: &mut [u8], at: usize)
    requires { Room raw.now from 2 out.old at }
    ensures { AsWord (Whole 2) raw.now from 2 out.old at out.new }
{
    store2(out, at, little2(raw, from).swap_bytes());
}

pub(crate) fn back4(raw: &[u8], from: usize, out: &mut [u8], at: usize)
    requires { Room raw.now from 4 out.old at }
    ensures { AsWord (Whole 4) raw.now from 4 out.old at out.new }
{
    store4(out, at, little4(raw, from).swap_bytes());
}

pub(crate) fn back8(raw: &[u8], from: usize, out: &mut [u8], at: usize)
    requires { Room raw.now from 8 out.old at }
    ensures { AsWord PutHalves raw.now from 8 out.old at out.new }
{
    store8(out, at, little8(raw, from).swap_bytes());
}
