// Words at a place, and sums of them, for each width: with one function over W bytes in a loop, rows of three bytes ran at 0.73 to 0.83.
// A word's bytes are read, and in a function of their own written, in a straight line, the
// least significant first, and put backwards as a number: so the compiler makes one load, one swap and one store of them, and many at once.
ghost use Rattle.std.specs.Prelude.{◌≡◌, ◌+◌, ◌%◌, ◌<◌, ◌≤◌, true, false, length};
ghost use Rattle.words.specs.Word.{word_at, Within, Put, PutHalves, backwards, modulus, plus, minus};
ghost use Rattle.words.specs.Promises.{served};

fn little2(s: &[u8], at: usize) -> u16
    requires { at + 2 ≤ length s.now }
    ensures { result ≡ word_at s.now at 2 true }
{
    words::join2(s[at + 0], s[at + 1])
}

fn little3(s: &[u8], at: usize) -> u32
    requires { at + 3 ≤ length s.now }
    ensures { result ≡ word_at s.now at 3 true }
{
    words::join3(s[at + 0], s[at + 1], s[at + 2])
}

fn little4(s: &[u8], at: usize) -> u32
    requires { at + 4 ≤ length s.now }
    ensures { result ≡ word_at s.now at 4 true }
{
    words::join4(s[at + 0], s[at + 1], s[at + 2], s[at + 3])
}

fn little8(s: &[u8], at: usize) -> u64
    requires { at + 8 ≤ length s.now }
    ensures { result ≡ word_at s.now at 8 true }
{
    words::join8(
        s[at + 0],
        s[at + 1],
        s[at + 2],
        s[at + 3],
        s[at + 4],
        s[at + 5],
        s[at + 6],
        s[at + 7],
    )
}

fn store2(out: &mut [u8], at: usize, v: u16)
    requires { Within at 2 out.old }
    ensures { Put out.old at 2 true v out.new }
{
    out[at + 0] = (v / 1 % 256) as u8;
    out[at + 1] = (v / 256 % 256) as u8;
}

// Two bytes and one: of three the compiler would make three stores.
fn store3(out: &mut [u8], at: usize, v: u32)
    requires { Within at 3 out.old }
    ensures { Put out.old at 3 true v out.new }
{
    store2(out, at, (v % 65536) as u16);
    out[at + 2] = (v / 65536 % 256) as u8;
}

// The most significant byte first, by itself: then the two behind it are one store.
fn big3(out: &mut [u8], at: usize, v: u32)
    requires { Within at 3 out.old }
    ensures { Put out.old at 3 false v out.new }
{
    out[at + 0] = (v / 65536 % 256) as u8;
    store2(out, at + 1, words::backwards2((v % 65536) as u16));
}

fn store4(out: &mut [u8], at: usize, v: u32)
    requires { Within at 4 out.old }
    ensures { Put out.old at 4 true v out.new }
{
    out[at + 0] = (v / 1 % 256) as u8;
    out[at + 1] = (v / 256 % 256) as u8;
    out[at + 2] = (v / 65536 % 256) as u8;
    out[at + 3] = (v / 16777216 % 256) as u8;
}

fn store8(out: &mut [u8], at: usize, v: u64)
    requires { at + 8 ≤ length out.old }
    ensures { PutHalves out.old at v out.new }
{
    store4(out, at, (v % 4294967296) as u32);
    store4(out, at + 4, (v / 4294967296) as u32);
}

// The word of a width at a place, the least significant byte first. With a constant width the compiler keeps one arm, here and below;
// of a variable's tests, told apart in two halves, it makes no jump through a table.
fn little(s: &[u8], at: usize, width: usize) -> u64
    requires { (served width ≡ true) × (at + width ≤ length s.now) }
    ensures { result ≡ word_at s.now at width true }
{
    if 3 < width {
        if width == 4 {
            little4(s, at) as u64
        } else {
            little8(s, at)
        }
    } else if width == 1 {
        s[at] as u64
    } else if width == 2 {
        little2(s, at) as u64
    } else {
        little3(s, at) as u64
    }
}

// The low bytes of any number.
fn store(out: &mut [u8], at: usize, width: usize, v: u64)
    requires { (served width ≡ true) × (at + width ≤ length out.old) }
    ensures { Put out.old at width true v out.new }
{
    if 3 < width {
        if width == 4 {
            store4(out, at, (v % 4294967296) as u32)
        } else {
            store8(out, at, v)
        }
    } else if width == 1 {
        out[at + 0] = (v / 1 % 256) as u8;
    } else if width == 2 {
        store2(out, at, (v % 65536) as u16)
    } else {
        store3(out, at, (v % 16777216) as u32)
    }
}

// The low bytes of any number, backwards.
fn backwards(v: u64, width: usize) -> u64
    requires { served width ≡ true }
    ensures { result ≡ backwards width v }
{
    if 3 < width {
        if width == 4 {
            words::backwards4((v % 4294967296) as u32) as u64
        } else {
            words::backwards8(v)
        }
    } else if width == 1 {
        v % 256
    } else if width == 2 {
        words::backwards2((v % 65536) as u16) as u64
    } else {
        words::backwards3((v % 4294967296) as u32) as u64
    }
}

pub(crate) fn get(s: &[u8], at: usize, width: usize, le: bool) -> u64
    requires { (served width ≡ true) × (at + width ≤ length s.now) }
    ensures { result ≡ word_at s.now at width le }
{
    let v = little(s, at, width);
    if le { v } else { backwards(v, width) }
}

pub(crate) fn put(out: &mut [u8], at: usize, width: usize, le: bool, v: u64)
    requires { (served width ≡ true) × (at + width ≤ length out.old) }
    ensures { Put out.old at width le v out.new }
{
    if le {
        store(out, at, width, v)
    } else if width == 3 {
        big3(out, at, (v % 16777216) as u32)
    } else {
        store(out, at, width, backwards(v, width))
    }
}

// Arms for the sum, and for the difference: with the low bytes taken in a function that both call, rows of two and four channels of four bytes
// ran at 0.44 to 0.59.
pub(crate) fn add(a: u64, b: u64, width: usize) -> u64
    requires { served width ≡ true }
    ensures { result ≡ plus width a b }
{
    if 3 < width {
        if width == 4 {
            a.wrapping_add(b) % 4294967296
        } else {
            a.wrapping_add(b)
        }
    } else if width == 1 {
        a.wrapping_add(b) % 256
    } else if width == 2 {
        a.wrapping_add(b) % 65536
    } else {
        a.wrapping_add(b) % 16777216
    }
}

pub(crate) fn sub(a: u64, b: u64, width: usize) -> u64
    requires { (served width ≡ true) × (b < modulus width) }
    ensures { result ≡ minus width a b }
{
    if 3 < width {
        if width == 4 {
            a.wrapping_sub(b) % 4294967296
        } else {
            a.wrapping_sub(b)
        }
    } else if width == 1 {
        a.wrapping_sub(b) % 256
    } else if width == 2 {
        a.wrapping_sub(b) % 65536
    } else {
        a.wrapping_sub(b) % 16777216
    }
}

// The sample at a place: its word and the sum so far of its channel.
pub(crate) fn sum(raw: &[u8], at: usize, width: usize, le: bool, so_far: u64) -> u64
    requires { (served width ≡ true) × (at + width ≤ length raw.now) }
    ensures { result ≡ plus width (word_at raw.now at width le) so_far }
{
    add(get(raw, at, width, le), so_far, width)
}

// The bytes of so many that are past whole words. No division by a variable: a width that is not 3 is a power of two.
pub(crate) fn past(n: usize, width: usize) -> usize
    requires { served width ≡ true }
    ensures { result ≡ n % width }
{
    if width == 3 { n % 3 } else { n & (width - 1) }
}
