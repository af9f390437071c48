// Bytes copied or repeated from a place of a buffer on. What is behind them is of no account: the packets that follow write over it. So where there is
// room whole blocks are moved, copies of a multiple of 32 bytes, repeats of a constant length: of these the compiler makes vectors.
ghost use Rattle.std.specs.Prelude.{◌≡◌, ◌+◌, ◌≤◌, length};
ghost use Rattle.answer.specs.Table.{table};
ghost use Rattle.packbits.specs.Parts.{bytes_at, put_at, Placed, CopyFits};

// By hand, as `fill_with` below: with `copy_from_slice` and `fill`, which are calls at these lengths, rows of literals were written at 0.90 of this speed,
// and rows of runs were read and written at 0.90.
fn move_into(source: &[u8], out: &mut [u8])
    requires { length source.now ≡ length out.old }
    ensures { out.new ≡ source.now }
{
    for (i, x) in source.iter().enumerate() {
        out[i] = *x;
    }
}

fn copy(source: &[u8], begin: usize, n: usize, out: &mut [u8], to: usize)
    requires { CopyFits source.now begin n out.old to }
    ensures { out.new ≡ put_at to (bytes_at source.now begin n) out.old }
{
    let end = begin + n;
    let last = to + n;
    move_into(&source[begin..end], &mut out[to..last]);
}

// n bytes of the source.
pub(crate) fn copy_bytes(source: &[u8], begin: usize, n: usize, out: &mut [u8], to: usize)
    requires { (n ≤ 128) × CopyFits source.now begin n out.old to }
    ensures { Placed to (bytes_at source.now begin n) out.old out.new }
{
    let blocks = (n + 31) / 32 * 32;
    if (blocks <= source.len() - begin) & (blocks <= out.len() - to) {
        copy(source, begin, blocks, out, to);
    } else {
        copy(source, begin, n, out, to);
    }
}

fn fill_with(b: u8, part: &mut [u8])
    ensures { part.new ≡ table (length part.old) (λ k. b) }
{
    for x in part.iter_mut() {
        *x = b;
    }
}

fn repeat(b: u8, n: usize, out: &mut [u8], to: usize)
    requires { to + n ≤ length out.old }
    ensures { out.new ≡ put_at to (table n (λ k. b)) out.old }
{
    let last = to + n;
    fill_with(b, &mut out[to..last]);
}

// A byte n times.
pub(crate) fn repeat_byte(b: u8, n: usize, out: &mut [u8], to: usize)
    requires { to + n ≤ length out.old }
    ensures { Placed to (table n (λ k. b)) out.old out.new }
{
    let room = out.len() - to;
    if (n <= 32) & (32 <= room) {
        repeat(b, 32, out, to);
    } else if (n <= 64) & (64 <= room) {
        repeat(b, 64, out, to);
    } else if (n <= 128) & (128 <= room) {
        repeat(b, 128, out, to);
    } else {
        repeat(b, n, out, to);
    }
}
