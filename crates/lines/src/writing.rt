// Where lines of output go: bytes, texts and numbers are written into lent bytes, one behind the other.
ghost use Rattle.std.specs.Prelude.{◌≡◌, [], ◌∷◌, ◌+◌, ◌<◌, ◌≤◌, ◌↔◌, IsTrue, length};
ghost use Rattle.rules.specs.Bytes.{last_digits, digit_count, decimal, hexadecimal};
ghost use Rattle.layout.specs.Columns.{pasted};
ghost use Rattle.lines.specs.Room.{decimal_room, hexadecimal_room};

// The lent bytes, and where the next one goes.
#[derive(Drop)]
pub struct LineWriter<'a> {
    lent: &'a mut [u8],
    at: usize,
}

// A digit's byte: `0` to `9`, then `a` to `f`.
#[tactic(auto, unfolding(rules::specs::Bytes::digit))]
fn digit(d: u8) -> u8
    requires { d < 16 }
    ensures { result ≡ Rattle.rules.specs.Bytes.digit d }
{
    if d < 10 { b'0' + d } else { b'a' - 10 + d }
}

// How many decimal digits a number has.
fn digit_count(n: u32) -> usize
    ensures { result ≡ digit_count 10 n }
{
    match n.checked_ilog10() {
        Some(k) => k as usize + 1,
        None => 1,
    }
}

// Writes a text over the bytes of another, from `from` on. (A loop, as `layout::lists::copy_at` is, and for the same reason.)
fn copy_bytes(to: &mut [u8], from: usize, list: &[u8])
    requires { from + length list.now ≤ length to.old }
    ensures { to.new ≡ pasted to.old from list.now }
{
    for j in 0..list.len() {
        to[from + j] = list[j];
    }
}

impl<'a> LineWriter<'a> {
    ghost use Rattle.lines.specs.Writing.{HasRoom, Writes};

    // Nothing is written yet.
    pub fn new(lent: &'a mut [u8]) -> LineWriter<'a>
        ensures same_reference { result.lent.ghost_name ≡ lent.entry.ghost_name }
        ensures lent { result.lent.now ≡ lent.old }
        ensures at { result.at ≡ 0 }
    {
        LineWriter { lent, at: 0 }
    }

    // So many bytes are written already, and the next ones go behind them.
    pub fn behind(lent: &'a mut [u8], at: usize) -> LineWriter<'a>
        ensures same_reference { result.lent.ghost_name ≡ lent.entry.ghost_name }
        ensures lent { result.lent.now ≡ lent.old }
        ensures at { result.at ≡ at }
    {
        LineWriter { lent, at }
    }

    // How many bytes are written.
    pub fn length(&self) -> usize
        ensures { result ≡ self.now.at }
    {
        self.at
    }

    // Whether so many bytes more can be written.
    pub fn has_room(&self, n: usize) -> bool
        ensures { IsTrue result ↔ HasRoom n self.now }
    {
        self.at <= self.lent.len() && n <= self.lent.len() - self.at
    }

    pub fn put_byte(&mut self, byte: u8)
        requires { HasRoom 1 self.old }
        ensures { Writes 1 (byte ∷ []) self.old self.new }
    {
        self.put_text(&[byte]);
    }

    pub fn put_text(&mut self, text: &[u8])
        requires { HasRoom (length text.now) self.old }
        ensures { Writes (length text.now) text.now self.old self.new }
    {
        copy_bytes(self.lent, self.at, text);
        self.at += text.len();
    }

    // The last `count` digits of a number; they are written from the last one back.
    fn put_digits(&mut self, base: u64, count: usize, n: u64)
        requires count_in_bounds { HasRoom count self.old }
        requires base_nonzero { 0 < base }
        requires base_bound { base ≤ 16 }
        ensures { Writes count (last_digits base count n) self.old self.new }
    {
        let at = self.at;
        let mut rest = n;
        for i in (0..count).rev() {
            self.lent[at + i] = digit((rest % base) as u8);
            rest /= base;
        }
        self.at = at + count;
    }

    pub fn put_decimal(&mut self, n: u32)
        requires { HasRoom decimal_room self.old }
        ensures { Writes decimal_room (decimal n) self.old self.new }
    {
        let count = digit_count(n);
        self.put_digits(10, count, n as u64);
    }

    #[tactic(auto, unfolding(rules::specs::Bytes::hexadecimal))]
    pub fn put_hexadecimal(&mut self, w: u64)
        requires { HasRoom hexadecimal_room self.old }
        ensures { Writes hexadecimal_room (hexadecimal w) self.old self.new }
    {
        self.put_digits(16, 16, w);
    }
}
