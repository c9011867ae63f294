// Text into a buffer. Each method writes from a place on, as far as there is room, and leaves the place behind what it wrote.
#![tactic(auto)]

ghost use Rattle.std.specs.Prelude.{◌≡◌, [], ◌∷◌, ◌<◌, take, drop};
ghost use Rattle.io.specs.Counts.{IsPrefixLen};
ghost use Rattle.text.specs.Text.{buffer, Wrote, Radix, each, letter_text, number_text, is_last};
ghost use Rattle.text.specs.Text.{glyph as Text·glyph, decimal as Text·decimal, hex as Text·hex, numeral as Text·numeral};
ghost use Rattle.text.specs.Text.{ended as Text·ended};
ghost use Rattle.text.specs.State.{state};

// A buffer that is lent, of any length, and the place behind what was written into it, which may lie beyond the end.
#[derive(Drop)]
pub struct Text<'a> {
    pub bytes: &'a mut [u8],
    pub at: usize,
}

impl<'a> Text<'a> {
    // From the buffer's start on.
    pub fn new(bytes: &'a mut [u8]) -> Text<'a>
        ensures same_buffer { result.bytes.ghost_name ≡ bytes.entry.ghost_name }
        ensures at_start { state result ≡ buffer bytes.old 0 }
    {
        Text { bytes, at: 0 }
    }

    // What stands in front of the place: all of the buffer, where that lies beyond the end.
    pub fn written(&self) -> &[u8]
        ensures { result.now ≡ take self.now.at self.now.bytes.now }
    {
        &self.bytes[..self.at.min(self.bytes.len())]
    }

    pub fn put(&mut self, b: u8)
        ensures same_buffer { self.new.bytes.ghost_name ≡ self.old.bytes.ghost_name }
        ensures wrote { Wrote (state self.old) (b ∷ []) (state self.new) }
    {
        let at = self.at;
        if at < self.bytes.len() {
            self.bytes[at] = b;
            self.at = at + 1;
        }
    }

    pub fn put_all(&mut self, text: &[u8])
        ensures same_buffer { self.new.bytes.ghost_name ≡ self.old.bytes.ghost_name }
        ensures wrote { Wrote (state self.old) text.now (state self.new) }
    {
        for b in text {
            self.put(*b);
        }
    }

    // The line's end. The place behind it is within the buffer: one that was beyond it becomes the start.
    pub fn ended(&mut self)
        ensures same_buffer { self.new.bytes.ghost_name ≡ self.old.bytes.ghost_name }
        ensures prefix_len { IsPrefixLen self.new.at self.new.bytes.now }
        ensures state_after { state self.new ≡ Text·ended (state self.old) }
    {
        self.put(b'\n');
        if self.bytes.len() < self.at {
            self.at = 0;
        }
    }

    pub fn decimal(&mut self, n: u64)
        ensures same_buffer { self.new.bytes.ghost_name ≡ self.old.bytes.ghost_name }
        ensures wrote { Wrote (state self.old) (Text·decimal n) (state self.new) }
    {
        self.numeral(n, 10, 1);
    }

    // A blank and a number.
    pub fn number(&mut self, n: u64)
        ensures same_buffer { self.new.bytes.ghost_name ≡ self.old.bytes.ghost_name }
        ensures wrote { Wrote (state self.old) (number_text n) (state self.new) }
    {
        self.put(b' ');
        self.decimal(n);
    }

    // With zeros in front up to the width.
    pub fn hex(&mut self, n: u64, width: usize)
        ensures same_buffer { self.new.bytes.ghost_name ≡ self.old.bytes.ghost_name }
        ensures wrote { Wrote (state self.old) (Text·hex width n) (state self.new) }
    {
        self.numeral(n, 16, width);
    }

    // The digits in front of the last one are those of the quotient.
    fn numeral(&mut self, n: u64, base: u64, width: usize)
        requires { Radix base }
        ensures same_buffer { self.new.bytes.ghost_name ≡ self.old.bytes.ghost_name }
        ensures wrote { Wrote (state self.old) (Text·numeral base width n) (state self.new) }
    {
        if !is_last(base, width, n) {
            self.numeral(n / base, base, width.saturating_sub(1));
        }
        self.put(glyph(n % base));
    }

    // Each letter in four hex digits, between the two texts.
    pub fn letters(&mut self, letters: &[u16], front: &[u8], back: &[u8])
        ensures same_buffer { self.new.bytes.ghost_name ≡ self.old.bytes.ghost_name }
        ensures wrote { Wrote (state self.old)
            (each (letter_text front.now back.now) letters.now)
            (state self.new) }
    {
        for x in letters {
            self.letter(*x, front, back);
        }
    }

    fn letter(&mut self, letter: u16, front: &[u8], back: &[u8])
        ensures same_buffer { self.new.bytes.ghost_name ≡ self.old.bytes.ghost_name }
        ensures wrote { Wrote (state self.old)
            (letter_text front.now back.now letter)
            (state self.new) }
    {
        self.put_all(front);
        self.hex(u64::from(letter), 4);
        self.put_all(back);
    }
}

fn is_last(base: u64, width: usize, n: u64) -> bool
    ensures { result ≡ is_last base width n }
{
    n < base && width <= 1
}

fn glyph(d: u64) -> u8
    requires { d < 16 }
    ensures { result ≡ Text·glyph d }
{
    if d < 10 { 48 + d as u8 } else { 87 + d as u8 }
}

// As many of the letters behind the first ones as there are, up to a count.
pub fn part(letters: &[u16], from: usize, count: usize) -> &[u16]
    ensures { result.now ≡ take count (drop from letters.now) }
{
    let rest = &letters[from.min(letters.len())..];
    &rest[..count.min(rest.len())]
}
