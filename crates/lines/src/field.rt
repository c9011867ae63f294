// The parts of a line, and what is written in them: numbers, bytes in hex, letters (document 01: the values of places) of four hex
// digits, and how much is lent. Of what is broken there is none.

ghost use Rattle.std.specs.Prelude.{◌<◌, IfSome};

// The part of this number, from 0, the parts standing between marks.
pub fn part(s: &[u8], mark: u8, number: usize) -> Option<&[u8]> {
    s.split(|b| *b == mark).nth(number)
}

// The same of the parts of a line, which stand between bars. One that is left out is empty.
pub fn field(line: &[u8], number: usize) -> &[u8] {
    part(line, b'|', number).unwrap_or(&[])
}

// Whether the field begins with this word.
pub fn begins(field: &[u8], word: &[u8]) -> bool {
    part(field, b' ', 0) == Some(word)
}

// Whether the field says how much is lent.
pub fn is_lent(field: &[u8]) -> bool {
    begins(field, b"lent")
}

// How much a field says is lent, or `otherwise` of another field.
pub fn lent<const N: usize>(field: &[u8], otherwise: [usize; N]) -> Option<[usize; N]> {
    if is_lent(field) {
        numbers(field, 1)
    } else {
        Some(otherwise)
    }
}

// The N numbers behind the first words of a field that has no more.
pub fn numbers<const N: usize>(field: &[u8], words: usize) -> Option<[usize; N]> {
    let mut rest = field.split(|b| *b == b' ').skip(words);
    let mut all = [0; N];
    for n in &mut all {
        *n = number(rest.next()?)?;
    }
    if rest.next().is_some() {
        return None;
    }
    Some(all)
}

// A number in decimal. From 2 ^ 32 on, which every operation refuses, it stays where it is.
pub fn number(s: &[u8]) -> Option<usize> {
    if s.is_empty() {
        return None;
    }
    let mut n = 0;
    for b in s {
        let d = char::from(*b).to_digit(10)?;
        if n < 4294967296 {
            n = n * 10 + d as usize;
        }
    }
    Some(n)
}

// The value of a digit in hex.
fn digit(b: u8) -> Option<u8>
    ensures { IfSome result (λ d. d < 16) }
{
    let d = char::from(b).to_digit(16)?;
    Some(d as u8)
}

// Bytes in hex; a dash stands for none.
pub fn bytes(out: &mut [u8], s: &[u8]) -> Option<usize> {
    if s == b"-".as_slice() {
        return Some(0);
    }
    if s.is_empty() {
        return None;
    }
    let n = s.len().div_ceil(2);
    if out.len() < n {
        return None;
    }
    for (b, digits) in out.iter_mut().zip(s.chunks(2)) {
        *b = byte(digits)?;
    }
    Some(n)
}

// The byte of two digits.
fn byte(s: &[u8]) -> Option<u8> {
    let [high, low] = s else {
        return None;
    };
    Some(digit(*high)? * 16 + digit(*low)?)
}

// Letters with a space between two, or none.
pub fn letters(out: &mut [u16], s: &[u8]) -> Option<usize> {
    if s.is_empty() {
        return Some(0);
    }
    let mut n = 0;
    for word in s.split(|b| *b == b' ') {
        *out.get_mut(n)? = letter(word)?;
        n += 1;
    }
    Some(n)
}

fn letter(s: &[u8]) -> Option<u16> {
    let [a, b, c, d] = s else {
        return None;
    };
    let high = byte(&[*a, *b])?;
    let low = byte(&[*c, *d])?;
    Some(u16::from_be_bytes([high, low]))
}
