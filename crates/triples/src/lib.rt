// Sets of triples, joined and compared. A set is 144 bytes: byte 12 f + g has bit x for a trace from the f-th operand of next to the
// g-th whose priority is the x-th fixpoint, bit 7 for the priority none.
#![tactic(auto)]

ghost use Rattle.std.specs.Prelude.{◌≡◌, ◌↔◌, ℕ, ◌+◌, ◌*◌, ◌≤◌, ◌<◌, IsTrue, length, get_or};
ghost use Rattle.base.specs.Bits.{bit};
ghost use Rattle.profile_tables.specs.Triples.{smaller, same_triples, join, laps, rejecting};
ghost use Rattle.triples.specs.Inner.{bytes_from, triples_in, triples_at, Bits, above, one_way, by_way, RowWith, RowPut};
ghost use Rattle.triples.specs.Inner.{SameRow, comes_back, leads_back};

// The priorities with all smaller ones.
fn down(w: u8) -> u8
    ensures { Bits result (above (bit w)) }
{
    let a = w | (w >> 1);
    let b = a | (a >> 2);
    b | (b >> 4)
}

// The smaller ones of each pair of a priority of a and a priority of b.
pub fn minima(a: u8, b: u8) -> u8
    ensures { Bits result (smaller (bit a) (bit b)) }
{
    (a & down(b)) | (b & down(a))
}

// The row, with the smaller ones of x and each byte of row m of b: in all 12 columns, since a loop of fixed length is turned into a few
// steps over many bytes at once. Rows come and go by value: through a reference the compiler has to fear that writing the row changes b
// (docs/DECISIONS.md).
fn with_way(row: [u8; 12], x: u8, b: &[u8; 144], m: usize) -> [u8; 12]
    requires { m < 12 }
    ensures { RowWith row 12 (one_way x b.now m) result }
{
    let mut r = row;
    if x == 0 {
        return r;
    }
    for g in 0..12 {
        r[g] |= minima(x, b[m * 12 + g]);
    }
    r
}

// The row, with the row at a place of a joined with b.
fn joined_row(row: [u8; 12], a: &[u8], at: usize, b: &[u8; 144], n: usize) -> [u8; 12]
    requires { (n ≤ 12) × ((at ≤ 132) × (at + 12 ≤ length a.now)) }
    ensures { RowWith row 12 (by_way (bytes_from a.now at) b.now n) result }
{
    let mut r = row;
    for m in 0..n {
        // In two steps: of r = with_way(r, ..) the check has no proof, as it does not follow a call's result into an array that is in use.
        let more = with_way(r, a[at + m], b, m);
        r = more;
    }
    r
}

// The row becomes row f of t. A loop of fixed length: copy_from_slice was tried, and each row takes a nanosecond longer by it.
fn put_row(t: &mut [u8], f: usize, row: &[u8; 12])
    requires { (144 ≤ length t.old) × (f < 12) }
    ensures { RowPut t.old f 12 row.now t.new }
{
    for g in 0..12 {
        t[f * 12 + g] = row[g];
    }
}

// Traces end to end.
pub fn joined(a: &[u8; 144], b: &[u8; 144], n: usize) -> [u8; 144]
    requires { n ≤ 12 }
    ensures { triples_in n result ≡ join n (triples_in n a.now) (triples_in n b.now) }
{
    let mut t = [0u8; 144];
    for f in 0..n {
        let row = joined_row([0u8; 12], a, f * 12, b, n);
        put_row(&mut t, f, &row);
    }
    t
}

// The 144 bytes at a place.
pub fn copied(area: &[u8], at: usize) -> [u8; 144]
    requires { at + 144 ≤ length area.now }
    ensures { (i : ℕ) → i < 144 → get_or result i 0 ≡ get_or area.now (at + i) 0 }
{
    let mut t = [0u8; 144];
    t.copy_from_slice(&area[at..at + 144]);
    t
}

fn same_row(area: &[u8], at: usize, t: &[u8; 144], n: usize, f: usize) -> bool
    requires { (n ≤ 12) × ((f < n) × (at + 144 ≤ length area.now)) }
    ensures { IsTrue result ↔ SameRow area.now at t.now f n }
{
    let from = f * 12;
    area[at + from..at + from + n] == t[from..from + n]
}

// Whether the triples at a place are those of t.
pub fn same_triples(area: &[u8], at: usize, t: &[u8; 144], n: usize) -> bool
    requires { (n ≤ 12) × (at + 144 ≤ length area.now) }
    ensures { result ≡ same_triples (triples_at n area.now at) (triples_in n t.now) }
{
    (0..n).all(|f| same_row(area, at, t, n, f))
}

// Whether some operand leads back to itself with a priority of the mask.
fn leads_back(a: &[u8; 144], mask: u8, n: usize) -> bool
    requires { n ≤ 12 }
    ensures { result ≡ leads_back (bit mask) n (triples_in n a.now) }
{
    (0..n).any(|f| a[f * 12 + f] & mask != 0)
}

// Row f of a, by a loop of fixed length as in put_row.
fn row_of(a: &[u8; 144], f: usize) -> [u8; 12]
    requires { f < 12 }
    ensures { (g : ℕ) → g < 12 → get_or result g 0 ≡ get_or a.now (f * 12 + g) 0 }
{
    let mut row = [0u8; 12];
    for g in 0..12 {
        row[g] = a[f * 12 + g];
    }
    row
}

// Whether two rows are the same: without an early exit, for the same reason as in with_way. By == on the arrays, which was tried, a lap
// takes a nanosecond longer: it reads 16 bytes at once where fewer were just written.
fn same_bytes(x: &[u8; 12], y: &[u8; 12]) -> bool
    ensures { IsTrue result ↔ ((g : ℕ) → g < 12 → get_or x.now g 0 ≡ get_or y.now g 0) }
{
    let mut differ = 0u8;
    for g in 0..12 {
        differ |= x[g] ^ y[g];
    }
    differ == 0
}

// Whether operand f leads back to itself with a priority of the mask after any number of laps. It takes row f alone through the laps, as
// no other row is needed for it: a row costs a twelfth of the table, and most rejecting sets show it in the first row or two.
fn comes_back(a: &[u8; 144], mask: u8, n: usize, f: usize) -> bool
    requires { (n ≤ 12) × (f < n) }
    ensures { result ≡ comes_back (bit mask) (laps n (triples_in n a.now)) f }
{
    let mut row = row_of(a, f);
    for _ in 0..8 * (n * n) {
        let more = joined_row(row, &row, 0, a, n);
        if more[f] & mask != 0 {
            return true;
        }
        if same_bytes(&row, &more) {
            return false;
        }
        row = more;
    }
    row[f] & mask != 0
}

// Whether the triples at a place, joined any number of times, lead from some operand back to it with a priority of the mask. All operands
// are asked before the first lap, which costs little: a set that shows it there needs no laps.
pub fn is_rejecting(area: &[u8], at: usize, mask: u8, n: usize) -> bool
    requires { (n ≤ 12) × (at + 144 ≤ length area.now) }
    ensures { result ≡ rejecting (bit mask) n (triples_at n area.now at) }
{
    let a = copied(area, at);
    leads_back(&a, mask, n) || (0..n).any(|f| comes_back(&a, mask, n, f))
}
