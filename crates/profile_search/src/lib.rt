// Profiles in the lent area, found breadth first: those of one transition, and then each profile followed by each of these.
#![tactic(auto)]

ghost use Rattle.std.specs.Prelude.{◌≡◌, [], ◌∷◌, ℕ, ◌+◌, ◌*◌, ◌≤◌, ◌<◌, length, get_or};
ghost use Rattle.base.specs.Spread.{seen};
ghost use Rattle.profile_tables.specs.Runs.{same_profile, follow, longer, layer, singles_of, singles};
ghost use Rattle.tableau.specs.Operators.{operators};
ghost use Rattle.triples.specs.Inner.{triples_in};
ghost use Rattle.profile_search.specs.Stored.{two, profile_of, found_of, record_start, record_of, stored, Rising, FirstParted};
ghost use Rattle.profile_search.specs.Stored.{HeaderFits, HeaderOf, StoreFits};
ghost use Rattle.profile_search.specs.Stored.{BytesBetween, bits_of, row_of, mixed, mixed_row, bucket_of, bucket_at};
ghost use Rattle.profile_search.specs.Stored.{link_of, Latest, Chained, StoreChained};
ghost use Rattle.profile_search.specs.Stored.{GrownTo, AddedTo, TwoWithin};
ghost use Rattle.profile_search.specs.Singles.{node_in, nodes_in, singles_by, SearchInput, NodeReady, ChoiceReady};

mod placed;

pub use placed::Store;
use tableau::{Core, NodeNumber};
use traces::RankedTableau;

// A profile's nodes, the number of the profile that it goes on from, if it does, and its last letter.
#[derive(Clone, Copy)]
pub struct Header {
    pub first: NodeNumber,
    pub last: NodeNumber,
    pub parent: Option<usize>,
    pub letter: u16,
}

// Where a transition starts: a node, by its number and its set, and the choice word.
#[derive(Clone, Copy)]
struct Source {
    number: NodeNumber,
    set: u64,
    word: u64,
}

// Where record p begins.
pub fn record_start(store: Store, p: usize) -> usize
    requires { p ≤ 4096 }
    ensures { result ≡ record_start store p }
{
    store.base + 192 * p
}

// The number at an offset of record p.
fn get2(area: &[u8], store: Store, p: usize, offset: usize) -> usize
    requires { TwoWithin store p offset (length area.now) }
    ensures { (result ≡ two area.now (record_start store p + offset)) × (result < 65536) }
{
    base::number_at(area, record_start(store, p) + offset, 2) as usize
}

// The header of record p.
pub fn header_of(area: &[u8], store: Store, p: usize) -> Header
    requires store_fits { StoreFits store (length area.now) }
    requires p_lt_capacity { p < store.capacity }
    ensures { HeaderOf (record_of store area.now p) result }
{
    Header {
        first: NodeNumber(get2(area, store, p, 144)),
        last: NodeNumber(get2(area, store, p, 146)),
        parent: linked(area, store, p, 148),
        letter: get2(area, store, p, 150) as u16,
    }
}

// Puts a number at an offset of record p.
fn put2(area: &mut [u8], store: Store, p: usize, offset: usize, x: usize)
    requires two_within { TwoWithin store p offset (length area.old) }
    requires x_bound { x < 65536 }
    ensures offset_after { two area.new (record_start store p + offset) ≡ x }
    ensures bytes_between { BytesBetween (record_start store p + offset) (record_start store p + offset + 2) area.old
        area.new }
{
    base::put_number(area, record_start(store, p) + offset, 2, x as u64);
}

// The triples of a record. A loop of fixed length: copy_from_slice would make the archive for C need memmove.
fn store_triples(area: &mut [u8], at: usize, t: &[u8; 144])
    requires { at + 144 ≤ length area.old }
    ensures by_index { (i : ℕ) → i < 144 → get_or area.new (at + i) 0 ≡ get_or t.now i 0 }
    ensures bytes_between { BytesBetween at (at + 144) area.old area.new }
{
    for i in 0..144 {
        area[at + i] = t[i];
    }
}

// Writes record p.
fn write(area: &mut [u8], store: Store, p: usize, header: Header, t: &[u8; 144])
    requires store_fits { StoreFits store (length area.old) }
    requires p_lt_capacity { (p < store.capacity) × HeaderFits header }
    ensures p_after { record_of store area.new p ≡ found_of header (triples_in store.n t.now) }
    ensures bytes_between { BytesBetween (record_start store p) (record_start store p + 152) area.old area.new }
{
    store_triples(area, record_start(store, p), t);
    put2(area, store, p, 144, header.first.0);
    put2(area, store, p, 146, header.last.0);
    put2(area, store, p, 148, link(header.parent));
    put2(area, store, p, 150, usize::from(header.letter));
}

// Whether record p is this profile.
fn same_profile(area: &[u8], store: Store, p: usize, header: Header, t: &[u8; 144]) -> bool
    requires store_fits { StoreFits store (length area.now) }
    requires p_lt_capacity { p < store.capacity }
    ensures { result ≡ same_profile (record_of store area.now p).at
        (profile_of header (triples_in store.n t.now)) }
{
    let e = header_of(area, store, p);
    if e.first.0 != header.first.0 {
        return false;
    }
    if e.last.0 != header.last.0 {
        return false;
    }
    triples::same_triples(area, record_start(store, p), t, store.n)
}

// One byte more into a row's sum. A row has at most 12, whose sum is below 2^42, so it is taken modulo 2^32 once a row.
fn mix(sum: usize, x: u8) -> usize
    requires { sum < 4398046511104 }
    ensures { result ≡ mixed sum (bits_of x) }
{
    sum * 8 + usize::from(x)
}

// The bytes of row f into a hash, modulo 2^32: the factor, a prime near 2^32 over the golden ratio, spreads them and what came before. One
// product for a row, since each waits for the one before it.
fn mix_row(h: usize, t: &[u8; 144], n: usize, f: usize) -> usize
    requires { (n ≤ 12) × ((f < n) × (h < 4294967296)) }
    ensures { (result < 4294967296) × (result ≡ mixed_row h (row_of t.now n f)) }
{
    let mut sum = 0;
    for g in 0..n {
        sum = mix(sum, t[f * 12 + g]);
    }
    (h + sum) % 0x1_0000_0000 * 0x9e3779b1 % 0x1_0000_0000
}

// The bucket of a profile: a hash of its nodes and its triples.
fn bucket(store: Store, header: Header, t: &[u8; 144]) -> usize
    requires { HeaderFits header }
    ensures { (result ≡ bucket_of store (profile_of header (triples_in store.n t.now))) × (result < store.capacity) }
{
    let n = store.n;
    let mut h = header.first.0 + header.last.0 * 65536;
    for f in 0..n {
        h = mix_row(h, t, n, f);
    }
    h / 65536 % store.capacity
}

// The record that an offset of record p leads to, if it leads to one.
fn linked(area: &[u8], store: Store, p: usize, offset: usize) -> Option<usize>
    requires { TwoWithin store p offset (length area.now) }
    ensures { (link_of result ≡ two area.now (record_start store p + offset)) × (link_of result < 65536) }
{
    get2(area, store, p, offset).checked_sub(1)
}

// The number by which a record leads to that one, if it leads to one.
fn link(to: Option<usize>) -> usize
    requires { link_of to < 65536 }
    ensures { result ≡ link_of to }
{
    to.map_or(0, |p| p + 1)
}

// The last record in bucket k, if there is one. The area was not cleared: what stands there counts only if it leads to a record of this
// bucket.
fn head(area: &[u8], store: Store, count: usize, k: usize) -> Option<usize>
    requires store_chained { StoreChained store area.now count }
    requires k_lt_capacity { k < store.capacity }
    ensures { Latest (bucket_at store area.now) k count (link_of result) }
{
    let p = linked(area, store, k, 156)?;
    if count <= p || get2(area, store, p, 152) != k {
        return None;
    }
    Some(p)
}

// Whether one of the records is this profile, whose bucket is k.
fn known(area: &[u8], store: Store, count: usize, k: usize, header: Header, t: &[u8; 144]) -> bool
    requires store_chained { StoreChained store area.now count }
    requires k_lt_capacity { k < store.capacity }
    requires k_value { k ≡ bucket_of store (profile_of header (triples_in store.n t.now)) }
    ensures { result ≡ seen same_profile (profile_of header (triples_in store.n t.now))
        (stored store area.now count) }
{
    let mut at = head(area, store, count, k);
    while let Some(p) = at {
        if same_profile(area, store, p, header, t) {
            return true;
        }
        at = linked(area, store, p, 154);
    }
    false
}

// Puts record count, which is written and whose bucket is k, at the head of this bucket's chain.
fn chain(area: &mut [u8], store: Store, count: usize, k: usize)
    requires store_chained { StoreChained store area.old count }
    requires count_lt_capacity { (count < store.capacity) × (k < store.capacity) }
    requires k_value { k ≡ bucket_of store (record_of store area.old count).at }
    ensures chained { Chained store area.new (count + 1) }
    ensures by_index { (p : ℕ) → record_of store area.new p ≡ record_of store area.old p }
    ensures bytes_between { BytesBetween store.base (record_start store store.capacity) area.old area.new }
{
    let before = link(head(area, store, count, k));
    put2(area, store, count, 152, k);
    put2(area, store, count, 154, before);
    put2(area, store, k, 156, count + 1);
}

// How many profiles there are once this one is, or `None` where there is no room for it.
fn add(area: &mut [u8], store: Store, count: usize, header: Header, t: &[u8; 144]) -> Option<usize>
    requires store_chained { StoreChained store area.old count }
    requires header_fits { HeaderFits header }
    ensures { AddedTo store count area.old result area.new
        (found_of header (triples_in store.n t.now) ∷ []) }
{
    let k = bucket(store, header, t);
    if known(area, store, count, k, header, t) {
        return Some(count);
    }
    if store.capacity <= count {
        return None;
    }
    write(area, store, count, header, t);
    chain(area, store, count, k);
    Some(count + 1)
}

// Adds the profile of the transition that starts there, if there is one.
fn single(
    ranked: &RankedTableau,
    store: Store,
    area: &mut [u8],
    nodes: usize,
    unmet: &[u64; 24],
    core: Core,
    from: Source,
    count: usize,
) -> Option<usize>
    requires node_ready { NodeReady ranked.now.tableau.now.table.rows ranked.now.tableau.now.table.count store nodes area.old
        from.number.0 count }
    requires choice_ready { ChoiceReady ranked.now.tableau.now.table.rows ranked.now.tableau.now.table.count area.old unmet.now core from }
    ensures { AddedTo store count area.old result area.new
        (singles_by (operators ranked.now.tableau.now) (nodes_in ranked.now.tableau.now.table.count area.old nodes) from.number.0
        (node_in ranked.now.tableau.now.table.count area.old from.number.0) from.word) }
{
    let Some(target) = ranked.tableau.by_word(unmet, core, from.word) else {
        return Some(count);
    };
    let Some(last) = tableau::find(area, nodes, target.to) else {
        return Some(count);
    };
    let choice = ranked.tableau.choice_of(from.word);
    let t = ranked.triples_of(choice, from.set);
    let header = Header {
        first: from.number,
        last,
        parent: None,
        letter: letters::letter_of(target.required),
    };
    add(area, store, count, header, &t)
}

// Adds the profiles of the transitions of a node, by rising choice word.
fn singles_of(
    ranked: &RankedTableau,
    store: Store,
    area: &mut [u8],
    nodes: usize,
    number: NodeNumber,
    count: usize,
) -> Option<usize>
    requires { NodeReady ranked.now.tableau.now.table.rows ranked.now.tableau.now.table.count store nodes area.old number.0 count }
    ensures { AddedTo store count area.old result area.new
        (singles_of (operators ranked.now.tableau.now) (nodes_in ranked.now.tableau.now.table.count area.old nodes) number.0
        (node_in ranked.now.tableau.now.table.count area.old number.0)) }
{
    let set = tableau::node(area, number);
    let core = ranked.tableau.core_of(set);
    let unmet = ranked.tableau.unmet(set);
    let end = base::power(ranked.tableau.ors());
    let mut all = count;
    for word in 0..end {
        let from = Source { number, set, word };
        all = single(ranked, store, area, nodes, &unmet, core, from, all)?;
    }
    Some(all)
}

// The profiles of one transition, of all nodes but the root in order; how many, or `None` where there is no room for them.
pub fn singles(ranked: &RankedTableau, store: Store, area: &mut [u8], nodes: usize) -> Option<usize>
    requires { SearchInput ranked.now.tableau.now.table.rows ranked.now.tableau.now.table.count store nodes area.old }
    ensures { GrownTo store 0 area.old result area.new
        (singles (operators ranked.now.tableau.now) (nodes_in ranked.now.tableau.now.table.count area.old nodes)) }
{
    let mut all = 0;
    for i in 1..nodes {
        all = singles_of(ranked, store, area, nodes, NodeNumber(i), all)?;
    }
    Some(all)
}

// Adds profile p followed by profile q of one transition.
fn longer(area: &mut [u8], store: Store, p: usize, q: usize, count: usize) -> Option<usize>
    requires store_chained { StoreChained store area.old count }
    requires p_lt_count { (p < count) × (q < count) }
    ensures { AddedTo store count area.old result area.new
        (follow store.n p (record_of store area.old p) (record_of store area.old q)) }
{
    let a = header_of(area, store, p);
    let b = header_of(area, store, q);
    if a.last.0 != b.first.0 {
        return Some(count);
    }
    let x = triples::copied(area, record_start(store, p));
    let y = triples::copied(area, record_start(store, q));
    let t = triples::joined(&x, &y, store.n);
    let header = Header {
        first: a.first,
        last: b.last,
        parent: Some(p),
        letter: b.letter,
    };
    add(area, store, count, header, &t)
}

// How many of the first `singles` records, which stand by rising first node, begin before a node.
fn begin_before(area: &[u8], store: Store, singles: usize, node: NodeNumber) -> usize
    requires store_fits { StoreFits store (length area.now) }
    requires singles_le_capacity { singles ≤ store.capacity }
    requires rising { Rising store area.now singles }
    ensures { FirstParted store area.now singles node.0 result }
{
    let mut low = 0;
    let mut high = singles;
    while low < high {
        let middle = (low + high) / 2;
        let e = header_of(area, store, middle);
        if e.first.0 < node.0 {
            low = middle + 1;
        } else {
            high = middle;
        }
    }
    low
}

// Adds profile p followed by each of the `singles` profiles of one transition: those that begin where it ends stand together.
fn extend(area: &mut [u8], store: Store, p: usize, singles: usize, count: usize) -> Option<usize>
    requires store_chained { StoreChained store area.old count }
    requires rising { Rising store area.old singles }
    requires p_lt_count { (p < count) × (singles ≤ count) }
    ensures { AddedTo store count area.old result area.new
        (longer store.n (stored store area.old singles) p (record_of store area.old p)) }
{
    let e = header_of(area, store, p);
    let end = begin_before(area, store, singles, NodeNumber(e.last.0 + 1));
    let first = begin_before(area, store, singles, e.last);
    let mut all = count;
    for q in first..end {
        all = longer(area, store, p, q, all)?;
    }
    Some(all)
}

// Adds what the profiles from number `from` up to number `to` lead to: where these are all of runs of one length, the profiles of runs that
// are longer by one. How many there are then, or `None` where there is no room for them.
pub fn layer(area: &mut [u8], store: Store, from: usize, to: usize, singles: usize) -> Option<usize>
    requires store_chained { StoreChained store area.old to }
    requires rising { Rising store area.old singles }
    requires from_le_to { (from ≤ to) × (singles ≤ to) }
    ensures { GrownTo store to area.old result area.new
        (layer store.n (stored store area.old singles) from to (stored store area.old to)) }
{
    let mut all = to;
    for p in from..to {
        all = extend(area, store, p, singles, all)?;
    }
    Some(all)
}
