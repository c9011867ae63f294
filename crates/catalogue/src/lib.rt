// Formulas kept by number in catalogues, an overlay before a base catalogue (MEANING 9; document 02: the dealer's sheet and the factory's).
// A catalogue is gone through once, record by record, to its end or its first fault: damage is told though the number be found before it.
#![tactic(auto)]

ghost use Rattle.std.specs.Prelude.{◌≡◌, ◌+◌, ◌≤◌, length};
ghost use Rattle.catalogue.specs.Records.{record_at, records, records_from};
ghost use Rattle.catalogue.specs.Location.{chosen, location};
ghost use Rattle.catalogue.specs.Contract.{code, layer_number, layer_told, place_told, size_told, of_layer, view, part, handed};
ghost use Rattle.catalogue.specs.Inner.{Small, scanned, undamaged};

// A formula's number, and where its bytes stand in the catalogue.
#[derive(Clone, Copy)]
pub struct Record {
    pub number: usize,
    pub start: usize,
    pub size: usize,
}

// One of the two catalogues.
#[derive(Clone, Copy)]
pub enum Layer {
    Overlay,
    Base,
}

// Where the formula of a number is: the place of its bytes in one of the catalogues.
#[derive(Clone, Copy)]
pub struct Found {
    pub layer: Layer,
    pub start: usize,
    pub size: usize,
}

// Why there is none: a fault of one of the catalogues, or neither has the number.
#[derive(Clone, Copy)]
pub enum Refusal {
    Damaged { layer: Layer, place: usize },
    Missing,
}

// The byte that opens a record.
const MARK: u8 = 0x20;

// The record at a place where one is due that may have the numbers from `least` on, or none at the end; or the place of the fault there.
// The number is looked at as soon as both its bytes are there: its fault comes before that of a record that is cut short.
pub fn next_record(catalogue: &[u8], at: usize, least: usize) -> Result<Option<Record>, usize>
    ensures is { result ≡ record_at catalogue.now at least }
    ensures small { Small result }
{
    let length = catalogue.len();
    if length <= at {
        return Ok(None);
    }
    if catalogue[at] != MARK {
        return Err(at);
    }
    if length - at < 3 {
        return Err(length);
    }
    let number = base::number_at(catalogue, at + 1, 2) as usize;
    if number < least {
        return Err(at + 1);
    }
    if length - at < 4 {
        return Err(length);
    }
    let start = at + 4;
    let size = usize::from(catalogue[at + 3]);
    if length - start < size {
        return Err(length);
    }
    Ok(Some(Record {
        number,
        start,
        size,
    }))
}

// The record of a number in a catalogue, if it has one; or the catalogue's first fault, though the number be found before it.
fn scan(catalogue: &[u8], number: usize) -> Result<Option<Record>, usize>
    ensures { result ≡ scanned number (records catalogue.now) }
{
    let mut at = 0;
    let mut least = 0;
    while let Some(r) = next_record(catalogue, at, least)? {
        if r.number == number {
            passed(catalogue, r.start + r.size, r.number + 1)?;
            return Ok(Some(r));
        }
        at = r.start + r.size;
        least = r.number + 1;
    }
    Ok(None)
}

// Goes through the records from a place on, which may have the numbers from `above` on, to the end of the catalogue or its first fault. No
// number is looked for any more: the loop is apart from that of `scan`, so that neither asks at each record what was found.
fn passed(catalogue: &[u8], mut at: usize, mut above: usize) -> Result<(), usize>
    ensures { result ≡ undamaged (records_from catalogue.now at above) }
{
    while let Some(r) = next_record(catalogue, at, above)? {
        at = r.start + r.size;
        above = r.number + 1;
    }
    Ok(())
}

// The overlay's record before that of the base catalogue.
fn chosen(over: Option<Record>, under: Option<Record>) -> Result<Found, Refusal>
    ensures { result ≡ chosen over under }
{
    match (over, under) {
        (Some(Record { start, size, .. }), _) => Ok(Found {
            layer: Layer::Overlay,
            start,
            size,
        }),
        (None, Some(Record { start, size, .. })) => Ok(Found {
            layer: Layer::Base,
            start,
            size,
        }),
        (None, None) => Err(Refusal::Missing),
    }
}

// Where the formula of a number is.
pub fn locate(overlay: &[u8], base: &[u8], number: u16) -> Result<Found, Refusal>
    ensures { result ≡ location overlay.now base.now number }
{
    let n = usize::from(number);
    let over = scan(overlay, n).map_err(|place| Refusal::Damaged {
        layer: Layer::Overlay,
        place,
    })?;
    let under = scan(base, n).map_err(|place| Refusal::Damaged {
        layer: Layer::Base,
        place,
    })?;
    chosen(over, under)
}

// So many bytes of a catalogue from a place on.
fn part<'a>(catalogue: &'a [u8], start: usize, size: usize) -> &'a [u8]
    requires { start + size ≤ length catalogue.now }
    ensures { view result ≡ part (view catalogue.entry) start size }
{
    &catalogue[start..start + size]
}

fn catalogue_of<'a>(overlay: &'a [u8], base: &'a [u8], layer: Layer) -> &'a [u8]
    ensures { result ≡ of_layer layer overlay.entry base.entry }
{
    match layer {
        Layer::Overlay => overlay,
        Layer::Base => base,
    }
}

// The bytes of the formula of a number, as a part of the catalogue that has them; an empty part where `locate` refuses.
pub fn lookup<'a>(overlay: &'a [u8], base: &'a [u8], number: u16) -> &'a [u8]
    ensures { view result ≡ handed
        (location overlay.now base.now number) (view overlay.entry) (view base.entry) }
{
    match locate(overlay, base, number) {
        Ok(f) => part(catalogue_of(overlay, base, f.layer), f.start, f.size),
        Err(_) => part(overlay, 0, 0),
    }
}

// The number of a refusal, or 0.
pub fn code_of(l: Result<Found, Refusal>) -> u8
    ensures { result ≡ code l }
{
    match l {
        Ok(_) => 0,
        Err(Refusal::Damaged { .. }) => 30,
        Err(Refusal::Missing) => 31,
    }
}

fn layer_number(layer: Layer) -> usize
    ensures { (result ≡ layer_number layer) × (result ≤ 1) }
{
    match layer {
        Layer::Overlay => 0,
        Layer::Base => 1,
    }
}

// Which catalogue it is, 0 for the overlay and 1 for the base catalogue.
pub fn layer_of(l: Result<Found, Refusal>) -> usize
    ensures { (result ≡ layer_told l) × (result ≤ 1) }
{
    match l {
        Ok(Found { layer, .. }) | Err(Refusal::Damaged { layer, .. }) => layer_number(layer),
        Err(Refusal::Missing) => 0,
    }
}

// Where the formula begins, or where the fault is.
pub fn place_of(l: Result<Found, Refusal>) -> usize
    ensures { result ≡ place_told l }
{
    match l {
        Ok(Found { start, .. }) => start,
        Err(Refusal::Damaged { place, .. }) => place,
        Err(Refusal::Missing) => 0,
    }
}

// How many bytes the part has.
pub fn size_of(l: Result<Found, Refusal>) -> usize
    ensures { result ≡ size_told l }
{
    match l {
        Ok(Found { size, .. }) => size,
        Err(_) => 0,
    }
}
