// `sheet | DEALER | FACTORY | NUMBER`: looking a formula up by its number in an overlay, and in a base catalogue below it, both in hex. The
// outcome is which of the two has it, where its bytes begin there, and these bytes; or the refusal, of 30 with the catalogue that is
// damaged and the place of the fault.
use catalogue::{Found, Refusal};
use lines::area::start;
use lines::field::{bytes, field, number};
use lines::say;

// A broken line has none.
pub fn outcome(line: &[u8], overlay: &[u8]) -> Option<()> {
    let mut kept = io::large_buffer();
    let length = bytes(&mut kept, field(line, 2))?;
    let asked = u16::try_from(number(field(line, 3))?).ok()?;
    let base = start(&kept, length);
    told(
        catalogue::locate(overlay, base, asked),
        catalogue::lookup(overlay, base, asked),
    );
    Some(())
}

// The bytes are those of the part that is handed back. If it has another size than the location tells, which is 0 for a refusal, that is
// the outcome: no line expects it. What is told goes by the numbers that callers take a location apart with, so that these are tried too.
fn told(location: Result<Found, Refusal>, formula: &[u8]) {
    if formula.len() != catalogue::size_of(location) {
        say::put(b"PART OF");
        say::number(b' ', formula.len());
        return;
    }
    let code = catalogue::code_of(location);
    match code {
        0 => {
            say::put(b"FOUND");
            layer_name(location);
            say::number(b' ', catalogue::place_of(location));
            say::spelled(formula);
        }
        30 => {
            say::refused(code);
            layer_name(location);
            say::put(b" at");
            say::number(b' ', catalogue::place_of(location));
        }
        _ => say::refused(code),
    }
}

fn layer_name(location: Result<Found, Refusal>) {
    match catalogue::layer_of(location) {
        0 => say::put(b" dealer"),
        1 => say::put(b" factory"),
        _ => say::put(b" NEITHER"),
    }
}
