// `edit | OLD | ENTRY | NEW`: the formula OLD with the formula NEW in place of its subformula ENTRY. The outcome is the spliced bytes, with
// the stored length of each of their subformulas behind them; or the refusal, of 1 to 9 with its places and whose bytes these are in. With
// `| table` behind it the outcome is followed by the table, how many subformulas it has and its rows in hex, and by how many of the bytes
// behind the spliced ones are zero, from the first on, and how many there are.
use formula::{Subformula, Table};
use lines::field::{bytes, field, number};
use lines::{area, say};
use substitution::{Refusal, Source, Substitution};

// A broken line has none.
pub fn outcome(line: &[u8], old: &[u8]) -> Option<()> {
    let mut kept = io::large_buffer();
    let e = number(field(line, 2))?;
    let length = bytes(&mut kept, field(line, 3))?;
    let new = area::start(&kept, length);
    let shown = field(line, 4) == b"table".as_slice();
    noted(substitution::substitute(old, e, new), old, shown);
    Some(())
}

// What stands beside the answer is shown unasked where it is not as it should be: no line expects it.
fn noted(edit: Substitution, old: &[u8], shown: bool) {
    let Substitution {
        answer,
        table,
        bytes,
    } = edit;
    let count = answer.unwrap_or(0);
    let spliced = area::start(&bytes, count);
    let rest = area::rest(&bytes, count);
    told(answer, table, spliced);
    if shown || !is_due(table, spliced, old, rest) {
        note_table(table);
        area::note_rest(rest);
    }
}

fn told(answer: Result<usize, Refusal>, table: Table, spliced: &[u8]) {
    numbered(substitution::code_of(answer));
    match answer {
        Ok(_) => {
            say::spelled(spliced);
            stored_lengths(table);
        }
        Err(Refusal::Unread { source, why }) => {
            say::places(why);
            source_name(source);
        }
        Err(Refusal::Missing) => {}
    }
}

fn numbered(code: u8) {
    match code {
        0 => say::put(b"EDITED"),
        _ => say::refused(code),
    }
}

fn source_name(source: Source) {
    match source {
        Source::Old => say::put(b" of old"),
        Source::New => say::put(b" of new"),
        Source::Spliced => say::put(b" of spliced"),
    }
}

fn stored_lengths(table: Table) {
    say::put(b" lengths");
    for e in 0..table.count.min(48) {
        say::number(b' ', formula::end(&table.rows, Subformula(e)) - e);
    }
}

fn note_table(table: Table) {
    say::put(b" | table:");
    say::number(b' ', table.count);
    say::spelled(&table.rows);
}

// Whether the table is that of the spliced bytes, or of the old ones where nothing is spliced, and all bytes behind are zero.
fn is_due(table: Table, spliced: &[u8], old: &[u8], rest: &[u8]) -> bool {
    if area::zeros(rest) < rest.len() {
        return false;
    }
    if spliced.is_empty() {
        is_read(table, old)
    } else {
        is_read(table, spliced)
    }
}

// Whether the table is the one that reading these bytes gives, an empty one if it refuses them.
fn is_read(table: Table, s: &[u8]) -> bool {
    match formula::read(s) {
        Ok(due) => table.count == due.count && table.rows == due.rows,
        Err(_) => table.count == 0 && table.rows == [0; 144],
    }
}
