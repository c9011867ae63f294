// The texts of verdicts and refusals (MEANING 6.2), put into a buffer. Each function writes behind what was written before.
#![tactic(auto)]

ghost use Rattle.std.specs.Prelude.{◌≡◌};
ghost use Rattle.text.specs.Text.{buffer, Wrote};
ghost use Rattle.text.specs.State.{state};
ghost use Rattle.formula.specs.Refusal.{code_of, place_of};
ghost use Rattle.verdict_text.specs.Texts.{met_text, not_text, verdict_text, lasso_text, program_text, refused_text, unread_text};
ghost use Rattle.verdict_text.specs.Texts.{worded_text, placed_text};

use construction::Refusal;
use decision::Verdict;
use text::Text;

// What the program prints, from the buffer's start on: the line of the verdict or of the refusal, then a line for each position of the
// witness. Answers the place behind it.
pub fn program_text(out: &mut [u8], answer: Result<Verdict, Refusal>, letters: &[u16]) -> usize
    ensures { Wrote (buffer out.old 0) (program_text answer letters.now) (buffer out.new result) }
{
    let mut text = Text::new(out);
    verdict_text(&mut text, answer);
    text.put(b'\n');
    lasso_text(&mut text, answer, letters, b"S ", b"L ", b"\n");
    text.at
}

fn verdict_text(out: &mut Text, answer: Result<Verdict, Refusal>)
    ensures same_buffer { out.new.bytes.ghost_name ≡ out.old.bytes.ghost_name }
    ensures wrote { Wrote (state out.old) (verdict_text answer) (state out.new) }
{
    match answer {
        Ok(
            Verdict::Satisfiable {
                stem,
                cycle,
                nodes,
                profiles,
            },
        ) => met_text(
            out,
            stem as u64,
            cycle as u64,
            nodes as u64,
            profiles as u64,
        ),
        Ok(Verdict::Unsatisfiable { nodes, profiles }) => {
            not_text(out, nodes as u64, profiles as u64)
        }
        Err(Refusal::No(question)) => refused(out, construction::question_code(question)),
        Err(Refusal::Unread(why)) => unread(out, why),
    }
}

pub fn refused(out: &mut Text, code: u8)
    ensures same_buffer { out.new.bytes.ghost_name ≡ out.old.bytes.ghost_name }
    ensures wrote { Wrote (state out.old) (refused_text code) (state out.new) }
{
    worded(out, b"REFUSED", u64::from(code));
}

// A refusal of reading has a place, and that of a binder where it names one.
pub fn unread(out: &mut Text, why: formula::Refusal)
    ensures same_buffer { out.new.bytes.ghost_name ≡ out.old.bytes.ghost_name }
    ensures wrote { Wrote (state out.old) (unread_text why) (state out.new) }
{
    placed(out, why);
    match why {
        formula::Refusal::AtByte { .. } => {}
        formula::Refusal::Unguarded { binder_at, .. } => worded(out, b" from", binder_at as u64),
    }
}

fn placed(out: &mut Text, why: formula::Refusal)
    ensures same_buffer { out.new.bytes.ghost_name ≡ out.old.bytes.ghost_name }
    ensures wrote { Wrote (state out.old) (placed_text (code_of why) (place_of why)) (state out.new) }
{
    refused(out, formula::code_of(why));
    worded(out, b" at", formula::place_of(why) as u64);
}

fn met_text(out: &mut Text, stem: u64, cycle: u64, nodes: u64, profiles: u64)
    ensures same_buffer { out.new.bytes.ghost_name ≡ out.old.bytes.ghost_name }
    ensures wrote { Wrote (state out.old) (met_text stem cycle nodes profiles) (state out.new) }
{
    worded(out, b"MET", stem);
    out.number(cycle);
    out.number(nodes);
    out.number(profiles);
}

fn not_text(out: &mut Text, nodes: u64, profiles: u64)
    ensures same_buffer { out.new.bytes.ghost_name ≡ out.old.bytes.ghost_name }
    ensures wrote { Wrote (state out.old) (not_text nodes profiles) (state out.new) }
{
    worded(out, b"NOT", nodes);
    out.number(profiles);
}

// A word, and a number behind it.
fn worded(out: &mut Text, word: &[u8], n: u64)
    ensures same_buffer { out.new.bytes.ghost_name ≡ out.old.bytes.ghost_name }
    ensures wrote { Wrote (state out.old) (worded_text word.now n) (state out.new) }
{
    out.put_all(word);
    out.number(n);
}

// The witness: each letter of the stem behind one text, each of the cycle behind another, and a third behind both.
fn lasso_text(
    out: &mut Text,
    answer: Result<Verdict, Refusal>,
    letters: &[u16],
    stem_front: &[u8],
    cycle_front: &[u8],
    back: &[u8],
)
    ensures same_buffer { out.new.bytes.ghost_name ≡ out.old.bytes.ghost_name }
    ensures wrote { Wrote (state out.old)
        (lasso_text answer letters.now stem_front.now cycle_front.now back.now)
        (state out.new) }
{
    let Ok(Verdict::Satisfiable { stem, cycle, .. }) = answer else {
        return;
    };
    out.letters(text::part(letters, 0, stem), stem_front, back);
    out.letters(text::part(letters, stem, cycle), cycle_front, back);
}
