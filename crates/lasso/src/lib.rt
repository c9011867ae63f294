// The truth of a formula on a lasso: bit e of word i says that subformula e is true at position i.
#![tactic(auto)]

ghost use Rattle.std.specs.Prelude.{◌≡◌, false, cond, not, ◌&&◌, ◌++◌, ℕ, ◌+◌, ◌≤◌, ◌<◌, eqb, ltb, length, drop, replicate};
ghost use Rattle.base.specs.Bits.{bit};
ghost use Rattle.formula.specs.Table.{is_next};
ghost use Rattle.formula.specs.Rows.{operator_at, end_at};
ghost use Rattle.formula.specs.Access.{decoded, Fits};
ghost use Rattle.lasso.specs.Truth.{truth, written};
ghost use Rattle.lasso.specs.Refusal.{code_of};
ghost use Rattle.lasso.specs.declared.Refusal.TheVariants.{Unread};
ghost use Rattle.lasso.specs.Contract.{lasso, answer};
ghost use Rattle.lasso.specs.Lasso.{joined};
ghost use Rattle.lasso.specs.Inner.{FormulaAt, Successor, local, course, numbers, LabelReady, FixpointReady, RoundsReady, PassReady};
ghost use Rattle.lasso.specs.Inner.{SweptBy, outside_of, Closes, Open, BitsListed, BitsFilled, Few, Turned, PassMade, Begun};
ghost use Rattle.lasso.specs.Inner.{Evaluated, Rounded, ClosedLabelled, TruthFound, Judged};

mod labeller;

use formula::{Operator, Subformula, Table};
use labeller::{Labeller, Moving};

// The number of a position on a lasso (document 01: a place), kept apart from subformulas.
#[derive(Clone, Copy)]
pub struct Position(pub usize);

impl Position {
    // The next position on a lasso of n letters; behind the last one the first of the cycle.
    fn successor(self, n: usize, stem: usize) -> Position
        requires { (self.0 < n) × (stem < n) }
        ensures { Successor n stem self.0 result.0 }
    {
        if self.0 + 1 == n {
            Position(stem)
        } else {
            Position(self.0 + 1)
        }
    }
}

// Why no truth is told: a refusal of reading, or a question after it (MEANING 2.5) whose answer was no.
#[derive(Clone, Copy, PartialEq, Eq, Debug)]
pub enum Refusal {
    Unread(formula::Refusal),
    // 16: the stem does not end before the last position.
    Stem,
    // 17: there are more than 8192 positions.
    Positions,
    // 18: a position has no word lent for it.
    Words,
    // 19: a letter is not in the alphabet.
    Alphabet,
}

impl From<formula::Refusal> for Refusal {
    ghost from_gives = { λ why r. r ≡ Unread why };

    fn from(why: formula::Refusal) -> Refusal {
        Refusal::Unread(why)
    }
}

// The number of the question.
pub fn code_of(why: Refusal) -> u8
    ensures { result ≡ code_of why }
{
    match why {
        Refusal::Unread(why) => formula::code_of(why),
        Refusal::Stem => 16,
        Refusal::Positions => 17,
        Refusal::Words => 18,
        Refusal::Alphabet => 19,
    }
}

// What an operator says of a position, from the letter and the word there and the successor's word.
fn holds_at(op: Operator, letter: u16, here: u64, there: u64) -> bool
    requires { Fits 48 (decoded op) }
    ensures { result ≡ local (decoded op) letter here there }
{
    match op {
        Operator::Constant(on) => on,
        Operator::Signal { present, signal } => {
            base::has(u64::from(letter), usize::from(signal)) == present
        }
        Operator::Variable(binder) => base::has(here, binder.0),
        Operator::Pair {
            either,
            left,
            right,
        } => {
            let first = base::has(here, left.0);
            let second = base::has(here, right.0);
            if either {
                first | second
            } else {
                first & second
            }
        }
        Operator::Next(operand) => base::has(there, operand.0),
        Operator::Fixpoint { body, .. } => base::has(here, body.0),
    }
}

// Whether an operator is a variable of a fixpoint before s.
fn outside(op: Operator, s: Subformula) -> bool
    ensures { result ≡ outside_of s.0 (decoded op) }
{
    matches!(op, Operator::Variable(binder) if binder.0 < s.0)
}

// Whether no variable in s names a fixpoint around it.
fn closed(rows: &[u8; 144], s: Subformula) -> bool
    requires { FormulaAt rows.now s.0 }
    ensures { Closes rows.now s.0 result }
{
    let mut inside = s.0..formula::end(rows, s);
    inside.all(|k| !outside(formula::operator_at(rows, Subformula(k)), s))
}

// The subformulas of s that stand in no closed subformula inside it, as the bits of a word.
fn open_in(rows: &[u8; 144], s: Subformula) -> u64
    requires { FormulaAt rows.now s.0 }
    ensures { Open rows.now s.0 result }
{
    let end = formula::end(rows, s);
    let mut mask = base::power(s.0);
    let mut k = s.0 + 1;
    // No `for`, since k goes on behind a closed subformula, wherever that ends.
    while k < end {
        if closed(rows, Subformula(k)) {
            k = formula::end(rows, Subformula(k));
        } else {
            mask |= base::power(k);
            k += 1;
        }
    }
    mask
}

// Whether subformula k is a next that reaches past s.
fn spans(rows: &[u8; 144], k: Subformula, s: Subformula) -> bool
    requires { k.0 < 48 }
    ensures { result ≡ (is_next (operator_at rows.now k.0) && ltb s.0 (end_at rows.now k.0)) }
{
    formula::is_next(rows, k) && s.0 < formula::end(rows, k)
}

// How many nexts stand around s.
fn depth(rows: &[u8; 144], s: Subformula) -> usize
    requires { s.0 < 48 }
    ensures { result ≤ s.0 }
{
    (0..s.0).filter(|k| spans(rows, Subformula(*k), s)).count()
}

// The order in which a pass takes subformulas: fewer nexts around first, and then the later number. Since a next stands between a fixpoint
// and its variables, each then stands behind what it needs at the same position. A key is 64 times the nexts, and 63 less the number.
fn order(rows: &[u8; 144]) -> [usize; 48]
    requires { FormulaAt rows.now 0 }
{
    let end = formula::end(rows, Subformula(0));
    let mut keys = [0usize; 48];
    for k in 0..end {
        keys[k] = 64 * depth(rows, Subformula(k)) + (63 - k);
    }
    keys[..end].sort_unstable();
    keys
}

// The subformulas of a mask, in the order of the keys.
fn listed(keys: &[usize; 48], mask: u64, greatest: bool) -> Moving
    ensures kind { result.greatest ≡ greatest }
    ensures bits { BitsListed mask (numbers result) }
{
    let mut list = [0u8; 48];
    let mut count = 0usize;
    for key in keys {
        let k = 63 - *key % 64;
        if base::has(mask, k) {
            list[count] = k as u8;
            count += 1;
        }
    }
    Moving {
        list,
        count,
        greatest,
    }
}

// A word with the bits of a mask as told.
fn with_all(word: u64, mask: u64, on: bool) -> u64
    ensures { (k : ℕ) → bit result k ≡ cond (bit mask k) on (bit word k) }
{
    if on { word | mask } else { word & !mask }
}

// The first n words with the bits of a mask as told.
fn fill(words: &mut [u64], n: usize, mask: u64, on: bool)
    requires { n ≤ length words.old }
    ensures { BitsFilled n mask on words.old words.new }
{
    for word in words[..n].iter_mut() {
        *word = with_all(*word, mask, on);
    }
}

// The word with bit k moved away from the value that the rounds start from, where its operator says so.
fn moved(word: u64, k: usize, on: bool, greatest: bool) -> u64
    requires { k < 64 }
    ensures { (j : ℕ) → bit result j ≡ cond (eqb j k) (joined (not greatest) (bit word k) on) (bit word j) }
{
    match (greatest, on) {
        (true, false) => base::with(word, k, false),
        (false, true) => base::with(word, k, true),
        _ => word,
    }
}

// One position of a pass: each listed bit of the word there is moved where its operator says so, the bits before it already moved.
fn turned(
    rows: &[u8; 144],
    numbers: &[u8],
    greatest: bool,
    letter: u16,
    word: u64,
    there: u64,
) -> u64
    requires { Few rows.now numbers.now }
    ensures { Turned rows.now numbers.now letter there greatest word result }
{
    let mut here = word;
    for number in numbers {
        let k = usize::from(*number);
        let op = formula::operator_at(rows, Subformula(k));
        let on = holds_at(op, letter, here, there);
        here = moved(here, k, on, greatest);
    }
    here
}

impl Labeller<'_> {
    // Sets the bit of subformula s in each position's word to what its operator says there; false if no word changes.
    fn sweep(&self, words: &mut [u64], s: Subformula) -> bool
        requires { LabelReady self.now s.0 (length words.old) }
        ensures { SweptBy self.now.rows.now (course self.now) s.0 words.old words.new result }
    {
        let Labeller { letters, stem, .. } = *self;
        let op = formula::operator_at(self.rows, s);
        let mut changed = false;
        for (i, letter) in letters.iter().enumerate() {
            let next = Position(i).successor(letters.len(), stem);
            let here = words[i];
            let on = holds_at(op, *letter, here, words[next.0]);
            let word = base::with(here, s.0, on);
            words[i] = word;
            changed |= word != here;
        }
        changed
    }

    // Moves the listed columns on, from the last position to the first, wherever their operators say so of the words as they stand. A round
    // would move a position only by its successor's word before the round; this carries a change along the whole stem and round the cycle.
    // Unless `all` is asked for, it stops at a position that stays. True if the first position of the cycle may have changed. What the loop
    // looks at is read before it, once: behind each word that it writes it would be read again.
    fn pass(&self, words: &mut [u64], moving: &Moving, all: bool) -> bool
        requires { PassReady self.now (numbers moving.now) (length words.old) }
        ensures { PassMade self.now.rows.now (course self.now) (numbers moving.now) moving.now.greatest words.old words.new }
    {
        let Labeller {
            rows,
            letters,
            stem,
            ..
        } = *self;
        let numbers = moving.numbers();
        let greatest = moving.greatest;
        for i in (0..letters.len()).rev() {
            let next = Position(i).successor(letters.len(), stem);
            let here = words[i];
            let word = turned(rows, numbers, greatest, letters[i], here, words[next.0]);
            if all | (word != here) {
                words[i] = word;
            } else {
                return i < stem;
            }
        }
        true
    }

    // A pass, and more of them while the first position of the cycle changes: each bit of it can, once.
    fn passes(&self, words: &mut [u64], moving: &Moving)
        requires { PassReady self.now (numbers moving.now) (length words.old) }
        ensures { PassMade self.now.rows.now (course self.now) (numbers moving.now) moving.now.greatest words.old words.new }
    {
        self.pass(words, moving, true);
        for _ in 0..48 {
            if !self.pass(words, moving, false) {
                return;
            }
        }
    }

    // Makes the columns that the rounds of the fixpoint s move the set from which they start, and takes the first passes.
    fn begin(&self, words: &mut [u64], s: Subformula, greatest: bool) -> Moving
        requires { LabelReady self.now s.0 (length words.old) }
        ensures kind { result.greatest ≡ greatest }
        ensures begun { Begun self.now.rows.now (course self.now) result.greatest s.0 (numbers result) words.old words.new }
    {
        let mask = open_in(self.rows, s);
        let moving = listed(self.keys, mask, greatest);
        fill(words, self.letters.len(), mask, greatest);
        self.passes(words, &moving);
        moving
    }

    // Labels s and every subformula inside it, where closed ones are labelled already.
    #[cycle(labelling)]
    fn label(&self, words: &mut [u64], s: Subformula)
        requires { LabelReady self.now s.0 (length words.old) }
        ensures { Evaluated self.now.rows.now (course self.now) s.0 s.0 words.old words.new }
    {
        if !closed(self.rows, s) {
            self.label_open(words, s);
        }
    }

    // The same where only the closed subformulas inside s are labelled.
    #[cycle(labelling)]
    fn label_open(&self, words: &mut [u64], s: Subformula)
        requires { LabelReady self.now s.0 (length words.old) }
        ensures { Evaluated self.now.rows.now (course self.now) (s.0 + 1) s.0 words.old words.new }
    {
        let op = formula::operator_at(self.rows, s);
        match op {
            Operator::Fixpoint { greatest, .. } => {
                self.label_fixpoint(words, s, greatest);
            }
            Operator::Pair { left, right, .. } => {
                self.label(words, left);
                self.label(words, right);
                self.sweep(words, s);
            }
            Operator::Next(operand) => {
                self.label(words, operand);
                self.sweep(words, s);
            }
            _ => {
                self.sweep(words, s);
            }
        }
    }

    // The same of the fixpoint s: as many rounds as there are positions, and if its set moved to the last of them, its body once more.
    #[cycle(labelling)]
    fn label_fixpoint(&self, words: &mut [u64], s: Subformula, greatest: bool)
        requires { FixpointReady self.now greatest s.0 (length words.old) }
        ensures { Evaluated self.now.rows.now (course self.now) (s.0 + 1) s.0 words.old words.new }
    {
        let moving = self.begin(words, s, greatest);
        if self.rounds(words, s, &moving, self.letters.len()) {
            self.label(words, Subformula(s.0 + 1));
        }
    }

    // So many rounds of the fixpoint s: one half of them, and the other if the set still moves. True if it does to the end; false if a
    // round changed nothing, which leaves s and all inside it labelled.
    #[cycle(labelling)]
    fn rounds(&self, words: &mut [u64], s: Subformula, moving: &Moving, left: usize) -> bool
        requires { RoundsReady self.now moving.now s.0 (length words.old) }
        ensures { Rounded self.now.rows.now (course self.now) moving.now.greatest s.0 left words.old words.new result }
    {
        match left {
            0 => true,
            1 => self.round(words, s, moving),
            _ => {
                let half = left / 2;
                let other = left - half;
                self.rounds(words, s, moving, half) && self.rounds(words, s, moving, other)
            }
        }
    }

    // One round of the fixpoint s, and passes if it changed the set.
    #[cycle(labelling)]
    fn round(&self, words: &mut [u64], s: Subformula, moving: &Moving) -> bool
        requires { RoundsReady self.now moving.now s.0 (length words.old) }
        ensures { Rounded self.now.rows.now (course self.now) moving.now.greatest s.0 1 words.old words.new result }
    {
        self.label(words, Subformula(s.0 + 1));
        let changed = self.sweep(words, s);
        if changed {
            self.passes(words, moving);
        }
        changed
    }

    // Labels s if it is closed.
    fn close(&self, words: &mut [u64], s: Subformula)
        requires { LabelReady self.now s.0 (length words.old) }
        ensures { ClosedLabelled self.now.rows.now (course self.now) s.0 words.old words.new }
    {
        if closed(self.rows, s) {
            self.label_open(words, s);
        }
    }

    // Labels the whole formula, each closed subformula after those inside it, and tells its truth at position 0.
    fn whole(&self, words: &mut [u64]) -> bool
        requires { LabelReady self.now 0 (length words.old) }
        ensures { TruthFound self.now.rows.now (course self.now) result words.old words.new }
    {
        words[..self.letters.len()].fill(0);
        for k in (0..formula::end(self.rows, Subformula(0))).rev() {
            self.close(words, Subformula(k));
        }
        base::has(words[0], 0)
    }
}

// The questions after reading: 16, 17, 19 and 18.
fn judge(table: &Table, letters: &[u16], stem: usize, words: &mut [u64]) -> Result<bool, Refusal>
    requires { FormulaAt table.now.rows 0 }
    ensures { Judged table.now.rows (lasso letters.now stem) result words.old words.new }
{
    if letters.len() <= stem {
        return Err(Refusal::Stem);
    }
    if 8192 < letters.len() {
        return Err(Refusal::Positions);
    }
    if !letters::all_in_alphabet(letters) {
        return Err(Refusal::Alphabet);
    }
    if words.len() < letters.len() {
        return Err(Refusal::Words);
    }
    let keys = order(&table.rows);
    let labeller = Labeller {
        rows: &table.rows,
        keys: &keys,
        letters,
        stem,
    };
    Ok(labeller.whole(words))
}

// The truth of the formula that the bytes are, on the lasso of these letters whose stem is so long. Each position's word gets a bit for
// each subformula that is true there.
pub fn evaluate(s: &[u8], letters: &[u16], stem: usize, words: &mut [u64]) -> Result<bool, Refusal>
    ensures answered { result ≡ answer (truth s.now (lasso letters.now stem) (length words.old)) }
    ensures labelled { words.new ≡ written (truth s.now (lasso letters.now stem)
        (length words.old)) words.old }
{
    let table = formula::read(s)?;
    judge(&table, letters, stem, words)
}
