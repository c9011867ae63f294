// The letters that there are, and what a transition requires of one.
#![tactic(auto)]

ghost use Rattle.std.specs.Prelude.{◌≡◌};
ghost use Rattle.base.specs.Lists.{all};
ghost use Rattle.letters.specs.Alphabet.{both_scales, in_alphabet};
ghost use Rattle.letters.specs.Requirements.{clash, letter_of};

// The scale flags: the signals of a heading in the previous revision's scale and of one in the current revision's. They are the two highest
// bits of a word.
const PREVIOUS_SCALE: usize = 14;

const CURRENT_SCALE: usize = 15;

// What a saturated set requires of a letter: in each word bit j is for signal j, to be present in it and to be absent.
#[derive(Clone, Copy)]
pub struct Requirement {
    pub present: u16,
    pub absent: u16,
}

// Whether a word is in the alphabet: of the two flags it has one.
#[tactic(auto, unfolding(crate::specs::Alphabet::in_alphabet))]
fn in_alphabet(word: u16) -> bool
    ensures { result ≡ in_alphabet word }
{
    let flags = word >> PREVIOUS_SCALE;
    (flags == 1) | (flags == 2)
}

// Whether all words of a list are. It asks about each and does not stop at one that is not: so several are looked at together.
pub fn all_in_alphabet(words: &[u16]) -> bool
    ensures { result ≡ all in_alphabet words.now }
{
    words
        .iter()
        .fold(true, |all, word| all & in_alphabet(*word))
}

// Whether a word has both flags.
fn both_scales(word: u16) -> bool
    ensures { result ≡ both_scales word }
{
    word >> PREVIOUS_SCALE == 3
}

// Whether no letter can be as required.
pub fn clashes(required: Requirement) -> bool
    ensures { result ≡ clash required }
{
    let apart = required.present & required.absent == 0;
    let scales = both_scales(required.present) | both_scales(required.absent);
    !apart | scales
}

// The letter that is taken where one can: what is to be present, and the flag of the current scale where that is due, else of the previous.
#[tactic(auto, unfolding(crate::specs::Requirements::letter_of))]
pub fn letter_of(required: Requirement) -> u16
    ensures { result ≡ letter_of required }
{
    let current = base::has(u64::from(required.present), CURRENT_SCALE);
    let not_previous = base::has(u64::from(required.absent), PREVIOUS_SCALE);
    let scale = if current | not_previous {
        CURRENT_SCALE
    } else {
        PREVIOUS_SCALE
    };
    required.present | (1u16 << scale)
}
