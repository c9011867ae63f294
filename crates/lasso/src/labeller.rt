// What truth on a lasso works with: what labels its positions, and what the rounds of a fixpoint move.
ghost use Rattle.std.specs.Prelude.{◌≡◌, ◌≤◌, ◌<◌, length, take};

// The formula's rows, the order in which a pass takes its subformulas, and the lasso: its letters and the length of the stem, behind which
// there is a cycle.
#[derive(Clone, Copy)]
pub struct Labeller<'a> {
    pub rows: &'a [u8; 144],
    pub keys: &'a [usize; 48],
    pub letters: &'a [u16],
    pub stem: usize,
    ghost cycle: { stem < length letters.now },
}

// The columns that the rounds of a fixpoint move, as a list in which each stands behind those that it needs at the same position, and the
// value from which they move: the greatest fixpoint's start with every position.
#[derive(Clone, Copy)]
pub struct Moving {
    pub list: [u8; 48],
    pub count: usize,
    pub greatest: bool,
    ghost counted: { count ≤ 48 },
}

impl Moving {
    // The numbers of these columns.
    pub fn numbers(&self) -> &[u8]
        ensures { result.now ≡ take self.now.count self.now.list }
    {
        &self.list[..self.count]
    }
}
