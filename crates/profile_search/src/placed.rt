// Where profiles are kept, with what is so of such a place in any area.

ghost use Rattle.std.specs.Prelude.{◌≤◌, ◌<◌};

// Where profiles are kept: from byte base on, at most capacity of them, over n operands of next.
#[derive(Clone, Copy)]
pub struct Store {
    pub base: usize,
    pub capacity: usize,
    pub n: usize,
    ghost next: { n ≤ 12 },
    ghost low: { base ≤ 8192 },
    ghost some: { 0 < capacity },
    ghost few: { capacity ≤ 4096 },
}
