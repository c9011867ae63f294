// Shortest closed walks of a relation between vertices below 1,024, and how many steps each vertex is away from one on such a walk. The
// search goes backwards, from a vertex to those with a step to it, level by level.
#![tactic(auto)]

ghost use Rattle.std.specs.Prelude.{◌≡◌, ℕ, ◌+◌, ◌*◌, ◌/◌, ◌≤◌, ◌<◌, T};
ghost use Rattle.relation.specs.Relation.{linked};
ghost use Rattle.distances.specs.Walks.{Steps, Answered};
ghost use Rattle.distances.specs.Inner.{has_vertex, in_word, Joined, Expanded, Parted, ShortestOf, Best};

use relation::BLOCK_WORDS;

// A closed walk: a vertex on it, and how many steps it has.
#[derive(Clone, Copy)]
pub struct Cycle {
    pub vertex: usize,
    pub length: usize,
}

// What stands where no distance is noted. A number and no Option: 1,024 of these would take twice the room on the stack, which is fixed
// (docs/DECISIONS.md).
pub const UNREACHED: u16 = 1024;

// A set of vertices: vertex x is bit x % 64 of word x / 64.
type VertexSet = [u64; 16];

// A number for each vertex.
type Noted = [u16; 1024];

// A relation with the count of its vertices and of the blocks that they lie in. Past these blocks it leads from nowhere.
#[derive(Clone, Copy)]
struct Graph<'a> {
    relation: &'a [u64],
    count: usize,
    blocks: usize,
    ghost steps: { Steps relation.now count },
    ghost all_blocks: { blocks ≡ (count + 63) / 64 },
}

impl<'a> Graph<'a> {
    // Puts the vertices that have a step to one vertex into a set. A vertex has one word in each block.
    fn with_row(&self, row: usize, set: &mut VertexSet)
        requires { row < 1024 }
        ensures { Joined (linked self.now.relation.now row) set.old set.new }
    {
        for i in 0..self.blocks {
            set[i] |= self.relation[BLOCK_WORDS * i + row];
        }
    }

    // Notes how far the vertices in word `at` of a level are, and puts those that have a step to one of them into a set.
    fn expand_word(&self, at: usize, level: u64, far: u16, steps: &mut Noted, set: &mut VertexSet)
        requires { at < 16 }
        ensures { Expanded self.now.relation.now (in_word at level) far steps.old set.old steps.new set.new }
    {
        let mut left = level;
        while 0 < left {
            let e = base::lowest(left);
            left = base::without(left, e);
            let vertex = 64 * at + e;
            steps[vertex] = far;
            self.with_row(vertex, set);
        }
    }

    // The same for all vertices of a level.
    fn expand(&self, level: &VertexSet, far: u16, steps: &mut Noted, set: &mut VertexSet)
        requires { (x : ℕ) → T (has_vertex level.now x) → x < 64 * self.now.blocks }
        ensures { Expanded self.now.relation.now (has_vertex level.now) far steps.old set.old steps.new set.new }
    {
        for at in 0..self.blocks {
            self.expand_word(at, level[at], far, steps, set);
        }
    }

    // How many steps the shortest closed walk of a vertex has, if they are below a bound. Then `steps` has the distances to the vertex that
    // are smaller.
    fn distances(&self, to: usize, bound: usize, steps: &mut Noted) -> Option<usize>
        requires { (to < self.now.count) × (bound ≤ 1025) }
        ensures { ShortestOf self.now.relation.now to bound steps.new result }
    {
        steps.fill(UNREACHED);
        let mut level = [0u64; 16];
        level[to / 64] = base::power(to % 64);
        let mut seen = level;
        for far in 1..bound {
            let mut next = [0u64; 16];
            self.expand(&level, (far - 1) as u16, steps, &mut next);
            if base::has(next[to / 64], to % 64) {
                return Some(far);
            }
            if !part(self.blocks, &next, &mut level, &mut seen) {
                return None;
            }
        }
        None
    }

    // The shortest closed walk of all vertices, at the first vertex that has one so short. A search needs to find only what is shorter than
    // the best before it, so it is cut off there; before there is one, it is cut off behind the number of vertices.
    fn first_shortest(&self, steps: &mut Noted) -> Option<Cycle>
        ensures { Best self.now.relation.now self.now.count self.now.count result }
    {
        let mut best: Option<Cycle> = None;
        for vertex in 0..self.count {
            let bound = match best {
                Some(cycle) => cycle.length,
                None => self.count + 1,
            };
            if let Some(length) = self.distances(vertex, bound, steps) {
                best = Some(Cycle { vertex, length });
            }
        }
        best
    }
}

// The next level is what a set has that was not seen. It is seen now. Whether there is any: the words are gathered, without a test in each
// turn.
fn part(words: usize, set: &VertexSet, level: &mut VertexSet, seen: &mut VertexSet) -> bool
    requires { words ≤ 16 }
    ensures { Parted words set.now level.old seen.old level.new seen.new result }
{
    let mut any = 0;
    for i in 0..words {
        let old = seen[i];
        let both = old | set[i];
        let fresh = both ^ old;
        level[i] = fresh;
        seen[i] = both;
        any |= fresh;
    }
    0 < any
}

// The shortest closed walk, with the distances to its vertex that are below its length. They are noted by one more search: the searches
// from later vertices have overwritten them.
pub fn shortest(relation: &[u64], count: usize, steps: &mut [u16; 1024]) -> Option<Cycle>
    requires { Steps relation.now count }
    ensures { Answered relation.now count steps.new result }
{
    let graph = Graph {
        relation,
        count,
        blocks: (count + 63) / 64,
    };
    let best = graph.first_shortest(steps)?;
    graph.distances(best.vertex, best.length + 1, steps);
    Some(best)
}
