// The letters of a witness, written along what the searches note: of each node, and of each profile, what it goes on from and by which
// letter. A chain of parents is followed twice: once to count its letters, and once to write them, the last first.
#![tactic(auto)]

ghost use Rattle.std.specs.Prelude.{◌≡◌, ℕ, ◌+◌, ◌*◌, ◌<◌, ◌≤◌, length};
ghost use Rattle.std.proofs.Common.{rules};
ghost use Rattle.base.specs.Spread.{Numbered};
ghost use Rattle.profile_search.specs.Stored.{record_of, link_of};
ghost use Rattle.witness.specs.Letters.{labels, plain, node_link, chain_item, stem_letters, written, NotedBy, ProfileNoted, ChainNoted};
ghost use Rattle.witness.specs.Letters.{StemNoted, LettersFit, WitnessReady, WitnessWritten};

use lasso::Position;
use profile_search::Store;
use tableau::NodeNumber;

// The root's number.
const ROOT: NodeNumber = NodeNumber(0);

// How many letters the stem and the cycle have.
#[derive(Clone, Copy)]
pub struct Lengths {
    pub stem: usize,
    pub cycle: usize,
}

// What is noted of an item of a chain: where its parent is, and the letter between.
#[derive(Clone, Copy)]
struct Note<A> {
    parent: A,
    letter: u16,
}

// Notes along which chains of parents are followed: what is noted where a chain stands, or none at its end. Where it stands is told by a
// value of the notes' own; `link` is 1 + the number of the item there, and 0 at the end.
trait Notes {
    type At: Copy;

    ghost link: { Self → Self.At → ℕ };

    ghost item: { Self → ℕ → Numbered ℕ ℕ };

    ghost noted: { Self → ℕ → Type 0 };

    fn note(&self, at: Self::At) -> Option<Note<Self::At>>
        requires { noted self.now (link self.now at) }
        ensures { NotedBy (link self.now) (item self.now) (link self.now at) result };

    ghost noted_below: { (s : Self) (j k : ℕ) → j ≤ k → noted s k → noted s j };
}

// The notes of the nodes: two numbers each. The root is no item, and ends the chains: its notes are not read, and item i is node i + 1.
// A chain stands at a node.
#[derive(Clone, Copy)]
struct NodeNotes<'a> {
    origins: &'a [u16],
    root: NodeNumber,
}

impl Notes for NodeNotes<'_> {
    type At = NodeNumber;

    ghost link = { λ s at. node_link s.root.0 at.0 };

    ghost item = { λ s. chain_item s.root.0 s.origins.now };

    ghost noted = { λ s k. 2 * k + 1 < length s.origins.now };

    ghost noted_below = { Prim.search rules };

    fn note(&self, at: NodeNumber) -> Option<Note<NodeNumber>> {
        let i = at.0;
        if i <= self.root.0 {
            return None;
        }
        Some(Note {
            parent: NodeNumber(usize::from(self.origins[2 * i])),
            letter: self.origins[2 * i + 1],
        })
    }
}

// The notes of the profiles: the headers of their records. A chain stands at a profile, or at none.
#[derive(Clone, Copy)]
struct ProfileNotes<'a> {
    area: &'a [u8],
    store: Store,
}

impl Notes for ProfileNotes<'_> {
    type At = Option<usize>;

    ghost link = { λ s at. link_of at };

    ghost item = { λ s. plain (record_of s.store s.area.now) };

    ghost noted = { λ s. ProfileNoted s.store (length s.area.now) };

    ghost noted_below = { Prim.search rules };

    fn note(&self, at: Option<usize>) -> Option<Note<Option<usize>>> {
        let p = at?;
        let e = profile_search::header_of(self.area, self.store, p);
        Some(Note {
            parent: e.parent,
            letter: e.letter,
        })
    }
}

// How many letters stand along a chain.
fn length_of<N: Notes>(notes: &N, top: N::At) -> usize
    requires { ChainNoted (N.item notes.now) (N.noted notes.now) (N.link notes.now top) }
    ensures { result ≡ length (labels (N.item notes.now) (N.link notes.now top)) }
{
    let mut n = 0usize;
    let mut at = top;
    while let Some(note) = notes.note(at) {
        n += 1;
        at = note.parent;
    }
    n
}

// Writes the n letters along a chain from a position on, the last first.
fn write_chain<N: Notes>(notes: &N, top: N::At, letters: &mut [u16], from: Position, n: usize)
    requires chain_noted { ChainNoted (N.item notes.now) (N.noted notes.now) (N.link notes.now top) }
    requires letters_fit { LettersFit (labels (N.item notes.now) (N.link notes.now top)) n from.0 (length letters.old) }
    ensures { letters.new ≡ written from.0 (labels (N.item notes.now) (N.link notes.now top)) letters.old }
{
    let start = from.0;
    let mut at = top;
    let mut left = n;
    while let Some(note) = notes.note(at) {
        left -= 1;
        letters[start + left] = note.letter;
        at = note.parent;
    }
}

// How many letters the stem to a node has.
pub fn stem_length(origins: &[u16], node: NodeNumber) -> usize
    requires { StemNoted origins.now node.0 }
    ensures { result ≡ length (stem_letters origins.now node.0) }
{
    let notes = NodeNotes {
        origins,
        root: ROOT,
    };
    length_of(&notes, node)
}

// Writes the n letters of the stem to a node from position 0 on.
pub fn write_stem(origins: &[u16], node: NodeNumber, letters: &mut [u16], n: usize)
    requires stem_noted { StemNoted origins.now node.0 }
    requires letters_fit { LettersFit (stem_letters origins.now node.0) n 0 (length letters.old) }
    ensures { letters.new ≡ written 0 (stem_letters origins.now node.0) letters.old }
{
    let notes = NodeNotes {
        origins,
        root: ROOT,
    };
    write_chain(&notes, node, letters, Position(0), n);
}

// Writes the witness of profile p: the stem to its first node, and behind it the profile's cycle.
pub fn write(origins: &[u16], area: &[u8], store: Store, p: usize, letters: &mut [u16]) -> Lengths
    requires { WitnessReady origins.now store area.now p (length letters.old) }
    ensures { WitnessWritten origins.now store area.now p letters.old letters.new result }
{
    let e = profile_search::header_of(area, store, p);
    let first = e.first;
    let stem = stem_length(origins, first);
    let profiles = ProfileNotes { area, store };
    let cycle = length_of(&profiles, Some(p));
    write_stem(origins, first, letters, stem);
    write_chain(&profiles, Some(p), letters, Position(stem), cycle);
    Lengths { stem, cycle }
}
