// Decides the formula that stands on standard input, and prints the verdict with the first of the shortest witnesses (MEANING 5.4).
#![tactic(auto)]

ghost use Rattle.std.specs.Prelude.{length};
ghost use Rattle.io.specs.Counts.{IsPrefixLen};
ghost use Rattle.decision.specs.Verdict.{verdict};
ghost use Rattle.decision.specs.Lends.{Lends};
ghost use Rattle.decision.specs.Inner.{Answers};
ghost use Rattle.yuktrob.specs.Printed.{nodes, profiles, Printed};

use construction::Refusal;
use decision::Verdict;

// The capacities, and what the decision asks for them.
const NODES: usize = 256;

const PROFILES: usize = 300;

const WORKSPACE: usize = construction::NODE_BYTES * NODES + decision::PROFILE_BYTES * PROFILES;

const LETTERS: usize = NODES + PROFILES;

// The first 97 bytes settle the outcome.
fn main() {
    let mut bytes = [0u8; 97];
    let n = io::read_full(0, &mut bytes);
    let mut out = [0u8; 4096];
    let end = decided(&mut out, &bytes[..n]);
    io::write_all(1, &out[..end]);
}

// What the program prints for a formula, with room for 256 nodes and 300 profiles: where `out` has 4,096 bytes, the whole text.
fn decided(out: &mut [u8], bytes: &[u8]) -> usize
    ensures prefix_len { IsPrefixLen result out.new }
    ensures printed { Printed bytes.now out.old out.new result }
{
    let mut workspace = [0u8; WORKSPACE];
    let mut letters = [0u16; LETTERS];
    let answer = searched(bytes, &mut workspace, &mut letters);
    verdict_text::program_text(out, answer, &letters)
}

// The decision, as building and a search over what was built.
fn searched(bytes: &[u8], workspace: &mut [u8], letters: &mut [u16]) -> Result<Verdict, Refusal>
    requires { Lends nodes profiles (length workspace.old) (length letters.old) }
    ensures { Answers (verdict nodes profiles (length workspace.old) (length letters.old)
        bytes.now) letters.old letters.new result }
{
    let count = construction::build(bytes, NODES, workspace)?;
    decision::search(bytes, count, NODES, PROFILES, workspace, letters)
}
