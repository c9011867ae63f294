// Whether one lasso meets all formulas of a catalogue (MEANING 10; document 02: a whole handover file), by their conjunction. Where none
// does, an unsatisfiable core: some of the formulas, which no lasso meets, and without any one of them some lasso does.
#![tactic(auto)]

ghost use Rattle.std.specs.Prelude.{◌≡◌, List, ℕ, ◌≤◌, ◌<◌, length, drop};
ghost use Rattle.base.specs.Bits.{word};
ghost use Rattle.catalogue.specs.Records.{records};
ghost use Rattle.conjunction.specs.Conjunction.{conjoined};
ghost use Rattle.decision.specs.Contract.{Decided};
ghost use Rattle.decision.specs.Lends.{Lends};
ghost use Rattle.joint.specs.Joint.{chosen, everything, without, attempted, shrink, concluded};
ghost use Rattle.joint.specs.Contract.{Leaves, Jointly, number_of, fault_told};
ghost use Rattle.joint.specs.Inner.{Collects, held, checked, Readable, Grown, joined, Conjoins};
ghost use Rattle.joint.specs.Inner.{Clear, attempt_told, attempt_said, shrunk_told, asked_on};
ghost use Rattle.joint.specs.declared.Refusal.TheVariants.{No};

use construction::Question;

// What comes of a catalogue: MET or NOT (MEANING 10.2, 10.3). A subset of the formulas is a word here, bit i for the formula at position i.
#[derive(Clone, Copy)]
pub enum Verdict {
    Satisfiable {
        stem: usize,
        cycle: usize,
        nodes: usize,
        profiles: usize,
    },
    Unsatisfiable {
        nodes: usize,
        profiles: usize,
        core: u8,
    },
}

// Why there is no verdict: 30 with its place, 34, a formula's refusal of reading with its position, 11 to 13, or 35 with the
// subset that was tried.
#[derive(Clone, Copy)]
pub enum Refusal {
    Damaged(usize),
    Miscounted,
    Unread {
        position: usize,
        why: formula::Refusal,
    },
    No(Question),
    Untried(u8),
}

impl From<Question> for Refusal {
    ghost from_gives = { λ q r. r ≡ No q };

    fn from(q: Question) -> Refusal {
        Refusal::No(q)
    }
}

// What question 34 grants at most.
pub const MAX_FORMULAS: usize = 8;

// The formulas of a catalogue, as parts of it: how many there are, and the first eight of them. There is no heap, so the room for them is
// that for the most that question 34 grants.
#[derive(Clone, Copy)]
struct Formulas<'a> {
    parts: [&'a [u8]; MAX_FORMULAS],
    count: usize,
}

// The opcode of and.
const AND: u8 = 7;

// Eight formulas of at most 96 bytes each, and an and before each.
const CONJUNCTION: usize = 776;

// As many letters as question 13 can ask for.
const LETTERS: usize = 5120;

// The formulas of a catalogue, or its first fault.
fn collect(catalogue: &[u8]) -> Result<Formulas<'_>, usize>
    ensures { Collects catalogue.now (records catalogue.now) result }
{
    let mut at = 0;
    let mut least = 0;
    let mut parts = [&catalogue[..0]; MAX_FORMULAS];
    let mut count = 0;
    while let Some(r) = catalogue::next_record(catalogue, at, least)? {
        if count < MAX_FORMULAS {
            parts[count] = &catalogue[r.start..r.start + r.size];
        }
        count += 1;
        at = r.start + r.size;
        least = r.number + 1;
    }
    Ok(Formulas { parts, count })
}

// Whether reading accepts all formulas; else the position of the first that it refuses.
fn check(formulas: &[&[u8]]) -> Result<(), Refusal>
    ensures { result ≡ checked 0 (held formulas.now) }
{
    for (position, bytes) in formulas.iter().enumerate() {
        if let Err(why) = formula::read(bytes) {
            return Err(Refusal::Unread { position, why });
        }
    }
    Ok(())
}

// Puts a formula before what goes from a place to the end, and an and before both, unless nothing is there yet. Where that begins.
fn put_before(out: &mut [u8], at: usize, bytes: &[u8]) -> usize
    requires { (length bytes.now ≤ 96) × (97 ≤ at) × (at ≤ length out.old) }
    ensures { Grown at (joined bytes.now (drop at out.old)) out.old out.new result }
{
    let start = at - bytes.len();
    // From the last byte to the first, by a loop: copy_from_slice would make the archive for C need memmove.
    for i in (0..bytes.len()).rev() {
        out[start + i] = bytes[i];
    }
    if at == out.len() {
        return start;
    }
    out[start - 1] = AND;
    start - 1
}

// The conjunction of some of the formulas, from a place to the end. It is put together from the last formula to the first: what is there
// already is the second operand.
fn conjoin(formulas: &[&[u8]], taken: [bool; MAX_FORMULAS], out: &mut [u8]) -> usize
    requires readable { Readable (held formulas.now) }
    requires out_len { length out.old ≡ 776 }
    ensures { Conjoins (chosen taken (held formulas.now)) out.old out.new result }
{
    let mut at = out.len();
    for i in (0..formulas.len()).rev() {
        if taken[i] {
            at = put_before(out, at, formulas[i]);
        }
    }
    at
}

// The decision as building and a search over what was built. Both areas are left as the decision leaves them.
fn decided(
    bytes: &[u8],
    node_capacity: usize,
    profile_capacity: usize,
    workspace: &mut [u8],
    witness: &mut [u16],
) -> Result<decision::Verdict, construction::Refusal>
    requires { Lends node_capacity profile_capacity (length workspace.old) (length witness.old) }
    ensures { Decided bytes.now node_capacity profile_capacity workspace.old workspace.new
        witness.old witness.new result }
{
    match construction::build(bytes, node_capacity, workspace) {
        Err(construction::Refusal::Unread(why)) => Err(construction::Refusal::Unread(why)),
        Err(construction::Refusal::No(q)) => {
            let asked = decision::workspace_size(node_capacity, profile_capacity);
            tableau::clear(workspace, 0, asked);
            Err(construction::Refusal::No(q))
        }
        Ok(count) => {
            let v = decision::search(
                bytes,
                count,
                node_capacity,
                profile_capacity,
                workspace,
                witness,
            );
            tableau::clear(workspace, 0, construction::NODE_BYTES * node_capacity);
            v
        }
    }
}

// The decision of the conjunction of some of the formulas.
fn decided_some(
    formulas: &[&[u8]],
    taken: [bool; MAX_FORMULAS],
    node_capacity: usize,
    profile_capacity: usize,
    workspace: &mut [u8],
    witness: &mut [u16],
) -> Result<decision::Verdict, construction::Refusal>
    requires readable { Readable (held formulas.now) }
    requires lends { Lends node_capacity profile_capacity (length workspace.old) (length witness.old) }
    ensures { Decided (conjoined (chosen taken (held formulas.now))) node_capacity profile_capacity
        workspace.old workspace.new witness.old witness.new result }
{
    let mut bytes = [0u8; CONJUNCTION];
    let at = conjoin(formulas, taken, &mut bytes);
    decided(
        &bytes[at..],
        node_capacity,
        profile_capacity,
        workspace,
        witness,
    )
}

fn attempt_of(v: Result<decision::Verdict, construction::Refusal>) -> Option<bool>
    ensures { result ≡ attempt_said v }
{
    match v {
        Ok(decision::Verdict::Satisfiable { .. }) => Some(true),
        Ok(decision::Verdict::Unsatisfiable { .. }) => Some(false),
        Err(_) => None,
    }
}

// Whether some lasso meets some of the formulas, if the decision tells it. Every lasso meets all of none.
fn attempted(
    formulas: &[&[u8]],
    taken: [bool; MAX_FORMULAS],
    node_capacity: usize,
    profile_capacity: usize,
    workspace: &mut [u8],
    witness: &mut [u16],
) -> Option<bool>
    requires readable { Readable (held formulas.now) }
    requires lends { Lends node_capacity profile_capacity (length workspace.old) (length witness.old) }
    requires clear { Clear node_capacity profile_capacity workspace.old }
    ensures told { result ≡ attempt_told (attempted node_capacity profile_capacity
        (chosen taken (held formulas.now))) }
    ensures kept { workspace.new ≡ workspace.old }
{
    let mut bytes = [0u8; CONJUNCTION];
    let at = conjoin(formulas, taken, &mut bytes);
    if at == CONJUNCTION {
        return Some(true);
    }
    attempt_of(decided(
        &bytes[at..],
        node_capacity,
        profile_capacity,
        workspace,
        witness,
    ))
}

fn without(mut taken: [bool; MAX_FORMULAS], i: usize) -> [bool; MAX_FORMULAS]
    requires { i < 8 }
    ensures { result ≡ without taken i }
{
    taken[i] = false;
    taken
}

fn everything(count: usize) -> [bool; MAX_FORMULAS]
    requires { count ≤ 8 }
    ensures { result ≡ everything count }
{
    let mut taken = [false; MAX_FORMULAS];
    taken[..count].fill(true);
    taken
}

// A subset as a word, bit i for position i.
fn word_of(taken: [bool; MAX_FORMULAS]) -> u8
    ensures { result ≡ word taken }
{
    let mut x = 0;
    for i in (0..MAX_FORMULAS).rev() {
        x = u8::from(taken[i]) + 2 * x;
    }
    x
}

// From the last formula to the first, each is left out for good if no lasso meets the others that are left: a core. If the decision does
// not tell it of some of them, these. The witnesses of subsets are nobody's, and go into a buffer of their own.
fn shrink(
    formulas: &[&[u8]],
    node_capacity: usize,
    profile_capacity: usize,
    workspace: &mut [u8],
) -> Result<u8, Refusal>
    requires readable { Readable (held formulas.now) }
    requires lends { Lends node_capacity profile_capacity (length workspace.old) 5120 }
    requires clear { Clear node_capacity profile_capacity workspace.old }
    ensures told { result ≡ shrunk_told (shrink
        (λ s. attempted node_capacity profile_capacity (chosen s (held formulas.now)))
        (length formulas.now) (everything (length formulas.now))) }
    ensures kept { workspace.new ≡ workspace.old }
{
    let mut letters = [0u16; LETTERS];
    let mut left = everything(formulas.len());
    for i in (0..formulas.len()).rev() {
        let fewer = without(left, i);
        match attempted(
            formulas,
            fewer,
            node_capacity,
            profile_capacity,
            workspace,
            &mut letters,
        ) {
            Some(true) => {}
            Some(false) => left = fewer,
            None => return Err(Refusal::Untried(word_of(fewer))),
        }
    }
    Ok(word_of(left))
}

// All formulas together, and if no lasso meets them all, which of them clash.
fn concluded(
    formulas: &[&[u8]],
    node_capacity: usize,
    profile_capacity: usize,
    workspace: &mut [u8],
    witness: &mut [u16],
) -> Result<Verdict, Refusal>
    requires readable { Readable (held formulas.now) }
    requires lends { Lends node_capacity profile_capacity (length workspace.old) (length witness.old) }
    ensures { Leaves node_capacity profile_capacity
        (concluded node_capacity profile_capacity (held formulas.now))
        workspace.old workspace.new witness.old witness.new result }
{
    let all = everything(formulas.len());
    let Ok(verdict) = decided_some(
        formulas,
        all,
        node_capacity,
        profile_capacity,
        workspace,
        witness,
    ) else {
        return Err(Refusal::Untried(word_of(all)));
    };
    match verdict {
        decision::Verdict::Satisfiable {
            stem,
            cycle,
            nodes,
            profiles,
        } => Ok(Verdict::Satisfiable {
            stem,
            cycle,
            nodes,
            profiles,
        }),
        decision::Verdict::Unsatisfiable { nodes, profiles } => {
            let core = shrink(formulas, node_capacity, profile_capacity, workspace)?;
            Ok(Verdict::Unsatisfiable {
                nodes,
                profiles,
                core,
            })
        }
    }
}

// The questions of reading and for room, in their order.
fn asked(
    formulas: &[&[u8]],
    node_capacity: usize,
    profile_capacity: usize,
    workspace: &mut [u8],
    witness: &mut [u16],
) -> Result<Verdict, Refusal>
    requires { length formulas.now ≤ 8 }
    ensures { Leaves node_capacity profile_capacity
        (asked_on node_capacity profile_capacity (length workspace.old) (length witness.old) (held formulas.now))
        workspace.old workspace.new witness.old witness.new result }
{
    check(formulas)?;
    decision::ask_capacities(
        node_capacity,
        profile_capacity,
        workspace.len(),
        witness.len(),
    )?;
    concluded(
        formulas,
        node_capacity,
        profile_capacity,
        workspace,
        witness,
    )
}

// Whether one lasso meets all formulas of a catalogue, with capacities of nodes and of profiles.
pub fn decide_all(
    catalogue: &[u8],
    node_capacity: usize,
    profile_capacity: usize,
    workspace: &mut [u8],
    witness: &mut [u16],
) -> Result<Verdict, Refusal>
    ensures { Jointly catalogue.now node_capacity profile_capacity workspace.old workspace.new
        witness.old witness.new result }
{
    let f = match collect(catalogue) {
        Ok(f) => f,
        Err(place) => return Err(Refusal::Damaged(place)),
    };
    if !construction::between(1, MAX_FORMULAS, f.count) {
        return Err(Refusal::Miscounted);
    }
    asked(
        &f.parts[..f.count],
        node_capacity,
        profile_capacity,
        workspace,
        witness,
    )
}

// The number of a refusal, or 0.
pub fn code_of(answer: Result<Verdict, Refusal>) -> u8
    ensures { result ≡ number_of answer }
{
    match answer {
        Ok(_) => 0,
        Err(Refusal::Damaged(_)) => 30,
        Err(Refusal::Miscounted) => 34,
        Err(Refusal::Unread { why, .. }) => formula::code_of(why),
        Err(Refusal::No(q)) => construction::question_code(q),
        Err(Refusal::Untried(_)) => 35,
    }
}

// Where the catalogue is damaged, or 0.
pub fn fault_of(answer: Result<Verdict, Refusal>) -> usize
    ensures { result ≡ fault_told answer }
{
    match answer {
        Err(Refusal::Damaged(place)) => place,
        _ => 0,
    }
}
