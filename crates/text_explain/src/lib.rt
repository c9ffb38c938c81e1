// What may stand where a line of a text begins, and the number of that line: what a reader expected where it
// broke off.
#![tactic(auto)]

ghost use Rattle.std.specs.Prelude.{◌≡◌, cond, ◌+◌, ◌-◌, ◌≤◌, eqb, length, drop};
ghost use Rattle.chars.specs.Words.{bytes};
ghost use Rattle.text_scan.specs.Scan.{on_next, begins, lit_at};
ghost use Rattle.text_explain.specs.declared.Stage.TheVariants.{At20, At16A, At32B, At113, At102, At203, On20, On22A, On451, On13E, On432, AtEnd};
ghost use Rattle.text_explain.specs.declared.Fault.TheVariants.{Wrong, Unknown};
ghost use Rattle.text_explain.specs.Tags.{tag_text, padded, is_side};
ghost use Rattle.text_explain.specs.Stages.{tags_at, after, settles_in, said_in};
ghost use Rattle.text_explain.specs.Walk.{one_at, stands_at, onward_at, step_at, place_at};
ghost use Rattle.text_explain.specs.Faults.{wrong_at, fault_at, told_at};

use text_fields::Break;

// "127, 32B, 113, 102: one payment, 1 to 10 times".
const MOST: usize = 10;

// The tags of requests and responses.
#[derive(Clone, Copy)]
pub enum Tag {
    T20,
    T12,
    T77E,
    T22A,
    T119,
    T16A,
    T171,
    T175,
    T127,
    T32B,
    T113,
    T102,
    T203,
    T21,
    T451,
    T13E,
    T432,
}

impl Tag {
    // The tag as it stands in a text, a zero behind one of four bytes.
    pub fn text(self) -> [u8; 5]
        ensures { result ≡ padded (tag_text self) }
    {
        match self {
            Tag::T20 => *b":20:\0",
            Tag::T12 => *b":12:\0",
            Tag::T77E => *b":77E:",
            Tag::T22A => *b":22A:",
            Tag::T119 => *b":119:",
            Tag::T16A => *b":16A:",
            Tag::T171 => *b":171:",
            Tag::T175 => *b":175:",
            Tag::T127 => *b":127:",
            Tag::T32B => *b":32B:",
            Tag::T113 => *b":113:",
            Tag::T102 => *b":102:",
            Tag::T203 => *b":203:",
            Tag::T21 => *b":21:\0",
            Tag::T451 => *b":451:",
            Tag::T13E => *b":13E:",
            Tag::T432 => *b":432:",
        }
    }

    // How many bytes it has.
    pub fn size(self) -> usize
        ensures { result ≡ length (tag_text self) }
    {
        let text = self.text();
        if text[4] == 0 { 4 } else { 5 }
    }

    // Whether a payment begins with it.
    fn is_side(self) -> bool
        ensures { result ≡ is_side self }
    {
        matches!(self, Tag::T127)
    }
}

// The tags that may stand where a line begins; none where the text is to end.
#[derive(Clone, Copy)]
pub enum Tags {
    Ending,
    One(Tag),
    Two(Tag, Tag),
}

// Where a line begins, by the lines before it: `At` of a request, `On` of a response. With it goes whether a
// settlement is asked for or answered, how many payments may still come, and whether the payment is a debit.
#[derive(Clone, Copy)]
pub enum Stage {
    At20,
    At12,
    At77E(bool),
    At22A(bool),
    At119(bool),
    At16A,
    At171,
    At175,
    At127,
    At32B(usize, bool),
    At113(usize),
    At102(usize),
    At203(usize),
    On20,
    On12,
    On77E(bool),
    On21(bool),
    On22A,
    On119,
    On451(bool),
    On13E,
    On432,
    AtEnd,
}

// Which lines follow is told by three values: 12 asks for or answers a settlement, 127 is a debit, 451 is 0.
#[derive(Clone, Copy)]
pub struct Said {
    pub settles: bool,
    pub debit: bool,
    pub done: bool,
}

// A line's beginning, its number, counted from 1, and what is expected there.
#[derive(Clone, Copy)]
pub struct Place {
    pub at: usize,
    pub line: usize,
    pub stage: Stage,
}

// How a text breaks: none of the tags that may stand there does; the tag's value is wrong; 12 has another sub
// type; 113 stands after CR.
#[derive(Clone, Copy)]
pub enum Fault {
    Missing(Tags),
    Wrong(Tag),
    Unknown,
    AfterCredit,
}

// A break in full: the number of its line, how it breaks the text, and where the line's value begins, 0 where a
// field is missing.
#[derive(Clone, Copy)]
pub struct Told {
    pub line: usize,
    pub fault: Fault,
    pub value: usize,
}

// The tags that may stand at a stage.
pub fn may_stand(stage: Stage) -> Tags
    ensures { result ≡ tags_at stage }
{
    match stage {
        Stage::At20 => Tags::One(Tag::T20),
        Stage::At12 => Tags::One(Tag::T12),
        Stage::At77E(_) => Tags::One(Tag::T77E),
        Stage::At22A(_) => Tags::One(Tag::T22A),
        Stage::At119(_) => Tags::One(Tag::T119),
        Stage::At16A => Tags::One(Tag::T16A),
        Stage::At171 => Tags::One(Tag::T171),
        Stage::At175 => Tags::Two(Tag::T175, Tag::T127),
        Stage::At127 => Tags::One(Tag::T127),
        Stage::At32B(_, _) => Tags::One(Tag::T32B),
        Stage::At113(_) => Tags::One(Tag::T113),
        Stage::At102(_) => Tags::One(Tag::T102),
        Stage::At203(left) => more_or_count(left),
        Stage::On20 => Tags::One(Tag::T20),
        Stage::On12 => Tags::One(Tag::T12),
        Stage::On77E(_) => Tags::One(Tag::T77E),
        Stage::On21(_) => Tags::One(Tag::T21),
        Stage::On22A => Tags::One(Tag::T22A),
        Stage::On119 => Tags::One(Tag::T119),
        Stage::On451(_) => Tags::One(Tag::T451),
        Stage::On13E => Tags::One(Tag::T13E),
        Stage::On432 => Tags::One(Tag::T432),
        Stage::AtEnd => Tags::Ending,
    }
}

// A further payment as long as one may come, or the count.
fn more_or_count(left: usize) -> Tags
    ensures { result ≡ tags_at (At203 left) }
{
    if 0 < left {
        Tags::Two(Tag::T127, Tag::T203)
    } else {
        Tags::One(Tag::T203)
    }
}

// The stage behind 119: "A recall ends after 119."
fn behind_bin(settles: bool) -> Stage
    ensures { result ≡ cond settles At16A AtEnd }
{
    if settles { Stage::At16A } else { Stage::AtEnd }
}

// The stage behind 32B: "113 stands after DR and never after CR".
fn behind_amount(left: usize, debit: bool) -> Stage
    ensures { result ≡ cond debit (At113 left) (At102 left) }
{
    if debit {
        Stage::At113(left)
    } else {
        Stage::At102(left)
    }
}

// The stage behind 102: one payment fewer may come.
fn behind_bank(left: usize) -> Stage
    ensures { result ≡ At203 (left - 1) }
{
    Stage::At203(left.saturating_sub(1))
}

// The stage behind a tag that is 127 or another one.
fn behind_either(t: Tag, left: usize, debit: bool, other: Stage) -> Stage
    ensures { result ≡ cond (is_side t) (At32B left debit) other }
{
    if t.is_side() {
        Stage::At32B(left, debit)
    } else {
        other
    }
}

// The stage behind 21 of a response.
fn behind_reference(settles: bool) -> Stage
    ensures { result ≡ cond settles On22A (On451 settles) }
{
    if settles {
        Stage::On22A
    } else {
        Stage::On451(settles)
    }
}

// The stage behind 451: 13E of a settlement after 0, 432 after 1.
fn behind_status(settles: bool, done: bool) -> Stage
    ensures { result ≡ cond done (cond settles On13E AtEnd) On432 }
{
    if !done {
        Stage::On432
    } else if settles {
        Stage::On13E
    } else {
        Stage::AtEnd
    }
}

// The stage behind a line, by its tag and by what its value says.
fn behind(stage: Stage, t: Tag, said: Said) -> Stage
    ensures { result ≡ after stage t said }
{
    match stage {
        Stage::At20 => Stage::At12,
        Stage::At12 => Stage::At77E(said.settles),
        Stage::At77E(settles) => Stage::At22A(settles),
        Stage::At22A(settles) => Stage::At119(settles),
        Stage::At119(settles) => behind_bin(settles),
        Stage::At16A => Stage::At171,
        Stage::At171 => Stage::At175,
        Stage::At175 => behind_either(t, MOST, said.debit, Stage::At127),
        Stage::At127 => Stage::At32B(MOST, said.debit),
        Stage::At32B(left, debit) => behind_amount(left, debit),
        Stage::At113(left) => Stage::At102(left),
        Stage::At102(left) => behind_bank(left),
        Stage::At203(left) => behind_either(t, left, said.debit, Stage::AtEnd),
        Stage::On20 => Stage::On12,
        Stage::On12 => Stage::On77E(said.settles),
        Stage::On77E(settles) => Stage::On21(settles),
        Stage::On21(settles) => behind_reference(settles),
        Stage::On22A => Stage::On119,
        Stage::On119 => Stage::On451(true),
        Stage::On451(settles) => behind_status(settles, said.done),
        Stage::On13E => Stage::AtEnd,
        Stage::On432 => Stage::AtEnd,
        Stage::AtEnd => Stage::AtEnd,
    }
}

// Whether a word stands at a place.
#[tactic(auto, using(crate::proofs::Laws::starts_is))]
fn starts(s: &[u8], at: usize, word: &[u8]) -> bool
    ensures { result ≡ begins word.now (drop at s.now) }
{
    text_scan::lit(s, at, word).is_some()
}

fn settles(s: &[u8], at: usize) -> bool
    ensures { result ≡ settles_in (drop at s.now) }
{
    starts(s, at, b"131") || starts(s, at, b"132")
}

fn read_said(s: &[u8], at: usize) -> Said
    ensures { result ≡ said_in (drop at s.now) }
{
    Said {
        settles: settles(s, at),
        debit: starts(s, at, b"DR"),
        done: starts(s, at, b"0"),
    }
}

// The tag at a place: where its value begins.
#[tactic(auto, using(crate::proofs::Laws::tag_fits, crate::proofs::Laws::tag_part, crate::proofs::Laws::tag_at_1))]
fn tag_at(s: &[u8], at: usize, t: Tag) -> Option<usize>
    ensures { result ≡ lit_at s.now at (tag_text t) }
{
    let text = t.text();
    let n = t.size();
    text_scan::lit(s, at, &text[..n])
}

// The tag, if it stands at a place, and where its value begins.
fn one(s: &[u8], at: usize, t: Tag) -> Option<(Tag, usize)>
    ensures { result ≡ one_at s.now at t }
{
    let a = tag_at(s, at, t)?;
    Some((t, a))
}

// Which of some tags stands at a place, and where its value begins.
#[tactic(auto, unfolding(crate::specs::Walk::stands_at))]
fn standing(s: &[u8], at: usize, tags: Tags) -> Option<(Tag, usize)>
    ensures { result ≡ stands_at s.now at tags }
{
    match tags {
        Tags::Ending => None,
        Tags::One(t) => one(s, at, t),
        Tags::Two(t, u) => one(s, at, t).or_else(|| one(s, at, u)),
    }
}

// To the next line, from one whose tag stands there and whose value begins at a place.
#[tactic(auto, using(crate::proofs::Laws::line_fits), unfolding(crate::specs::Walk::onward_at))]
fn onward(s: &[u8], p: Place, t: Tag, a: usize) -> Option<Place>
    requires { p.line ≤ a }
    ensures { result ≡ onward_at s.now p t a }
{
    let e = text_scan::line_end(s, a, s.len())?;
    Some(Place {
        at: e + 2,
        line: p.line + 1,
        stage: behind(p.stage, t, read_said(s, a)),
    })
}

#[tactic(auto, using(crate::proofs::Laws::onward_fits), unfolding(crate::specs::Walk::step_at))]
fn next_line(s: &[u8], p: Place) -> Option<Place>
    requires { p.line ≤ p.at + 1 }
    ensures { result ≡ step_at s.now p }
{
    let (t, a) = standing(s, p.at, may_stand(p.stage))?;
    onward(s, p, t, a)
}

// The line that begins at a place, of a text that begins at a stage: the last one that the lines before it
// lead to, where none begins just there.
#[tactic(auto, using(crate::proofs::Laws::going_start, crate::proofs::Laws::going_on, crate::proofs::Laws::step_past))]
pub fn line_at(s: &[u8], stage: Stage, at: usize) -> Place
    ensures { result ≡ place_at s.now stage at }
{
    let mut p = Place {
        at: 0,
        line: 1,
        stage,
    };
    // Kept: the place moves by a line, not by one.
    while p.at < at {
        let Some(q) = next_line(s, p) else {
            return p;
        };
        p = q;
    }
    p
}

// Behind the 113 that stands at a place.
fn behind_letters(s: &[u8], at: usize) -> usize
    ensures { result ≡ on_next (lit_at s.now at (bytes ":113:")) 0 (λ a. a) }
{
    text_scan::lit(s, at, b":113:").unwrap_or(0)
}

fn wrong(s: &[u8], b: Break, p: Place) -> Told
    ensures { result ≡ wrong_at s.now b p }
{
    let (fault, value) = match standing(s, b.at, may_stand(p.stage)) {
        Some((t, a)) => (fault_of(b.refusal.number(), t), a),
        None => (Fault::AfterCredit, behind_letters(s, b.at)),
    };
    Told {
        line: p.line,
        fault,
        value,
    }
}

fn fault_of(number: u64, t: Tag) -> Fault
    ensures { result ≡ cond (eqb number 88) Unknown (Wrong t) }
{
    if number == 88 {
        Fault::Unknown
    } else {
        Fault::Wrong(t)
    }
}

#[tactic(auto, unfolding(crate::specs::Faults::fault_at))]
fn break_of(s: &[u8], b: Break, p: Place) -> Told
    ensures { result ≡ fault_at s.now b p }
{
    if b.missing {
        Told {
            line: p.line,
            fault: Fault::Missing(may_stand(p.stage)),
            value: 0,
        }
    } else {
        wrong(s, b, p)
    }
}

// The break of a request in full.
#[tactic(auto, unfolding(crate::specs::Faults::told_at))]
pub fn request_break(s: &[u8], b: Break) -> Told
    ensures { result ≡ told_at s.now At20 b }
{
    break_of(s, b, line_at(s, Stage::At20, b.at))
}

// The break of a response in full.
#[tactic(auto, unfolding(crate::specs::Faults::told_at))]
pub fn response_break(s: &[u8], b: Break) -> Told
    ensures { result ≡ told_at s.now On20 b }
{
    break_of(s, b, line_at(s, Stage::On20, b.at))
}
