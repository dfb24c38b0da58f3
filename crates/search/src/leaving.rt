//! Rows that leave: they are detached before their steps are dropped. A learned row with a later tag may rest on a step
//! that falls or not, which its tag doesn't tell; so may a cube behind the first that falls. To tell them apart would
//! take marks, and so memory: they are detached, and the next solve attaches those that are left.
ghost use Rattle.std.specs.Prelude.{◌≡◌, ◌≤◌, ◌↔◌, ℕ, IsTrue, List};
ghost use Rattle.prefix.specs.Scopes.{Scope};
ghost use Rattle.calculus.specs.Derivations.{Extends};
ghost use Rattle.derive.specs.Dropping.{NoneOutsideBelow, is_outside, mentions, names};
ghost use Rattle.derive.specs.State.{has_rows, is_live, row_of, tag_at, why_at};
ghost use Rattle.search.specs.Leaving.{Goes, Reaches, may_fall, may_fall_over};
ghost use Rattle.search.specs.State.{IsIntact, IsTallied, rows_of};
ghost use Rattle.search.specs.Watching.{IsFree, NoneFalls, Sheds};

use crate::search::Search;
use derive::{Derivation, Step, StepId};
use prefix::{Prefix, Quant};

// Rows that are detached before steps go.
#[derive(Drop)]
pub(crate) enum Leaving<'a> {
    // Those of a frame, which go, and learned ones of later frames.
    Frame(usize),
    // Cubes.
    Cubes,
    // Those of a side, of which such go as name a variable outside this prefix.
    Outside(Quant, &'a Prefix),
}

impl Leaving<'_> {
    // Whether a live row is one of them.
    fn reaches(&self, derivation: &Derivation, id: StepId) -> bool
        requires { IsTrue (is_live derivation.now id) }
        ensures { IsTrue result ↔ Reaches self.now derivation.now id }
    {
        match self {
            Self::Frame(frame) => may_fall(derivation, id, *frame),
            Self::Cubes => derivation.side(id) == Quant::Forall,
            Self::Outside(side, _) => derivation.side(id) == *side,
        }
    }

    // Whether a live row is one that goes.
    fn takes(&self, derivation: &Derivation, id: StepId) -> bool
        requires live { IsTrue (is_live derivation.now id) }
        requires rows { IsTrue (has_rows derivation.now) }
        ensures { IsTrue result → Goes self.now derivation.now id }
    {
        match self {
            Self::Frame(frame) => *frame == derivation.tag(id),
            Self::Cubes => false,
            Self::Outside(_, prefix) => derivation.names_outside(id, prefix),
        }
    }
}

impl Search {
    // Detaches the rows from an id on that leave. Where some of them don't go, the next solve attaches those that are
    // left.
    pub(crate) fn detach_from(&mut self, from: StepId, leaving: &Leaving)
        requires intact { (scopes : List Scope) × IsIntact scopes self.old }
        requires tallied { IsTallied self.old }
        ensures sheds { Sheds (Goes leaving.now self.old.derivation) self.old self.new }
        ensures free { (id : ℕ) → from ≤ id → Reaches leaving.now self.old.derivation id → IsFree self.new id }
    {
        let next = self.derivation.next_id();
        for id in from..next {
            self.detach_at(id, leaving);
        }
    }

    // Detaches a row, if it is live and leaves.
    fn detach_at(&mut self, id: StepId, leaving: &Leaving)
        requires intact { (scopes : List Scope) × IsIntact scopes self.old }
        requires tallied { IsTallied self.old }
        ensures sheds { Sheds (Goes leaving.now self.old.derivation) self.old self.new }
        ensures free { Reaches leaving.now self.old.derivation id → IsFree self.new id }
    {
        if !self.derivation.is_live(id) {
            return;
        }
        if !leaving.reaches(&self.derivation, id) {
            return;
        }
        let goes = leaving.takes(&self.derivation, id);
        self.detach_going(id, goes);
    }

    // Detaches a row, if it is attached. Where it doesn't go, the next solve attaches it again.
    fn detach_going(&mut self, id: StepId, goes: bool)
        requires intact { (scopes : List Scope) × IsIntact scopes self.old }
        requires tallied { IsTallied self.old }
        requires live { IsTrue (is_live self.old.derivation id) }
        ensures sheds { Sheds (λ i. (i ≡ id) × IsTrue goes) self.old self.new }
        ensures free { IsFree self.new id }
    {
        if self.has(id) {
            self.joined &= goes;
            self.detach(id);
        }
    }

    // Detaches the rows that fall where the steps go that name a variable outside a prefix, and of each side the rows
    // behind the first of these.
    pub(crate) fn detach_outside(&mut self, prefix: &Prefix, from: StepId)
        requires intact { (scopes : List Scope) × IsIntact scopes self.old }
        requires tallied { IsTallied self.old }
        requires below { NoneOutsideBelow prefix.now from self.old.derivation }
        ensures sheds { Sheds (λ id. IsTrue (mentions (is_outside prefix.now) (row_of self.old.derivation id)))
            self.old self.new }
        ensures none { NoneFalls (names (is_outside prefix.now) (rows_of self.new)) self.new }
    {
        let clauses = self.derivation.outside_from(Quant::Exists, from, prefix);
        self.detach_from(clauses, &Leaving::Outside(Quant::Exists, prefix));
        let cubes = self.derivation.outside_from(Quant::Forall, from, prefix);
        self.detach_from(cubes, &Leaving::Outside(Quant::Forall, prefix));
    }
}

// Whether a live step may fall with a frame: its own tag tells it of an input, and of the reduction of one. Any other
// may rest on the frame, unless it has an earlier one as its tag.
fn may_fall(derivation: &Derivation, id: StepId, frame: usize) -> bool
    requires { IsTrue (is_live derivation.now id) }
    ensures { result ≡ may_fall frame derivation.now.notes id }
{
    let tag = derivation.tag(id);
    match derivation.step(id) {
        Step::InputClause | Step::InputCube => tag == frame,
        Step::Reduced(a) => may_fall_over(derivation, a, tag, frame),
        _ => frame <= tag,
    }
}

// Whether a reduction with this tag may fall with a frame, by the live step that it rests on.
fn may_fall_over(derivation: &Derivation, a: StepId, tag: usize, frame: usize) -> bool
    requires { IsTrue (is_live derivation.now a) }
    ensures { result ≡ may_fall_over frame tag (tag_at derivation.now a) (why_at derivation.now a) }
{
    match derivation.step(a) {
        Step::InputClause | Step::InputCube => tag == frame || derivation.tag(a) == frame,
        _ => frame <= tag,
    }
}
