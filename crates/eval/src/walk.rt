// Members sent through the calls of a pipeline, one source member at a time: as the notes tell, or by asking each `where`, then its
// features, each further `where`. No collection but the last is kept, and no member is sent after one that decides a quantifier.
ghost use Rattle.std.specs.Prelude.{◌≡◌, [], ◌∷◌, ◌++◌, ◌+◌, ◌*◌, ◌^◌, ◌≤◌, ◌<◌, length, drop, replicate};
ghost use Rattle.std.proofs.lemmas.List.Edits.{sets};
ghost use Rattle.board.specs.Check as meant;
ghost use Rattle.profile.specs.Profile.{profile_of};
ghost use Rattle.meaning.specs.Value.{row_of, whole_rows};
ghost use Rattle.meaning.specs.Calls.{features_of};
ghost use Rattle.eval.specs.Feed.{counted, decided_in};
ghost use Rattle.eval.specs.Step.{after};
ghost use Rattle.eval.specs.Walk.{state_in, Begins, Walks, Walked, Sending, Sent, Arriving, Takes, Moved};

use crate::context::Pipeline;
use crate::marked::Sorts;
use crate::memo::Note;
use crate::ready;
use crate::ready::Call;
use crate::step::Step;
use board::{COLLECTION_ROW, image};
use instance;
use meaning::Method;
use predicate::atom::Member;
use predicate::{node, rows};
use profile;
use syntax::kind::Kind;

// How many members arrived where the result is settled, and of how many of them the last call's predicate is true.
#[derive(Clone, Copy)]
pub(crate) struct Tally {
    pub arrived: usize,
    pub passed: usize,
}

impl Tally {
    // No member arrived yet.
    pub(crate) const NONE: Tally = Tally {
        arrived: 0,
        passed: 0,
    };

    // A member arrives, and the last call's predicate is true of it or not.
    pub(crate) fn count(&mut self, passes: bool)
        requires { (self.old.arrived + 1 < 2 ^ 64) × (self.old.passed ≤ self.old.arrived) }
        ensures { self.new ≡ counted self.old passes }
    {
        self.arrived += 1;
        if passes {
            self.passed += 1;
        }
    }
}

impl<'a> Pipeline<'a> {
    // Sends the members of the source whose row is at a place through the calls, into a collection table whose rows become 0 first: all of
    // them, or as many as decide the quantifier that is the last call.
    pub(crate) fn walk(self, source: usize, collection: &mut [u32]) -> Tally
        requires { Walks self source collection.old }
        ensures { Walked self.entry source collection.old collection.new result }
    {
        clear(collection);
        match rows::kind_at(self.tree, source) {
            Ok(Kind::IdentExpr) => self.feed_components(collection),
            _ => {
                let name = node::find_string_literal(self.rule, self.tree, source);
                self.feed_diagnostics(name, collection)
            }
        }
    }
}

// A walk through the calls: what is looked at, the collection table, what members are told apart by, what is noted of the calls'
// predicates, and who arrived. Notes are none where nothing is to be noted; those of bits 0 where nothing is marked, and else those of all
// bits.
#[derive(Drop)]
pub(crate) struct Walk<'a> {
    pub pipeline: Pipeline<'a>,
    pub collection: &'a mut [u32],
    pub sorts: Sorts<'a>,
    pub notes: &'a mut [Note],
    pub tally: Tally,
}

impl<'a> Walk<'a> {
    // A walk that nobody was sent on.
    pub(crate) fn new(
        pipeline: Pipeline<'a>,
        collection: &'a mut [u32],
        sorts: Sorts<'a>,
        notes: &'a mut [Note],
    ) -> Walk<'a>
        ensures { Begins pipeline.entry collection.entry.ghost_name collection.old sorts.entry notes.entry.ghost_name notes.old result }
    {
        Walk {
            pipeline,
            collection,
            sorts,
            notes,
            tally: Tally::NONE,
        }
    }

    // Whether the quantifier that is the last call is decided, whoever else arrives. It is asked after each member, so it is a match on the
    // method and not a closure that is called.
    pub(crate) fn is_decided(&self) -> bool
        ensures { result ≡ decided_in self.now.pipeline.last self.now.tally }
    {
        match self.pipeline.last {
            Method::All => self.tally.passed < self.tally.arrived,
            Method::Any | Method::None => 0 < self.tally.passed,
            _ => false,
        }
    }

    // Sends one member through the calls from the i-th on.
    #[cycle(feed)]
    pub(crate) fn feed(&mut self, i: usize, member: Member)
        requires { Sending self.old i (member ∷ []) }
        ensures { Sent self.old i (member ∷ []) self.new }
    {
        let Some(call) = ready::nth(self.pipeline.calls, i) else {
            return self.list(member);
        };
        match call.method {
            Method::Where => {
                if self.ask(i, call.args, member) {
                    self.feed(i + 1, member);
                }
            }
            Method::Features => {
                if let Member::Component(component) = member {
                    self.feed_features(i + 1, component);
                }
            }
            Method::All | Method::Any | Method::None | Method::Count => self.arrive(
                i, call, member,
            ),
            Method::Diagnostics => self.feed(i + 1, member),
        }
    }

    // Sends the features of a component through the calls from the i-th on.
    #[inline(always)]
    #[cycle(feed)]
    pub(crate) fn feed_features(&mut self, i: usize, component: u32)
        requires { Sending self.old i (features_of self.old.pipeline.image.now component) }
        ensures { Sent self.old i (features_of self.old.pipeline.image.now component) self.new }
    {
        let image = self.pipeline.image;
        let (first, end) = instance::features(image, component);
        let owner = profile::component_profile(image, self.sorts.held, component);
        for feature in first..end {
            self.feed_feature(i, component, feature, owner);
            if self.is_decided() {
                return;
            }
        }
    }

    // Sends one feature, whose owner's profile is at hand.
    #[inline(always)]
    #[cycle(feed)]
    fn feed_feature(&mut self, i: usize, component: u32, feature: u32, owner: Option<usize>)
        requires { Sending self.old i (Member.Feature component feature ∷ []) × (owner ≡ profile_of self.old.pipeline.image.now self.old.sorts.held (Member.Component component)) }
        ensures { Sent self.old i (Member.Feature component feature ∷ []) self.new }
    {
        let image = self.pipeline.image;
        let profile = profile::owned_profile(image, self.sorts.held, owner, feature);
        self.send(i, Member::Feature(component, feature), profile);
    }

    // Sends one member whose profile is at hand: as the notes tell, or by asking.
    #[inline(always)]
    #[cycle(feed)]
    pub(crate) fn send(&mut self, i: usize, member: Member, profile: Option<usize>)
        requires { Sending self.old i (member ∷ []) × (profile ≡ profile_of self.old.pipeline.image.now self.old.sorts.held member) }
        ensures { Sent self.old i (member ∷ []) self.new }
    {
        let Some(place) = self.sorts.place_of(self.pipeline.image, member, profile) else {
            return self.feed(i, member);
        };
        match self.step_of(i, place) {
            Some(step) => self.take(step, member),
            None => self.feed(i, member),
        }
    }

    // A member arrives at the i-th call, which gives no collection: it is counted, and a quantifier's predicate is asked.
    fn arrive(&mut self, i: usize, call: Call, member: Member)
        requires { Arriving self.old i (member ∷ []) call }
        ensures { Sent self.old i (member ∷ []) self.new }
    {
        if call.method == Method::Count {
            return self.tally.count(false);
        }
        let passes = self.ask(i, call.args, member);
        self.tally.count(passes);
    }

    // What was told happens to a member.
    #[inline(always)]
    pub(crate) fn take(&mut self, step: Step, member: Member)
        requires { Takes self.old step }
        ensures { Moved self.old (after step member (state_in self.old)) self.new }
    {
        match step {
            Step::Dropped => {}
            Step::Listed => self.list(member),
            Step::Counted(passes) => self.tally.count(passes),
        }
    }

    // A member that passes all calls has a row, and is counted.
    #[inline(always)]
    fn list(&mut self, member: Member)
        requires { Takes self.old Step.Listed }
        ensures { Moved self.old (after Step.Listed member (state_in self.old)) self.new }
    {
        let row = self.tally.arrived;
        put_member(self.collection, row, member);
        self.tally.count(false);
    }
}

// Sets all whole rows of the collection table to 0.
fn clear(collection: &mut [u32])
    ensures { collection.new ≡ replicate (whole_rows collection.old) 0 ++ drop (whole_rows collection.old) collection.old }
{
    let end = COLLECTION_ROW * (collection.len() / COLLECTION_ROW);
    collection[..end].fill(0);
}

// Writes a member's row.
#[inline(always)]
pub(crate) fn put_member(collection: &mut [u32], row: usize, member: Member)
    requires { meant.COLLECTION_ROW * (row + 1) ≤ length collection.old }
    ensures { collection.new ≡ sets collection.old (meant.COLLECTION_ROW * row) (row_of member) }
{
    let at = COLLECTION_ROW * row;
    let (first, second) = row_of(member);
    collection[at] = first;
    collection[at + 1] = second;
}

// The two numbers of a member's row.
fn row_of(member: Member) -> (u32, u32)
    ensures { row_of member ≡ result.0 ∷ result.1 ∷ [] }
{
    match member {
        Member::Component(component) => (component, 0),
        Member::Feature(component, feature) => (component, feature),
        Member::Diagnostic(diagnostic) => (diagnostic, 0),
    }
}
