// What is known of the calls' predicates. A predicate that asks for no more than a member's profile and its bits is asked of the first
// member of each profile and bits, and its answer noted: a note for each call, profile and bits. Where nothing is marked the bits are 0.
ghost use Rattle.std.specs.Prelude.{◌≡◌, ◌+◌, ◌*◌, ◌<◌, length, IfSome};
ghost use Rattle.predicate.specs.Truth.{truth};
ghost use Rattle.predicate.specs.Rows.{children_at};
ghost use Rattle.profile.specs.Profile.{PROFILES, profile_of};
ghost use Rattle.eval.specs.Memo.{NOTED_CALLS, NOTES, told, note_for, place_of, note_in};
ghost use Rattle.eval.specs.Walk.{Asking, AskedOf, Stays, NotesIt};

use crate::context::Pipeline;
use crate::marked;
use crate::marked::Sorts;
use crate::walk::Walk;
use predicate::Predicate;
use predicate::atom::Member;
use profile;

// The calls whose predicates are noted. That of a later call is asked of each member.
const NOTED_CALLS: usize = 4;

// The notes for one value of the bits, and for all.
pub(crate) const WAY_NOTES: usize = profile::PROFILES * NOTED_CALLS;

pub(crate) const NOTES: usize = WAY_NOTES * marked::WAYS;

// What is noted of a predicate: nothing yet, that it is false, that it is true, or that its answer is not to be noted.
#[derive(Clone, Copy, PartialEq, Eq)]
pub(crate) enum Note {
    NotKnown,
    False,
    True,
    NotToKnow,
}

impl Note {
    // The note for an answer, of a predicate that may ask for more.
    fn of(more: bool, value: bool) -> Note
        ensures { result ≡ note_for more value }
    {
        if more {
            return Note::NotToKnow;
        }
        if value { Note::True } else { Note::False }
    }

    // Whether the predicate is true, if that is noted.
    #[inline(always)]
    pub(crate) fn told(self) -> Option<bool>
        ensures { result ≡ told self }
    {
        match self {
            Note::True => Some(true),
            Note::False => Some(false),
            Note::NotKnown | Note::NotToKnow => None,
        }
    }
}

impl<'a> Sorts<'a> {
    // Where the notes of a member with this profile begin, if it has any. Where nothing is marked, as for most members, it is the profile.
    #[inline(always)]
    pub(crate) fn place_of(
        self,
        image: &[u8],
        member: Member,
        profile: Option<usize>,
    ) -> Option<usize>
        requires { profile ≡ profile_of image.now self.held member }
        ensures is { result ≡ place_of image.now self.entry member }
        ensures small { IfSome result (λ place. place < NOTES) }
    {
        if self.marked.is_empty() {
            return profile;
        }
        self.marked_place(image, member, profile)
    }

    // The same by the marks too.
    fn marked_place(self, image: &[u8], member: Member, profile: Option<usize>) -> Option<usize>
        requires { (profile ≡ profile_of image.now self.held member) × (0 < length self.marked.now) }
        ensures is { result ≡ place_of image.now self.entry member }
        ensures small { IfSome result (λ place. place < NOTES) }
    {
        let k = profile?;
        let bits = marked::bits(image, self.marked, member)?;
        Some(WAY_NOTES * bits + k)
    }
}

impl<'a> Walk<'a> {
    // Whether there is room for notes.
    pub(crate) fn has_room(&self) -> bool {
        !self.notes.is_empty()
    }

    // Whether the predicate of call i, whose CALL_ARGS are at a place of the tree, is true of a member: as noted, or by asking it.
    pub(crate) fn ask(&mut self, i: usize, args: usize, member: Member) -> bool
        requires { Asking self.old i args }
        ensures { AskedOf self.old i member self.new result }
    {
        if !self.has_room() {
            return self.eval(args, member);
        }
        let image = self.pipeline.image;
        let profile = profile::profile_of(image, self.sorts.held, member);
        let Some(place) = self.sorts.place_of(image, member, profile) else {
            return self.eval(args, member);
        };
        let known = self.noted(i, place);
        if let Some(value) = known.told() {
            return value;
        }
        let value = self.eval(args, member);
        if known == Note::NotKnown {
            self.note(args, member, i, place, value);
        }
        value
    }

    // What is noted of the predicate of call i at a place; where there is no room for a note, that none is to be made.
    #[tactic(auto, unfolding(crate::specs::Memo::note_in))]
    #[inline(always)]
    pub(crate) fn noted(&self, i: usize, place: usize) -> Note
        requires { place < NOTES }
        ensures { result ≡ note_in self.now.notes.now i place }
    {
        if NOTED_CALLS <= i {
            return Note::NotToKnow;
        }
        self.notes
            .get(place + profile::PROFILES * i)
            .copied()
            .unwrap_or(Note::NotToKnow)
    }

    // The predicate whose CALL_ARGS are at a place of the tree, asked of a member.
    fn eval(&self, args: usize, member: Member) -> bool
        ensures { result ≡ truth self.now.pipeline.image.now member (children_at self.now.pipeline.rule.now self.now.pipeline.tree.now args) }
    {
        let Pipeline {
            rule,
            image,
            tree,
            ..
        } = self.pipeline;
        let first = self.pipeline.first;
        if first.at == args {
            return first.is_true(image, member);
        }
        Predicate::new(rule, tree, args).is_true(image, member)
    }

    // Notes the answer of the predicate of call i at a place of which nothing is known, if it is that of every member with the same profile
    // and bits.
    fn note(&mut self, args: usize, member: Member, i: usize, place: usize, value: bool)
        requires { (i < NOTED_CALLS) × (place + PROFILES * i < length self.old.notes.now) }
        ensures same { Stays self.old self.new }
        ensures noted { NotesIt self.old args member i place value self.new }
    {
        let more = self
            .sorts
            .asks_below(self.pipeline.rule, self.pipeline.tree, args, member);
        self.notes[place + profile::PROFILES * i] = Note::of(more, value);
    }
}
