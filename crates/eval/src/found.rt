// What becomes of the members of each profile, as far as it was found: a loop over members keeps it, so that most members cost a look at
// the board and one here. Where something is marked nothing is found, as members with one profile are then not all alike.
ghost use Rattle.std.specs.Prelude.{◌≡◌, [], ◌∷◌};
ghost use Rattle.profile.specs.Profile.{profile_of};
ghost use Rattle.eval.specs.Found.{step_of, step_by, FoundSo};
ghost use Rattle.eval.specs.Walk.{SoundOf, Sending, Sent};

use crate::step::Step;
use crate::walk::Walk;
use predicate::atom::Member;
use profile;

// What was found of the members with a profile: nothing yet, that each is to be asked, or what becomes of each.
#[derive(Clone, Copy)]
pub(crate) enum Found {
    Nothing,
    Asked,
    Told(Step),
}

impl Found {
    // What becomes of the members, if that was found.
    #[inline(always)]
    fn step(self) -> Option<Step>
        ensures { result ≡ step_of self }
    {
        match self {
            Found::Told(step) => Some(step),
            Found::Nothing | Found::Asked => None,
        }
    }
}

// What was found of each profile.
#[derive(Clone, Copy)]
pub(crate) struct Profiles {
    found: [Found; profile::PROFILES],
}

impl Profiles {
    // Nothing was found yet.
    pub(crate) const NONE: Profiles = Profiles {
        found: [Found::Nothing; profile::PROFILES],
    };

    // What becomes of the members with a profile, if that was found.
    #[inline(always)]
    fn step(&self, profile: Option<usize>) -> Option<Step>
        ensures { result ≡ step_by self.now.found profile }
    {
        let k = profile?;
        let Some(found) = self.found.get(k) else {
            return None;
        };
        found.step()
    }
}

impl<'a> Walk<'a> {
    // Sends one member whose profile is at hand: as was found, or by asking.
    #[inline(always)]
    pub(crate) fn send_as_found(
        &mut self,
        i: usize,
        member: Member,
        profile: Option<usize>,
        profiles: &mut Profiles,
    )
        requires member { Sending self.old i (member ∷ []) × (profile ≡ profile_of self.old.pipeline.image.now self.old.sorts.held member) }
        requires found { FoundSo self.old i profiles.old.found }
        ensures sent { Sent self.old i (member ∷ []) self.new }
        ensures found { FoundSo self.new i profiles.new.found }
    {
        match profiles.step(profile) {
            Some(step) => self.take(step, member),
            None => self.find_out(i, member, profile, profiles),
        }
    }

    // Sends one member by asking, and finds what becomes of those with its profile.
    #[inline(never)]
    fn find_out(
        &mut self,
        i: usize,
        member: Member,
        profile: Option<usize>,
        profiles: &mut Profiles,
    )
        requires member { Sending self.old i (member ∷ []) }
        requires found { FoundSo self.old i profiles.old.found }
        ensures sent { Sent self.old i (member ∷ []) self.new }
        ensures found { FoundSo self.new i profiles.new.found }
    {
        self.feed(i, member);
        self.find_step(i, profile, profiles);
    }

    // Finds what becomes of the members with a profile, if it was not looked for yet.
    fn find_step(&self, i: usize, profile: Option<usize>, profiles: &mut Profiles)
        requires { SoundOf self.now.pipeline self.now.sorts self.now.notes.now × FoundSo self.now i profiles.old.found }
        ensures { FoundSo self.now i profiles.new.found }
    {
        let Some(k) = profile else {
            return;
        };
        if !self.sorts.marked.is_empty() || profile::PROFILES <= k {
            return;
        }
        if let Found::Nothing = profiles.found[k] {
            profiles.found[k] = match self.step_of(i, k) {
                Some(step) => Found::Told(step),
                None => Found::Asked,
            };
        }
    }
}
