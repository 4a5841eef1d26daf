// `eval_source`: the members of a source, each sent through the calls: as was found of its profile (`found`) where nothing is marked, as
// the notes tell (`walk`) where something is, and by asking where there are few. Diagnostics are sent if their analysis has the name asked
// for.
ghost use Rattle.std.specs.Prelude.{◌≡◌, true, [], ◌∷◌};
ghost use Rattle.meaning.specs.declared.Method.TheVariants.{Features};
ghost use Rattle.eval.specs.Ready.{IsCall};
ghost use Rattle.eval.specs.Listed.{every_component};
ghost use Rattle.eval.specs.Found.{FoundSo};
ghost use Rattle.meaning.specs.Calls.{features_of};
ghost use Rattle.eval.specs.Walk.{every_of_analysis, SendsAll, SentAll, Sending, Sent};

use crate::context::Pipeline;
use crate::found::Profiles;
use crate::listed::Names;
use crate::marked::{Marked, Sorts};
use crate::memo::Note;
use crate::ready::Call;
use crate::walk::{Tally, Walk};
use crate::{held, listed, marked, memo, ready};
use board::image;
use board::image::Section;
use instance;
use meaning::Method;
use predicate::atom::Member;
use profile;
use profile::Held;
use syntax::kind::Kind;

// On a board with fewer components nothing is noted of them where their category is compared.
const NOTED_BOARD: u32 = 14;

// On a board with fewer nothing is noted of them where a `has` is asked, which needs marks.
const MARKED_BOARD: u32 = 32;

impl<'a> Pipeline<'a> {
    // `components`: every component of the board. Where there is no call all have rows, and a first call `count` gives their number; so it
    // is with their features, where `features` comes first.
    pub(crate) fn feed_components(self, collection: &mut [u32]) -> Tally
        requires { SendsAll self (every_component self.image.now) collection.old }
        ensures { SentAll self.entry (every_component self.entry.image.now) collection.old collection.new result }
    {
        let Some(first) = ready::nth(self.calls, 0) else {
            return tally_of(listed::list_components(self.image, collection));
        };
        if first.method == Method::Count {
            return tally_of(image::record_count(self.image, Section::Components) as usize);
        }
        if first.method == Method::Features {
            return self.feed_owned_features(collection);
        }
        self.feed_noted(collection)
    }

    // The same where `features` comes first.
    fn feed_owned_features(self, collection: &mut [u32]) -> Tally
        requires { SendsAll self (every_component self.image.now) collection.old × IsCall self.calls.now 0 Features }
        ensures { SentAll self.entry (every_component self.entry.image.now) collection.old collection.new result }
    {
        let Some(second) = ready::nth(self.calls, 1) else {
            return tally_of(listed::list_owned(self.image, collection));
        };
        if second.method == Method::Count {
            return tally_of(listed::count_owned(self.image));
        }
        self.feed_noted(collection)
    }

    // Sends every component through the calls: with notes where there are enough members, and with marks where a `has` may be asked.
    fn feed_noted(self, collection: &mut [u32]) -> Tally
        requires { SendsAll self (every_component self.image.now) collection.old }
        ensures { SentAll self.entry (every_component self.entry.image.now) collection.old collection.new result }
    {
        let asks_has = marked::next_row(self.tree, Kind::CallExpr, 0).is_some();
        if self.has_few(asks_has) {
            return self.feed_few(collection);
        }
        if asks_has {
            return self.feed_marked(collection);
        }
        let mut notes = [Note::NotKnown; memo::WAY_NOTES];
        let sorts = Sorts {
            held: self.held(),
            marked: &[],
        };
        let mut walk = Walk::new(self, collection, sorts, &mut notes);
        if begins_with_features(self.calls) {
            walk.send_each_feature();
        } else {
            walk.send_each_component();
        }
        walk.tally
    }

    // Whether there are too few members for notes: a `has` is told by marks alone, and of few components hardly two have the same category.
    fn has_few(&self, asks_has: bool) -> bool {
        let components = image::record_count(self.image, Section::Components);
        if asks_has {
            return components < MARKED_BOARD;
        }
        components < NOTED_BOARD
            && !held::asks_features(self.calls)
            && marked::next_row(self.tree, Kind::CompareExpr, 0).is_some()
    }

    // Sends every component through the calls, and notes nothing of them: each is asked.
    fn feed_few(self, collection: &mut [u32]) -> Tally
        requires { SendsAll self (every_component self.image.now) collection.old }
        ensures { SentAll self.entry (every_component self.entry.image.now) collection.old collection.new result }
    {
        let sorts = Sorts {
            held: Held::default(),
            marked: &[],
        };
        let mut walk = Walk::new(self, collection, sorts, &mut []);
        walk.feed_each_component();
        walk.tally
    }

    // Sends every component through the calls, with the marks made.
    fn feed_marked(self, collection: &mut [u32]) -> Tally
        requires { SendsAll self (every_component self.image.now) collection.old }
        ensures { SentAll self.entry (every_component self.entry.image.now) collection.old collection.new result }
    {
        let mut notes = [Note::NotKnown; memo::NOTES];
        let mut marked = [Marked::NONE; marked::HASES];
        let rows = self.make_marks(&mut marked);
        let sorts = Sorts {
            held: self.held(),
            marked: &marked[..rows],
        };
        let mut walk = Walk::new(self, collection, sorts, &mut notes);
        walk.feed_each_component();
        walk.tally
    }

    // `analysis('name')`: the diagnostics of the analysis with this name. Where there is no call all have rows, and a first call `count`
    // gives their number.
    pub(crate) fn feed_diagnostics(self, name: &[u8], collection: &mut [u32]) -> Tally
        requires { SendsAll self (every_of_analysis self.image.now name.now) collection.old }
        ensures { SentAll self.entry (every_of_analysis self.entry.image.now name.now) collection.old collection.new result }
    {
        let Some(first) = ready::nth(self.calls, 0) else {
            return tally_of(listed::list_diagnostics(self.image, name, collection));
        };
        if first.method == Method::Count {
            return tally_of(listed::count_diagnostics(self.image, name));
        }
        self.feed_noted_diagnostics(name, collection)
    }

    // Sends every diagnostic of the analysis through the calls, with notes. It is not inlined, so that its loop has the registers for
    // itself.
    #[inline(never)]
    fn feed_noted_diagnostics(self, name: &[u8], collection: &mut [u32]) -> Tally
        requires { SendsAll self (every_of_analysis self.image.now name.now) collection.old }
        ensures { SentAll self.entry (every_of_analysis self.entry.image.now name.now) collection.old collection.new result }
    {
        let mut notes = [Note::NotKnown; memo::WAY_NOTES];
        let sorts = Sorts {
            held: Held::default(),
            marked: &[],
        };
        let mut walk = Walk::new(self, collection, sorts, &mut notes);
        walk.feed_each_diagnostic(name);
        walk.tally
    }
}

// Whether the first call is `features`.
fn begins_with_features(calls: &[Call]) -> bool
    ensures { result ≡ true → IsCall calls.now 0 Features }
{
    ready::nth(calls, 0).is_some_and(|call| call.method == Method::Features)
}

// So many members arrived, and no predicate was asked.
fn tally_of(arrived: usize) -> Tally
    ensures { result ≡ record { arrived = arrived; passed = 0 } }
{
    Tally { arrived, passed: 0 }
}

impl<'a> Walk<'a> {
    // Sends every component through the calls.
    fn feed_each_component(&mut self)
        requires { Sending self.old 0 (every_component self.old.pipeline.image.now) }
        ensures { Sent self.old 0 (every_component self.old.pipeline.image.now) self.new }
    {
        let count = image::record_count(self.pipeline.image, Section::Components);
        for component in 0..count {
            self.feed_component(component);
            if self.is_decided() {
                return;
            }
        }
    }

    // Sends every component through the calls, as was found of its profile.
    fn send_each_component(&mut self)
        requires { Sending self.old 0 (every_component self.old.pipeline.image.now) }
        ensures { Sent self.old 0 (every_component self.old.pipeline.image.now) self.new }
    {
        let image = self.pipeline.image;
        let held = self.sorts.held;
        let count = image::record_count(image, Section::Components);
        let mut profiles = Profiles::NONE;
        for component in 0..count {
            let profile = profile::component_profile(image, held, component);
            self.send_as_found(0, Member::Component(component), profile, &mut profiles);
            if self.is_decided() {
                return;
            }
        }
    }

    // Sends the features of every component through the calls after the first, as was found of their profiles.
    fn send_each_feature(&mut self)
        requires { Sending self.old 0 (every_component self.old.pipeline.image.now) × IsCall self.old.pipeline.calls.now 0 Features }
        ensures { Sent self.old 0 (every_component self.old.pipeline.image.now) self.new }
    {
        let count = image::record_count(self.pipeline.image, Section::Components);
        let mut profiles = Profiles::NONE;
        for component in 0..count {
            self.send_features(component, &mut profiles);
            if self.is_decided() {
                return;
            }
        }
    }

    // Sends the features of a component.
    #[inline(always)]
    fn send_features(&mut self, component: u32, profiles: &mut Profiles)
        requires { Sending self.old 1 (features_of self.old.pipeline.image.now component) × FoundSo self.old 1 profiles.old.found }
        ensures { Sent self.old 1 (features_of self.old.pipeline.image.now component) self.new × FoundSo self.new 1 profiles.new.found }
    {
        let image = self.pipeline.image;
        let held = self.sorts.held;
        let (first, end) = instance::features(image, component);
        let owner = profile::component_profile(image, held, component);
        for feature in first..end {
            let profile = profile::owned_profile(image, held, owner, feature);
            self.send_as_found(1, Member::Feature(component, feature), profile, profiles);
            if self.is_decided() {
                return;
            }
        }
    }

    // Sends one component: its features where they are asked for first; by asking where nothing is noted; else as the notes tell.
    fn feed_component(&mut self, component: u32)
        requires { Sending self.old 0 (Member.Component component ∷ []) }
        ensures { Sent self.old 0 (Member.Component component ∷ []) self.new }
    {
        let member = Member::Component(component);
        if !self.has_room() {
            return self.feed(0, member);
        }
        if begins_with_features(self.pipeline.calls) {
            return self.feed_features(1, component);
        }
        let profile = profile::component_profile(self.pipeline.image, self.sorts.held, component);
        self.send(0, member, profile);
    }

    // Sends every diagnostic of the analysis with this name.
    fn feed_each_diagnostic(&mut self, name: &[u8])
        requires { Sending self.old 0 (every_of_analysis self.old.pipeline.image.now name.now) }
        ensures { Sent self.old 0 (every_of_analysis self.old.pipeline.image.now name.now) self.new }
    {
        let image = self.pipeline.image;
        let count = image::record_count(image, Section::Diagnostics);
        let mut names = Names::new(image, name);
        let mut profiles = Profiles::NONE;
        for diagnostic in 0..count {
            if !names.is(image::analysis(image, diagnostic)) {
                continue;
            }
            let profile = profile::diagnostic_profile(image, diagnostic);
            self.send_as_found(0, Member::Diagnostic(diagnostic), profile, &mut profiles);
            if self.is_decided() {
                return;
            }
        }
    }
}
