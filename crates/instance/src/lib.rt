// What eval.rs asks of a `SystemInstance`, asked of a board image. Any image, component, feature and text is taken: plain numbers, by which
// every caller has its members.
#![tactic(auto)]

ghost use Rattle.std.specs.Prelude.{◌≡◌, ◌<◌, ℕ, Bool, take};
ghost use Rattle.instance.specs.Instance.{some, component_connected, end_is, feature_connected, owners_wired, has_property, features_end, has_feature};
ghost use Rattle.instance.specs.Places.{PLACES, other_owner, joins_at, is_property_at, feature_is_at, Skipped, Tells, IsOwned, record_passes};
ghost use Rattle.board.specs.Image.{first_feature, record_count};

use board::image;
use board::image::{COMPONENT_SIZE, NUMBER_SIZE, Section, TRIPLE_SIZE};

// The mark of a component that is wired, a number of the image.
const WIRED: u32 = 1;

// Where the second and the third number of a record are, and where the fifth is.
const SECOND: usize = NUMBER_SIZE;

const THIRD: usize = 2 * NUMBER_SIZE;

const FIFTH: usize = 4 * NUMBER_SIZE;

// Whether a component or its parent is wired.
#[tactic(auto, unfolding(crate::specs::Instance::component_connected))]
pub fn component_connected(image: &[u8], component: u32) -> bool
    ensures { result ≡ component_connected image.now component }
{
    if image::wired(image, component) == WIRED {
        return true;
    }
    let parent = image::parent(image, component);
    parent != 0 && image::wired(image, parent - 1) == WIRED
}

// Whether a component's feature is connected: the component is, or a connection joins the feature.
pub fn feature_connected(image: &[u8], component: u32, feature: u32) -> bool
    ensures { result ≡ feature_connected image.now component feature }
{
    if component_connected(image, component) {
        return true;
    }
    let name = image::string(image, image::feature_name(image, feature));
    let other = other_owner(image, component);
    any_owned(image, Section::Connections, component, other, |at| {
        joins(image, component, other, name, at)
    })
}

// Whether the owner of every connection is wired: then a feature is connected where its component is, and nowhere else.
pub fn owners_wired(image: &[u8]) -> bool
    ensures { result ≡ owners_wired image.now }
{
    let connections = image::section_offset(image, Section::Connections) as usize;
    let components = image::section_offset(image, Section::Components) as usize;
    let count = image::record_count(image, Section::Connections) as usize;
    for n in 0..count {
        let owner = image::word(image, connections + TRIPLE_SIZE * n) as usize;
        if image::word(image, components + COMPONENT_SIZE * owner + FIFTH) != WIRED {
            return false;
        }
    }
    true
}

// The parent of a component, which may own its connections too; the component itself where it has none.
#[tactic(auto, unfolding(crate::specs::Places::other_owner))]
fn other_owner(image: &[u8], component: u32) -> u32
    ensures { result ≡ other_owner image.now component }
{
    image::parent(image, component)
        .checked_sub(1)
        .unwrap_or(component)
}

// Whether some record of a section, of three numbers each, passes a test that only those pass whose first number is one of two. Others are
// passed over by `next_owned`, many in a step, so that no range counts the steps.
fn any_owned<F: Fn(usize) -> bool>(
    image: &[u8],
    section: Section,
    one: u32,
    other: u32,
    test: F,
) -> bool
    requires callable { (at : ℕ) → at < PLACES → F.pre test at }
    ensures { (p : ℕ → Bool) → Tells (F.post test) p → IsOwned p image.now one other → result ≡ some (record_passes p image.now section) 0 (record_count image.now section) }
{
    let first = image::section_offset(image, section) as usize;
    let count = image::record_count(image, section) as usize;
    let end = first + TRIPLE_SIZE * count;
    let records = front(image, end);
    let mut at = first;
    while at < end {
        let here = next_owned(records, at, one, other);
        if end <= here {
            return false;
        }
        if test(here) {
            return true;
        }
        at = here + TRIPLE_SIZE;
    }
    false
}

// The image up to a place, as far as it goes.
fn front(image: &[u8], end: usize) -> &[u8]
    ensures { result.now ≡ take end image.now }
{
    &image[..end.min(image.len())]
}

// The place of the next record whose first number is one of two, from a record's place on; where there is none, the first place whose
// number is not there, and no `None`: the record there is asked too, since an image that ends before its records is read as 0. The loop's
// test is that of `image::word`, which so costs nothing.
fn next_owned(records: &[u8], from: usize, one: u32, other: u32) -> usize
    ensures { Skipped records.now one other from result }
{
    if records.len() < NUMBER_SIZE {
        return from;
    }
    let last = records.len() - NUMBER_SIZE;
    let mut at = from;
    while at <= last {
        let owner = image::word(records, at);
        if owner == one {
            return at;
        }
        if owner == other {
            return at;
        }
        at += TRIPLE_SIZE;
    }
    at
}

// Whether the connection at a place is owned by one of two components and has a feature of this name at an end.
#[tactic(auto, unfolding(crate::specs::Places::joins_at))]
fn joins(image: &[u8], component: u32, other: u32, name: &[u8], at: usize) -> bool
    requires { at < PLACES }
    ensures { result ≡ joins_at image.now component other name.now at }
{
    let owner = image::word(image, at);
    if owner != component && owner != other {
        return false;
    }
    end_is(image, image::word(image, at + SECOND), name)
        || end_is(image, image::word(image, at + THIRD), name)
}

// Whether a connection has an end, by its number, and a feature of this name is at it.
#[tactic(auto, unfolding(crate::specs::Instance::end_is))]
fn end_is(image: &[u8], end: u32, name: &[u8]) -> bool
    ensures { result ≡ end_is image.now end name.now }
{
    end != 0 && image::string_is(image, end - 1, name)
}

// Whether a component has a property of this set and name.
pub fn has_property(image: &[u8], component: u32, set: &[u8], name: &[u8]) -> bool
    ensures { result ≡ has_property image.now component set.now name.now }
{
    any_owned(image, Section::Properties, component, component, |at| {
        is_property(image, component, set, name, at)
    })
}

// Whether the property at a place is the component's and of this set and name.
#[tactic(auto, unfolding(crate::specs::Places::is_property_at))]
fn is_property(image: &[u8], component: u32, set: &[u8], name: &[u8], at: usize) -> bool
    requires { at < PLACES }
    ensures { result ≡ is_property_at image.now component set.now name.now at }
{
    image::word(image, at) == component
        && image::string_is(image, image::word(image, at + SECOND), set)
        && image::string_is(image, image::word(image, at + THIRD), name)
}

// Whether a component has a feature of this name.
pub fn has_feature(image: &[u8], component: u32, name: &[u8]) -> bool
    ensures { result ≡ has_feature image.now component name.now }
{
    let first = image::section_offset(image, Section::Features) as usize;
    let (start, end) = features(image, component);
    for n in start..end {
        if feature_is(image, name, first + TRIPLE_SIZE * (n as usize)) {
            return true;
        }
    }
    false
}

// Whether the feature at a place has this name.
#[tactic(auto, unfolding(crate::specs::Places::feature_is_at))]
fn feature_is(image: &[u8], name: &[u8], at: usize) -> bool
    ensures { result ≡ feature_is_at image.now name.now at }
{
    image::string_is(image, image::word(image, at), name)
}

// The features of a component, as far as the features go: the first, and the place past the last.
#[tactic(auto, unfolding(crate::specs::Instance::features_end))]
#[inline(always)]
pub fn features(image: &[u8], component: u32) -> (u32, u32)
    ensures first { result.0 ≡ first_feature image.now component }
    ensures end { result.1 ≡ features_end image.now component }
{
    let first = image::first_feature(image, component);
    let features = image::owned_features(image, component) as usize;
    let count = image::record_count(image, Section::Features) as usize;
    (first, (first as usize + features).min(count) as u32)
}
