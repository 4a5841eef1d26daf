// Which components have a property or a feature of a name, as a mark for each: one pass over the properties, and one over the features,
// where `instance::has_property` takes a pass for each component. Any image, text and slice of marks is taken.
#![tactic(auto)]

ghost use Rattle.std.specs.Prelude.{◌≡◌, ◌-◌, length, set, IfSome, IfNone};
ghost use Rattle.board.specs.Image.{component_count, feature_count, property_component};
ghost use Rattle.instance.specs.Instance.{some, feature_is, has_feature};
ghost use Rattle.marks.specs.Marks.{property_marks, marks_of, featured, feature_marks, NoneBefore};
ghost use Rattle.marks.specs.Marks as meant;

use board::compared::Compared;
use board::image;
use board::image::{Section, TRIPLE_SIZE};
use instance;
use matching::search;

// The mark of a component that has the property, and of one that has the feature alone; 0 is no mark. Marks are bytes, as the memory is
// that a caller lends for them.
const OF_PROPERTY: u8 = 1;

const OF_FEATURE: u8 = 2;

// How many strings are known of those compared with one name.
const KNOWN: usize = 64;

// Marks the components that have the property that a text names.
#[tactic(auto, unfolding(crate::specs::Marks::marks_of))]
pub fn mark_properties(image: &[u8], value: &[u8], marks: &mut [u8])
    ensures { marks.new ≡ marks_of image.now value.now (length marks.old) }
{
    let (set, name) = search::parted(value);
    mark_named(image, set, name, marks);
}

// Marks the components that have no mark yet and have a feature of this name. Features before the first that has it are not asked twice,
// and where none has it no component is looked at.
pub fn mark_features(image: &[u8], name: &[u8], marks: &mut [u8])
    ensures { marks.new ≡ feature_marks image.now name.now (component_count image.now) 0 marks.old }
{
    let mut names = Compared::new(image, name);
    let Some(found) = first_named(&mut names) else {
        return;
    };
    for component in 0..image::record_count(image, Section::Components) {
        mark_feature(&mut names, found, component, marks);
    }
}

// A feature before which none has the name: the first that has it, where there is one.
fn first_named(names: &mut Compared<'_, KNOWN>) -> Option<u32>
    ensures some { IfSome result (λ before. NoneBefore names.old.image.now names.old.bytes.now before) }
    ensures none { IfNone result (NoneBefore names.old.image.now names.old.bytes.now (feature_count names.old.image.now)) }
    ensures names { (names.new.image ≡ names.old.image) × (names.new.bytes ≡ names.old.bytes) }
{
    let image = names.image;
    let features = image::section_offset(image, Section::Features) as usize;
    for feature in 0..image::record_count(image, Section::Features) {
        if names.is(image::word(image, features + TRIPLE_SIZE * (feature as usize))) {
            return Some(feature);
        }
    }
    None
}

// Marks a component if it has no mark yet and has a feature of the name, which no feature before one has.
fn mark_feature(names: &mut Compared<'_, KNOWN>, before: u32, component: u32, marks: &mut [u8])
    requires { NoneBefore names.old.image.now names.old.bytes.now before }
    ensures marks { marks.new ≡ featured names.old.image.now names.old.bytes.now component marks.old }
    ensures names { (names.new.image ≡ names.old.image) × (names.new.bytes ≡ names.old.bytes) }
{
    let place = component as usize;
    if place < marks.len() && marks[place] == 0 && has_feature(names, before, component) {
        marks[place] = OF_FEATURE;
    }
}

// Whether a component has a feature of the name, which no feature before one has.
fn has_feature(names: &mut Compared<'_, KNOWN>, before: u32, component: u32) -> bool
    requires { NoneBefore names.old.image.now names.old.bytes.now before }
    ensures has { result ≡ has_feature names.old.image.now component names.old.bytes.now }
    ensures names { (names.new.image ≡ names.old.image) × (names.new.bytes ≡ names.old.bytes) }
{
    let (first, end) = instance::features(names.image, component);
    some_named(names, first.max(before), end)
}

// Whether a feature from one on and before another has the name.
#[inline(always)]
fn some_named(names: &mut Compared<'_, KNOWN>, first: u32, end: u32) -> bool
    ensures some { result ≡ some (feature_is names.old.image.now names.old.bytes.now) first (end - first) }
    ensures names { (names.new.image ≡ names.old.image) × (names.new.bytes ≡ names.old.bytes) }
{
    let image = names.image;
    let features = image::section_offset(image, Section::Features) as usize;
    for feature in first..end {
        let string = image::word(image, features + TRIPLE_SIZE * (feature as usize));
        if names.is(string) {
            return true;
        }
    }
    false
}

// Marks the components that have a property of this set and name.
fn mark_named(image: &[u8], set: &[u8], name: &[u8], marks: &mut [u8])
    ensures { marks.new ≡ property_marks image.now set.now name.now 0 (length marks.old) }
{
    marks.fill(0);
    let mut sets = Compared::<'_, KNOWN>::new(image, set);
    let mut names = Compared::<'_, KNOWN>::new(image, name);
    for n in 0..image::record_count(image, Section::Properties) {
        if sets.is(image::property_set(image, n)) && names.is(image::property_name(image, n)) {
            mark_owner(image, n, marks);
        }
    }
}

// Marks the component of a property.
fn mark_owner(image: &[u8], property: u32, marks: &mut [u8])
    ensures { marks.new ≡ set marks.old (property_component image.now property) meant.OF_PROPERTY }
{
    let owner = image::property_component(image, property) as usize;
    if owner < marks.len() {
        marks[owner] = OF_PROPERTY;
    }
}
