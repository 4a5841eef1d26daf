// The board image, checked: refusals 5 to 8. Nothing is altered. Each section is passed over once; the strings once more where their
// letters are not ASCII alone.
#![tactic(auto)]

pub mod compared;
pub mod image;

ghost use Rattle.std.specs.Prelude.{◌≡◌, true, ◌+◌, ◌*◌, ◌≤◌, length};
ghost use Rattle.board.specs.Image.{COMPONENT_SIZE, TRIPLE_SIZE, record_size};
ghost use Rattle.board.specs.Check.{each, whole_records, all_whole_records, sections_laid, sections_fit, strings_laid, strings_utf8, strings_fit, components_fit, features_fit, connections_fit, properties_fit, diagnostics_fit, records_fit, collection_short, check_image};
ghost use Rattle.board.specs.CheckScan.{component_at, below_at, all_below};
ghost use Rattle.board.specs.CheckScan as meant;

use image::{Component, Section};
use syntax::refusal::Refusal;
use syntax::utf8;

// The most bytes that an image may have, how many sections it has, and the bytes of their pairs, which are the fewest.
pub const MAX_IMAGE: usize = 65536;

const SECTIONS: usize = 7;

const PAIRS_SIZE: usize = 56;

// How many categories, feature kinds, directions, severities and wired marks there are.
pub const CATEGORIES: u32 = 14;

pub const FEATURE_KINDS: u32 = 10;

pub const DIRECTIONS: u32 = 4;

pub const SEVERITIES: u32 = 3;

const WIRED_MARKS: u32 = 2;

// The numbers of a row of the collection table.
pub const COLLECTION_ROW: usize = 2;

// Refusals 5 to 8, in their order, of an image and the length of the collection table.
#[tactic(auto, unfolding(crate::specs::Check::check_image))]
pub fn check_image(image: &[u8], collection: usize) -> Result<(), Refusal>
    ensures { result ≡ check_image image.now collection }
{
    if !sections_fit(image) {
        return Err(Refusal::ImageBadSections);
    }
    let sectioned = Sectioned { image };
    if !sectioned.strings_fit() {
        return Err(Refusal::ImageBadStrings);
    }
    if !sectioned.records_fit() {
        return Err(Refusal::ImageBadRecords);
    }
    if collection_short(image, collection) {
        return Err(Refusal::CollectionTooShort);
    }
    Ok(())
}

// Whether the image's length, the pairs of its sections and the sections' lengths are as they should be: refusal 5 does not come.
#[tactic(auto, unfolding(crate::specs::Check::sections_fit))]
fn sections_fit(image: &[u8]) -> bool
    ensures { result ≡ sections_fit image.now }
{
    PAIRS_SIZE <= image.len()
        && image.len() <= MAX_IMAGE
        && sections_laid(image)
        && all_whole_records(image)
}

// Whether the sections lie end to end from the pairs' end to the image's. Strings and features do too: three loops, as each reads its pairs
// elsewhere, and the one over components tests the record on its way.
fn sections_laid(image: &[u8]) -> bool
    ensures { result ≡ sections_laid image.now }
{
    let mut end = PAIRS_SIZE;
    for n in 0..SECTIONS {
        let pair = image::PAIR_SIZE * n;
        let offset = image::word(image, pair) as usize;
        let length = image::word(image, pair + image::NUMBER_SIZE) as usize;
        if offset != end {
            return false;
        }
        end = offset + length;
    }
    end == image.len()
}

// Whether each section that has records is whole records.
#[tactic(auto, unfolding(crate::specs::Check::all_whole_records))]
fn all_whole_records(image: &[u8]) -> bool
    ensures { result ≡ all_whole_records image.now }
{
    whole_records(image, Section::Strings)
        && whole_records(image, Section::Components)
        && whole_records(image, Section::Features)
        && whole_records(image, Section::Connections)
        && whole_records(image, Section::Properties)
        && whole_records(image, Section::Diagnostics)
}

fn whole_records(image: &[u8], section: Section) -> bool
    ensures { result ≡ whole_records image.now section }
{
    image::section_length(image, section) % image::record_size(section) == 0
}

// An image for which refusal 5 does not come: it holds each record that its sections count.
#[derive(Clone, Copy)]
struct Sectioned<'a> {
    image: &'a [u8],
    ghost fit: { sections_fit image.now ≡ true },
}

impl<'a> Sectioned<'a> {
    // Whether the strings lie end to end over the letters and each is UTF-8: refusal 6 does not come. Where the letters are ASCII alone,
    // no string is looked at.
    fn strings_fit(self) -> bool
        ensures { result ≡ strings_fit self.entry.image.now }
    {
        if !self.strings_laid() {
            return false;
        }
        let from = image::section_offset(self.image, Section::Letters) as usize;
        let end = from + image::section_length(self.image, Section::Letters) as usize;
        utf8::is_ascii(&self.image[from..end]) || self.strings_utf8()
    }

    // Whether the strings lie end to end over the letters.
    fn strings_laid(self) -> bool
        ensures { result ≡ strings_laid self.entry.image.now }
    {
        let image = self.image;
        let letters = image::section_length(image, Section::Letters) as usize;
        let first = image::section_offset(image, Section::Strings) as usize;
        let mut next = 0;
        for n in 0..image::record_count(image, Section::Strings) as usize {
            let at = first + image::PAIR_SIZE * n;
            let offset = image::number_at(image, at, image::STRING_OFFSET) as usize;
            let length = image::number_at(image, at, image::STRING_LENGTH) as usize;
            if offset != next {
                return false;
            }
            next = offset + length;
        }
        next == letters
    }

    // Whether each string is UTF-8, of strings that lie in the letters. Inlined, it makes the loop of `strings_laid` slower,
    // and so the check of a board of ASCII alone, by up to a twentieth.
    #[inline(never)]
    fn strings_utf8(self) -> bool
        requires { strings_laid self.image.now ≡ true }
        ensures { result ≡ strings_utf8 self.entry.image.now }
    {
        let image = self.image;
        let letters = image::section_offset(image, Section::Letters) as usize;
        let first = image::section_offset(image, Section::Strings) as usize;
        let count = image::record_count(image, Section::Strings) as usize;
        for n in 0..count {
            let at = first + image::PAIR_SIZE * n;
            let from = letters + image::number_at(image, at, image::STRING_OFFSET) as usize;
            let end = from + image::number_at(image, at, image::STRING_LENGTH) as usize;
            if !utf8::is_utf8(&image[from..end]) {
                return false;
            }
        }
        true
    }

    // Whether every number of a record is within its range or table: refusal 7 does not come.
    #[tactic(auto, unfolding(crate::specs::Check::records_fit))]
    fn records_fit(self) -> bool
        ensures { result ≡ records_fit self.entry.image.now }
    {
        self.components_fit()
            && self.features_fit()
            && self.connections_fit()
            && self.properties_fit()
            && self.diagnostics_fit()
    }

    // Category, parent and wired of each component, and that the components' features lie end to end over the features. It is not inlined,
    // so that its loop has the registers for itself: beside the other sections' it takes a fifth more for a component.
    #[inline(never)]
    fn components_fit(self) -> bool
        ensures { result ≡ components_fit self.entry.image.now }
    {
        let image = self.image;
        let components = image::record_count(image, Section::Components);
        let features = image::record_count(image, Section::Features) as usize;
        let start = image::section_offset(image, Section::Components) as usize;
        let mut next = 0;
        for n in 0..components as usize {
            let at = start + image::COMPONENT_SIZE * n;
            let first = image::number_at(image, at, Component::FirstFeature as u32) as usize;
            let count = image::number_at(image, at, Component::Features as u32) as usize;
            if first != next || !component_fits(image, at, components) {
                return false;
            }
            next = first + count;
        }
        next == features
    }

    // Name, kind and direction of each feature.
    fn features_fit(self) -> bool
        ensures { result ≡ features_fit self.entry.image.now }
    {
        let strings = image::record_count(self.image, Section::Strings);
        self.all_below(Section::Features, strings, FEATURE_KINDS, DIRECTIONS)
    }

    // Owner, source and target of each connection.
    fn connections_fit(self) -> bool
        ensures { result ≡ connections_fit self.entry.image.now }
    {
        let components = image::record_count(self.image, Section::Components);
        let strings = image::record_count(self.image, Section::Strings);
        self.all_below(Section::Connections, components, strings + 1, strings + 1)
    }

    // Component, set and name of each property.
    fn properties_fit(self) -> bool
        ensures { result ≡ properties_fit self.entry.image.now }
    {
        let components = image::record_count(self.image, Section::Components);
        let strings = image::record_count(self.image, Section::Strings);
        self.all_below(Section::Properties, components, strings, strings)
    }

    // Analysis, severity and message of each diagnostic.
    fn diagnostics_fit(self) -> bool
        ensures { result ≡ diagnostics_fit self.entry.image.now }
    {
        let strings = image::record_count(self.image, Section::Strings);
        self.all_below(Section::Diagnostics, strings, SEVERITIES, strings)
    }

    // Whether the three numbers of each record are below their limits.
    fn all_below(self, section: Section, first: u32, second: u32, third: u32) -> bool
        requires { record_size section ≡ TRIPLE_SIZE }
        ensures { result ≡ all_below self.entry.image.now section first second third }
    {
        let start = image::section_offset(self.image, section) as usize;
        let count = image::record_count(self.image, section) as usize;
        triples_below(self.image, start, count, first, second, third)
    }
}

// Category, parent and wired of the component whose record begins at a place.
fn component_fits(image: &[u8], at: usize, components: u32) -> bool
    requires { at + COMPONENT_SIZE ≤ length image.now }
    ensures { result ≡ component_at image.now at components }
{
    image::number_at(image, at, Component::Category as u32) < CATEGORIES
        && image::number_at(image, at, Component::Parent as u32) <= components
        && image::number_at(image, at, Component::Wired as u32) < WIRED_MARKS
}

// Whether the three numbers of each of so many records from a place on are below their limits.
fn triples_below(
    image: &[u8],
    start: usize,
    count: usize,
    first: u32,
    second: u32,
    third: u32,
) -> bool
    requires { start + TRIPLE_SIZE * count ≤ length image.now }
    ensures { result ≡ each (λ n. below_at image.now (start + TRIPLE_SIZE * n) first second third) 0 count }
{
    (0..count).all(|n| is_below(image, start + image::TRIPLE_SIZE * n, first, second, third))
}

// The same of the record that begins at a place.
fn is_below(image: &[u8], at: usize, first: u32, second: u32, third: u32) -> bool
    requires { at + TRIPLE_SIZE ≤ length image.now }
    ensures { result ≡ below_at image.now at first second third }
{
    image::number_at(image, at, 0) < first
        && image::number_at(image, at, 1) < second
        && image::number_at(image, at, 2) < third
}

// Whether the collection table has fewer rows than a collection of this board can have members: refusal 8 comes.
#[tactic(auto, unfolding(crate::specs::Check::collection_short))]
fn collection_short(image: &[u8], collection: usize) -> bool
    ensures { result ≡ collection_short image.now collection }
{
    let rows = collection / COLLECTION_ROW;
    let components = image::record_count(image, Section::Components) as usize;
    let features = image::record_count(image, Section::Features) as usize;
    let diagnostics = image::record_count(image, Section::Diagnostics) as usize;
    rows < components + features || rows < diagnostics
}
