// Members listed or counted where no predicate is asked.
ghost use Rattle.std.specs.Prelude.{◌≡◌, ◌+◌, ◌*◌, ◌≤◌, length};
ghost use Rattle.board.specs.Check.{COLLECTION_ROW};
ghost use Rattle.meaning.specs.Calls.{features_of};
ghost use Rattle.eval.specs.Listed.{every_component, every_feature, Lists};
ghost use Rattle.eval.specs.Walk.{every_of_analysis};

use crate::walk;
use board::compared::Compared;
use board::image;
use board::image::Section;
use instance;
use predicate::atom::Member;

// The name of an analysis compared with those of a board's, of which this many are known: many diagnostics are asked, and few analyses made
// them.
pub(crate) type Names<'a> = Compared<'a, 8>;

// Writes the rows of all components, and gives their number.
pub(crate) fn list_components(image: &[u8], collection: &mut [u32]) -> usize
    requires { COLLECTION_ROW * length (every_component image.now) ≤ length collection.old }
    ensures { Lists (every_component image.now) 0 collection.old collection.new result }
{
    let count = image::record_count(image, Section::Components);
    for component in 0..count {
        walk::put_member(collection, component as usize, Member::Component(component));
    }
    count as usize
}

// Writes the rows of the features of all components, and gives their number.
pub(crate) fn list_owned(image: &[u8], collection: &mut [u32]) -> usize
    requires { COLLECTION_ROW * length (every_feature image.now) ≤ length collection.old }
    ensures { Lists (every_feature image.now) 0 collection.old collection.new result }
{
    let count = image::record_count(image, Section::Components);
    let mut row = 0;
    for component in 0..count {
        row = list_features(image, component, row, collection);
    }
    row
}

// Writes the rows of a component's features from a row on, and gives the row after them.
fn list_features(image: &[u8], component: u32, first: usize, collection: &mut [u32]) -> usize
    requires { COLLECTION_ROW * (first + length (features_of image.now component)) ≤ length collection.old }
    ensures { Lists (features_of image.now component) first collection.old collection.new result }
{
    let (start, end) = instance::features(image, component);
    let mut row = first;
    for feature in start..end {
        walk::put_member(collection, row, Member::Feature(component, feature));
        row += 1;
    }
    row
}

// How many features all components have.
pub(crate) fn count_owned(image: &[u8]) -> usize
    ensures { result ≡ length (every_feature image.now) }
{
    let count = image::record_count(image, Section::Components);
    let mut features = 0;
    for component in 0..count {
        features += count_features(image, component) as usize;
    }
    features
}

// How many features a component has.
fn count_features(image: &[u8], component: u32) -> u32
    ensures { result ≡ length (features_of image.now component) }
{
    let (first, end) = instance::features(image, component);
    end.saturating_sub(first)
}

// Writes the rows of the diagnostics of the analysis with this name, and gives their number.
pub(crate) fn list_diagnostics(image: &[u8], name: &[u8], collection: &mut [u32]) -> usize
    requires { COLLECTION_ROW * length (every_of_analysis image.now name.now) ≤ length collection.old }
    ensures { Lists (every_of_analysis image.now name.now) 0 collection.old collection.new result }
{
    let count = image::record_count(image, Section::Diagnostics);
    let mut names = Names::new(image, name);
    let mut row = 0;
    for diagnostic in 0..count {
        if names.is(image::analysis(image, diagnostic)) {
            walk::put_member(collection, row, Member::Diagnostic(diagnostic));
            row += 1;
        }
    }
    row
}

// How many diagnostics are of the analysis with this name.
pub(crate) fn count_diagnostics(image: &[u8], name: &[u8]) -> usize
    ensures { result ≡ length (every_of_analysis image.now name.now) }
{
    let count = image::record_count(image, Section::Diagnostics);
    let mut names = Names::new(image, name);
    let mut diagnostics = 0;
    for diagnostic in 0..count {
        if names.is(image::analysis(image, diagnostic)) {
            diagnostics += 1;
        }
    }
    diagnostics
}
