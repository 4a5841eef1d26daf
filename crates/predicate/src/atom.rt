// The atoms of predicates: `connected`, `has('..')`, `field == '..'` and `message.contains('..')`, of one member of a board.
ghost use Rattle.std.specs.Prelude.{◌≡◌};
ghost use Rattle.syntax.specs.Kind.{BINARY_EXPR, UNARY_EXPR, PAREN_EXPR};
ghost use Rattle.syntax.specs.Kinds.{number};
ghost use Rattle.predicate.specs.Truth.{connected, has_property_of, has, compares, message_contains};
ghost use Rattle.predicate.specs.Rows.{kind_at};
ghost use Rattle.predicate.specs.Atoms.{atom_truth, AtomAt};

use crate::node;
use board::image;
use instance;
use matching;
use matching::search;
use syntax::kind::Kind;
use syntax::text;

// A member of a collection: a component, a component's feature, or a diagnostic, by their indexes on the board.
#[derive(Clone, Copy)]
pub enum Member {
    Component(u32),
    Feature(u32, u32),
    Diagnostic(u32),
}

// An atom with its texts; `Other` is what is none, and false.
#[derive(Clone, Copy)]
pub(crate) enum Atom<'a> {
    Connected,
    Has(&'a [u8]),
    MessageContains(&'a [u8]),
    Compares(&'a [u8], &'a [u8]),
    Other,
}

impl<'a> Atom<'a> {
    // The atom whose row is at a place and is of this kind.
    #[tactic(auto, using(crate::proofs::AtomLaws::atom_connected, crate::proofs::AtomLaws::atom_has, crate::proofs::AtomLaws::atom_contains, crate::proofs::AtomLaws::atom_compares, crate::proofs::AtomLaws::atom_other))]
    #[inline(always)]
    pub(crate) fn find(rule: &'a [u8], tree: &[u32], kind: Kind, at: usize) -> Atom<'a>
        requires kind { number kind ≡ kind_at tree.now at }
        requires atom { (kind_at tree.now at ≡ BINARY_EXPR → ⊥) × (kind_at tree.now at ≡ UNARY_EXPR → ⊥) × (kind_at tree.now at ≡ PAREN_EXPR → ⊥) }
        ensures { AtomAt rule.now tree.now at result }
    {
        match kind {
            Kind::IdentExpr => Atom::Connected,
            Kind::CallExpr => Atom::Has(node::find_string_literal(rule, tree, at)),
            Kind::ContainsExpr => {
                Atom::MessageContains(node::find_string_literal(rule, tree, at))
            }
            Kind::CompareExpr => Atom::Compares(
                node::ident(rule, tree, at),
                node::find_string_literal(rule, tree, at),
            ),
            _ => Atom::Other,
        }
    }

    // Whether it is true of a member.
    #[tactic(auto, unfolding(crate::specs::Atoms::atom_truth))]
    #[inline(always)]
    pub(crate) fn is_true(self, image: &[u8], member: Member) -> bool
        ensures { result ≡ atom_truth image.now member self.entry }
    {
        match self {
            Atom::Connected => member.connected(image),
            Atom::Has(value) => member.has(image, value),
            Atom::MessageContains(value) => member.message_contains(image, value),
            Atom::Compares(field, value) => member.compares(image, field, value),
            Atom::Other => false,
        }
    }
}

impl Member {
    // `connected`, which is false of a diagnostic.
    #[tactic(auto, unfolding(crate::specs::Truth::connected))]
    fn connected(self, image: &[u8]) -> bool
        ensures { result ≡ connected image.now self }
    {
        match self {
            Member::Component(component) => instance::component_connected(image, component),
            Member::Feature(component, feature) => instance::feature_connected(
                image, component, feature,
            ),
            Member::Diagnostic(_) => false,
        }
    }

    // `has('..')`: of a component by its properties or its features' names, of a feature by its owner's properties, of no diagnostic.
    #[tactic(auto, unfolding(crate::specs::Truth::has))]
    fn has(self, image: &[u8], value: &[u8]) -> bool
        ensures { result ≡ has image.now self value.now }
    {
        match self {
            Member::Component(component) => {
                has_property_of(image, component, value)
                    || instance::has_feature(image, component, value)
            }
            Member::Feature(component, _) => has_property_of(image, component, value),
            Member::Diagnostic(_) => false,
        }
    }

    // `field == '..'`, which is false of a field that the member does not have.
    #[tactic(auto, unfolding(crate::specs::Truth::compares))]
    fn compares(self, image: &[u8], field: &[u8], value: &[u8]) -> bool
        ensures { result ≡ compares image.now self field.now value.now }
    {
        match self {
            Member::Component(component) => category_is(image, component, field, value),
            Member::Feature(component, feature) => feature_compares(
                image, component, feature, field, value,
            ),
            Member::Diagnostic(diagnostic) => severity_is(image, diagnostic, field, value),
        }
    }

    // `message.contains('..')`, which is false of what is no diagnostic.
    #[tactic(auto, unfolding(crate::specs::Truth::message_contains))]
    fn message_contains(self, image: &[u8], value: &[u8]) -> bool
        ensures { result ≡ message_contains image.now self value.now }
    {
        let Member::Diagnostic(diagnostic) = self else {
            return false;
        };
        search::contains(
            image::string(image, image::message(image, diagnostic)),
            value,
        )
    }
}

// Whether a component has the property that a text names.
#[tactic(auto, unfolding(crate::specs::Truth::has_property_of))]
fn has_property_of(image: &[u8], component: u32, value: &[u8]) -> bool
    ensures { result ≡ has_property_of image.now component value.now }
{
    let (set, name) = search::parted(value);
    instance::has_property(image, component, set, name)
}

// `field == '..'` of a feature.
#[tactic(auto, unfolding(crate::specs::Truth::compares))]
fn feature_compares(image: &[u8], component: u32, feature: u32, field: &[u8], value: &[u8]) -> bool
    ensures { result ≡ compares image.now (Member.Feature component feature) field.now value.now }
{
    if text::same(field, b"kind") {
        return matching::feature_kind_matches(image::feature_kind(image, feature), value);
    }
    if text::same(field, b"direction") {
        return matching::direction_matches(image::direction(image, feature), value);
    }
    category_is(image, component, field, value)
}

// The same of a component.
#[tactic(auto, unfolding(crate::specs::Truth::compares))]
fn category_is(image: &[u8], component: u32, field: &[u8], value: &[u8]) -> bool
    ensures { result ≡ compares image.now (Member.Component component) field.now value.now }
{
    text::same(field, b"category")
        && matching::category_matches(image::category(image, component), value)
}

// The same of a diagnostic.
#[tactic(auto, unfolding(crate::specs::Truth::compares))]
fn severity_is(image: &[u8], diagnostic: u32, field: &[u8], value: &[u8]) -> bool
    ensures { result ≡ compares image.now (Member.Diagnostic diagnostic) field.now value.now }
{
    text::same(field, b"severity")
        && matching::severity_matches(image::severity(image, diagnostic), value)
}
