// Members that are alike: what most predicates ask of a member is one of some thousand numbers, its profile; and whether a node of a
// predicate asks for more. Any image, member and profile is taken, by plain numbers, as each caller has them.
#![tactic(auto)]

ghost use Rattle.std.specs.Prelude.{◌≡◌};
ghost use Rattle.board.specs.Image.{severity};
ghost use Rattle.profile.specs.Profile.{of_component, of_feature, of_diagnostic, wired_in, owned_profile, profile_of, wiring_held, asks_wiring, asks_more, asks_part, asks_of_feature, asks_field};

use board::{CATEGORIES, DIRECTIONS, FEATURE_KINDS, SEVERITIES, image};
use instance;
use predicate::atom::Member;
use syntax::kind::Kind;
use syntax::text;

// The first profiles of features and of diagnostics, after those of components, and how many there are in all.
const FIRST_OF_FEATURES: usize = 2 * CATEGORIES as usize;

const FIRST_OF_DIAGNOSTICS: usize = FIRST_OF_FEATURES
    + FIRST_OF_FEATURES * (FEATURE_KINDS * DIRECTIONS) as usize;

pub const PROFILES: usize = FIRST_OF_DIAGNOSTICS + SEVERITIES as usize;

// What profiles hold of components and features: whether a component is connected; by that, whether its features are; a component's
// category; a feature's kind and direction.
#[derive(Clone, Copy, PartialEq, Eq, Debug, Default)]
pub struct Held {
    pub wiring: bool,
    pub wiring_of_features: bool,
    pub category: bool,
    pub kind: bool,
    pub direction: bool,
}

// The profile of a member of a board, with what is held; none where one of its fields has no such value.
#[tactic(auto, unfolding(crate::specs::Profile::profile_of))]
pub fn profile_of(image: &[u8], held: Held, member: Member) -> Option<usize>
    ensures { result ≡ profile_of image.now held member }
{
    match member {
        Member::Component(component) => component_profile(image, held, component),
        Member::Feature(component, feature) => feature_profile(image, held, component, feature),
        Member::Diagnostic(diagnostic) => diagnostic_profile(image, diagnostic),
    }
}

// That of a component.
#[tactic(auto, unfolding(crate::specs::Profile::profile_of, crate::specs::Profile::component_profile, crate::specs::Profile::held_part))]
pub fn component_profile(image: &[u8], held: Held, component: u32) -> Option<usize>
    ensures { result ≡ profile_of image.now held (Member.Component component) }
{
    let category = if held.category {
        image::category(image, component)
    } else {
        0
    };
    of_component(category, is_wired(image, held, component))
}

// That of a feature, by its owner's.
fn feature_profile(image: &[u8], held: Held, component: u32, feature: u32) -> Option<usize>
    ensures { result ≡ profile_of image.now held (Member.Feature component feature) }
{
    let owner = component_profile(image, held, component);
    owned_profile(image, held, owner, feature)
}

// The same where its owner's is at hand.
#[tactic(auto, unfolding(crate::specs::Profile::owned_profile, crate::specs::Profile::held_part))]
pub fn owned_profile(image: &[u8], held: Held, owner: Option<usize>, feature: u32) -> Option<usize>
    ensures { result ≡ owned_profile image.now held owner feature }
{
    let kind = if held.kind {
        image::feature_kind(image, feature)
    } else {
        0
    };
    let direction = if held.direction {
        image::direction(image, feature)
    } else {
        0
    };
    of_feature(owner, kind, direction)
}

// Whether a component is connected, where that is held.
#[tactic(auto, unfolding(crate::specs::Profile::wired_in))]
fn is_wired(image: &[u8], held: Held, component: u32) -> bool
    ensures { result ≡ wired_in image.now held component }
{
    held.wiring && instance::component_connected(image, component)
}

// That of a diagnostic, which always holds its severity.
pub fn diagnostic_profile(image: &[u8], diagnostic: u32) -> Option<usize>
    ensures { result ≡ of_diagnostic (severity image.now diagnostic) }
{
    of_diagnostic(image::severity(image, diagnostic))
}

// The profile by a component's category and whether it is connected.
#[tactic(auto, unfolding(crate::specs::Profile::of_component))]
fn of_component(category: u32, connected: bool) -> Option<usize>
    ensures { result ≡ of_component category connected }
{
    if CATEGORIES <= category {
        return None;
    }
    Some(2 * category as usize + usize::from(connected))
}

// By the profile of a feature's owner, its kind and its direction.
#[tactic(auto, unfolding(crate::specs::Profile::of_feature))]
fn of_feature(owner: Option<usize>, kind: u32, direction: u32) -> Option<usize>
    ensures { result ≡ of_feature owner kind direction }
{
    let k = owner?;
    if FIRST_OF_FEATURES <= k || FEATURE_KINDS <= kind || DIRECTIONS <= direction {
        return None;
    }
    let kinds = k * FEATURE_KINDS as usize + kind as usize;
    Some(FIRST_OF_FEATURES + (kinds * DIRECTIONS as usize + direction as usize))
}

// By a diagnostic's severity.
#[tactic(auto, unfolding(crate::specs::Profile::of_diagnostic))]
fn of_diagnostic(severity: u32) -> Option<usize>
    ensures { result ≡ of_diagnostic severity }
{
    if SEVERITIES <= severity {
        return None;
    }
    Some(FIRST_OF_DIAGNOSTICS + severity as usize)
}

// Whether a node of a kind that compares no field asks for more than the profile of a member: `has` of a component and of a feature,
// `connected` where that is not held, `message.contains` of a diagnostic.
#[tactic(auto, unfolding(crate::specs::Profile::asks_more))]
pub fn asks_more(member: Member, held: Held, kind: u32) -> bool
    ensures { result ≡ asks_more member held kind }
{
    match member {
        Member::Component(_) => asks_wiring(held, false, kind),
        Member::Feature(_, _) => asks_wiring(held, true, kind),
        Member::Diagnostic(_) => kind == u32::from(Kind::ContainsExpr),
    }
}

// Whether it is `has`, or `connected` where that is not held.
#[tactic(auto, unfolding(crate::specs::Profile::asks_wiring))]
fn asks_wiring(held: Held, features: bool, kind: u32) -> bool
    ensures { result ≡ asks_wiring held features kind }
{
    match Kind::try_from(kind) {
        Ok(Kind::CallExpr) => true,
        Ok(Kind::IdentExpr) => !wiring_held(held, features),
        _ => false,
    }
}

// Whether `connected` is held of components, or of features.
#[tactic(auto, unfolding(crate::specs::Profile::wiring_held))]
fn wiring_held(held: Held, features: bool) -> bool
    ensures { result ≡ wiring_held held features }
{
    held.wiring && (!features || held.wiring_of_features)
}

// Whether a node that compares a field asks for more: for one that the member has and that is not held.
#[tactic(auto, unfolding(crate::specs::Profile::asks_field))]
pub fn asks_field(member: Member, held: Held, field: &[u8]) -> bool
    ensures { result ≡ asks_field member held field.now }
{
    match member {
        Member::Component(_) => asks_part(held.category, field, b"category"),
        Member::Feature(_, _) => asks_of_feature(held, field),
        Member::Diagnostic(_) => false,
    }
}

// Of a feature, whose category is its owner's.
#[tactic(auto, unfolding(crate::specs::Profile::asks_of_feature))]
fn asks_of_feature(held: Held, field: &[u8]) -> bool
    ensures { result ≡ asks_of_feature held field.now }
{
    asks_part(held.kind, field, b"kind")
        || asks_part(held.direction, field, b"direction")
        || asks_part(held.category, field, b"category")
}

// Whether a field is this one, and it is not held.
#[tactic(auto, unfolding(crate::specs::Profile::asks_part))]
fn asks_part(held: bool, field: &[u8], name: &[u8]) -> bool
    ensures { result ≡ asks_part held field.now name.now }
{
    !held && text::same(field, name)
}
