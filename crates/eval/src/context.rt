// What a walk looks at.
ghost use Rattle.std.specs.Prelude.{◌≡◌};

use crate::ready::Call;
use meaning::Method;
use predicate::Predicate;

// A rule and the rows of its tree, a board image, the calls of a pipeline in that tree, the method of the call that may decide early, the
// last, and the predicate of the first call that asks one, which is asked most.
#[derive(Clone, Copy)]
pub(crate) struct Pipeline<'a> {
    pub rule: &'a [u8],
    pub image: &'a [u8],
    pub tree: &'a [u32],
    pub calls: &'a [Call],
    pub last: Method,
    pub first: &'a Predicate<'a>,
    ghost same: { (first.now.rule ≡ rule) × (first.now.tree ≡ tree) },
}

// The predicate of the first call that asks one; where none does, one that is false. Whichever is given, answers are right.
pub(crate) fn first_predicate<'a>(rule: &'a [u8], tree: &'a [u32], calls: &[Call]) -> Predicate<'a>
    ensures { (result.rule ≡ rule.entry) × (result.tree ≡ tree.entry) }
{
    let first = calls.iter().find(|call| asks(call.method));
    let args = first.map_or(tree.len(), |call| call.args);
    Predicate::new(rule, tree, args)
}

// Whether a call of this method asks a predicate.
fn asks(method: Method) -> bool {
    matches!(
        method,
        Method::Where | Method::All | Method::Any | Method::None
    )
}
