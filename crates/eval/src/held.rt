// What profiles are to hold: as much as the rule asks for and no more, so that many members are alike. It is a choice that saves work: but
// for the wiring of features, anything would do.
ghost use Rattle.std.specs.Prelude.{◌≡◌, true, ◌<◌, length};
ghost use Rattle.instance.specs.Instance.{owners_wired};

use crate::context::Pipeline;
use crate::marked;
use crate::ready::Call;
use instance;
use meaning::Method;
use predicate::{node, rows};
use profile::Held;
use syntax::kind::Kind;
use syntax::text;

// What a rule asks for: whether there was an IDENT_EXPR, which is the source's, and another, which is `connected`; and the fields that it
// compares.
#[derive(Clone, Copy, Default)]
struct Asked {
    source: bool,
    connected: bool,
    category: bool,
    kind: bool,
    direction: bool,
}

impl Pipeline<'_> {
    // What profiles are to hold. The wiring of features is held only where the owner of every connection is wired.
    pub(crate) fn held(&self) -> Held
        ensures { result.wiring_of_features ≡ true → owners_wired self.now.image.now ≡ true }
    {
        let asked = Asked::in_rows(self.rule, self.tree);
        let wired = asked.connected
            && asks_features(self.calls)
            && instance::owners_wired(self.image);
        Held {
            wiring: asked.connected,
            wiring_of_features: wired,
            category: asked.category,
            kind: asked.kind,
            direction: asked.direction,
        }
    }
}

impl Asked {
    // What the first rows of a tree ask for.
    fn in_rows(rule: &[u8], tree: &[u32]) -> Asked {
        let mut asked = Asked::default();
        for row in 0..(tree.len() / rows::ROW).min(marked::ROWS) {
            asked.add_row(rule, tree, rows::ROW * row);
        }
        asked
    }

    // What the row at a place asks for is added.
    fn add_row(&mut self, rule: &[u8], tree: &[u32], at: usize)
        requires { at < length tree.now }
    {
        match Kind::try_from(tree[at]) {
            Ok(Kind::CompareExpr) => self.add_field(node::ident(rule, tree, at)),
            Ok(Kind::IdentExpr) => {
                self.connected = self.source;
                self.source = true;
            }
            _ => {}
        }
    }

    // A field that is compared is added.
    fn add_field(&mut self, field: &[u8]) {
        self.category = self.category || text::same(field, b"category");
        self.kind = self.kind || text::same(field, b"kind");
        self.direction = self.direction || text::same(field, b"direction");
    }
}

// Whether one of the calls is `features`.
pub(crate) fn asks_features(calls: &[Call]) -> bool {
    calls.iter().any(|call| call.method == Method::Features)
}
