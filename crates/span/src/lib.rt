// Where the command ends that a text begins with.
#![tactic(auto)]

ghost use Rattle.std.specs.Prelude.{◌≡◌, ◌<◌, MatchOption};
ghost use Rattle.text.specs.Table.{TABLE};
ghost use Rattle.span.specs.Span.{span};

use text::Kind;

// Where the command ends that the text begins with; None where it is none.
pub fn span_of(s: &[u8], tab: &[u8; text::PLACES]) -> Option<usize>
    requires { tab.now ≡ TABLE }
    ensures { MatchOption result (span s.now ≡ 0) (λ end. (end ≡ span s.now) × (0 < end)) }
{
    let first = text::token(s, tab, 0);
    if first.kind != Kind::Open || first.from != 0 {
        return None;
    }
    let mut d = 0usize;
    let mut i = 0usize;
    // The place goes on by a token, which no range says more plainly.
    while i < s.len() {
        let t = text::token(s, tab, i);
        i = t.to;
        match t.kind {
            Kind::End | Kind::Bad => return None,
            Kind::Open => d += 1,
            Kind::Close if d <= 1 => return Some(i),
            Kind::Close => d -= 1,
            Kind::Numeral | Kind::Symbol | Kind::Other => {}
        }
    }
    None
}
