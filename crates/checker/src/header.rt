ghost use Rattle.std.specs.Prelude.{◌≡◌, ◌≤◌};
ghost use Rattle.meaning.specs.Words.{layout_of, laid};
ghost use Rattle.meaning.specs.Good.{Limits};
ghost use Rattle.meaning.specs.Refusal.{good_limits, good_shape};

use meaning::Layout;
use words::header::Header;

// Whether the counts are within their limits. A pattern's header is tested in this shape, over other words and
// limits: what the two share is `Header`.
#[tactic(auto, using(meaning::proofs::Laws::Ands::ands), unfolding(meaning::specs::Refusal::good_limits))]
pub fn good_limits(h: &Header<9>) -> bool
    ensures { result ≡ good_limits h.now.words.now }
{
    h.at(0) <= 65536 && h.at(1) <= 65536 && h.at(2) <= 65536 && h.at(3) <= 262144
}

// Where the areas of a table with these counts stand.
fn laid(i: usize, c: usize, n: usize, k: usize) -> Layout
    requires { (i ≤ 65536) × (c ≤ 65536) × (n ≤ 65536) × (k ≤ 262144) }
    ensures { result ≡ laid i c n k }
{
    let classes = 9 + i;
    let nodes = classes + 3 * c;
    let children = nodes + 4 * n;
    Layout {
        i,
        c,
        n,
        k,
        width: 3,
        find: 9,
        classes,
        nodes,
        children,
        index: children + k,
    }
}

// The layout that the counts ask for.
pub fn layout(h: &Header<9>) -> Layout
    requires { Limits h.now.words.now }
    ensures { result ≡ layout_of h.now.words.now }
{
    laid(h.at(0), h.at(1), h.at(2), h.at(3))
}

// Whether the offsets and the length are those of the layout.
#[tactic(auto, using(meaning::proofs::Laws::Ands::ands), unfolding(meaning::specs::Refusal::good_shape))]
pub fn good_shape(h: &Header<9>, l: Layout) -> bool
    requires { Limits h.now.words.now × (l ≡ layout_of h.now.words.now) }
    ensures { result ≡ good_shape h.now.words.now }
{
    h.at(4) == l.find
        && h.at(5) == l.classes
        && h.at(6) == l.nodes
        && h.at(7) == l.children
        && h.at(8) == l.index
        && h.words.len() == l.index + l.n
}
