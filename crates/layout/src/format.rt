// The rules of a frame's fields, which the reader and the writer share.

ghost use Rattle.std.specs.Prelude.{◌≡◌};
ghost use Rattle.layout.specs.Format.{rules, header_fields, count_fields};

use field::Field;

// The limits that a kind sets to a frame's numbers, each from the first to the second.
#[derive(Clone, Copy, Default)]
pub struct KindRules {
    view: (u32, u32),
    code: (u32, u32),
    accepted: (u32, u32),
    // the content's flag, where neither the code nor the accepted proposal is a commit
    plain: (u32, u32),
    // and where one of them is
    commit: (u32, u32),
}

// The letter of the kind, and the numbers between it and the content, plain ones: any may be written, and the rules refuse the wrong ones by their places.
#[derive(Clone, Copy)]
pub struct Header {
    pub kind: char,
    pub transaction: u32,
    pub sender: u32,
    pub view: u32,
    pub code: u32,
    pub accepted: u32,
    pub accepted_view: u32,
}

const ZERO: (u32, u32) = (0, 0);

const ONE: (u32, u32) = (1, 1);

// The rules by the letter of the kind: a kind is a letter wherever it goes, and is matched against letters here alone, as ARCHITECTURE.md asks.
fn rules_of(kind: char) -> Option<KindRules>
    ensures { result ≡ rules kind }
{
    let (view, code, accepted, plain, commit) = match kind {
        'P' => (ZERO, ZERO, ZERO, ONE, ONE),
        'V' => (ZERO, (1, 2), ZERO, ZERO, ZERO),
        'A' => ((0, 255), (1, 2), ZERO, ZERO, ONE),
        'B' => ((0, 255), ZERO, ZERO, ZERO, ZERO),
        'D' => (ZERO, (1, 2), ZERO, ZERO, ONE),
        'C' => ((1, 255), ZERO, ZERO, ZERO, ZERO),
        'R' => ((1, 255), (0, 2), (0, 2), (0, 1), ONE),
        _ => return None,
    };
    Some(KindRules {
        view,
        code,
        accepted,
        plain,
        commit,
    })
}

// The fields from the kind to the content's flag; a letter that names no kind leaves nothing but 0 to the others.
pub fn header_fields(h: &Header, content: u32) -> [Field; 8]
    ensures { result ≡ header_fields h.now content }
{
    let known = rules_of(h.kind);
    let rules = known.unwrap_or_default();
    let accepted_view_limits = if h.accepted == 0 { ZERO } else { (0, h.view) };
    let content_limits = if h.code == 2 || h.accepted == 2 {
        rules.commit
    } else {
        rules.plain
    };
    [
        Field {
            place: 5,
            width: 1,
            good: known.is_some(),
        },
        Field::ranged(6, h.transaction, (1, 32)),
        Field::ranged(7, h.sender, (0, 6)),
        Field::ranged(8, h.view, rules.view),
        Field::ranged(9, h.code, rules.code),
        Field::ranged(10, h.accepted, rules.accepted),
        Field::ranged(11, h.accepted_view, accepted_view_limits),
        Field::ranged(12, content, content_limits),
    ]
}

// The second, and how many reads and writes follow.
pub fn count_fields(reads: usize, writes: usize) -> [Field; 3]
    ensures { result ≡ count_fields reads writes }
{
    [
        Field {
            place: 13,
            width: 4,
            good: true,
        },
        Field {
            place: 17,
            width: 1,
            good: reads <= 4,
        },
        Field {
            place: 18,
            width: 1,
            good: writes <= 4 && (reads >= 1 || writes >= 1),
        },
    ]
}
