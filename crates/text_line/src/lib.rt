// What a line of the evening's text says: its call, with the numbers in a lent array.
#![tactic(auto)]

pub mod numbers; // the numbers of a line

ghost use Rattle.std.specs.Prelude.{◌≡◌, [], ◌≤◌, length, drop};
ghost use Rattle.std.specs.List.{find};
ghost use Rattle.std.specs.Str.{bytes_eq};
ghost use Rattle.text_bytes.specs.Bytes.{words};
ghost use Rattle.text_protocol.specs.Names.{takes};
ghost use Rattle.text_protocol.specs.Kinds.{kind_number};
ghost use Rattle.text_protocol.specs.Line.{no_pairs, has_terms, pair_fits, with_pair, taking, fill, finished, is_heading, meaning};
ghost use Rattle.text_line.specs.ReadLine.{word_of, said, LowsAt, reading_of};

use crate::numbers::Numbers;
use text_bytes::ROOM;
use text_protocol::{
    CallKind, Item, Pairs, admit_place, bond_place, evaluate_place, id_place, interest_place,
    move_place, notice_place, outside_place, quote_place,
};
use text_word::{past_blanks, past_word, word_at};

// A line of more bytes is no call: the buffer has no room for a line feed behind them.
pub const LONGEST: usize = ROOM - 1;

// What a line says: nothing, no call, or a call with pairs in some of its terms. A call's numbers are lent beside it.
#[derive(Clone, Copy)]
pub enum Line {
    Blank,
    Bad,
    Call(CallKind, Pairs),
}

// Whether a word is the first of a heading, which says nothing.
#[tactic(auto, unfolding(text_protocol::specs::Line::is_heading))]
fn is_heading(p: &[u8]) -> bool
    ensures { result ≡ is_heading p.now }
{
    matches!(p, [b'#', ..])
}

// Every call.
const CALLS: [CallKind; 11] = [
    CallKind::Admit,
    CallKind::Evaluate,
    CallKind::Quote,
    CallKind::Move,
    CallKind::Read,
    CallKind::Open,
    CallKind::Outside,
    CallKind::Notice,
    CallKind::Withdraw,
    CallKind::Interest,
    CallKind::Bond,
];

// A call's word.
fn word_of(kind: CallKind) -> &'static [u8]
    ensures { result.now ≡ word_of kind }
{
    match kind {
        CallKind::Admit => b"admit",
        CallKind::Evaluate => b"evaluate",
        CallKind::Quote => b"quote",
        CallKind::Move => b"move",
        CallKind::Read => b"read",
        CallKind::Open => b"open",
        CallKind::Outside => b"outside",
        CallKind::Notice => b"notice",
        CallKind::Withdraw => b"withdraw",
        CallKind::Interest => b"interest",
        CallKind::Bond => b"bond",
    }
}

// Which call a word is.
fn kind_of(p: &[u8]) -> Option<CallKind>
    ensures { result ≡ find (λ kind. bytes_eq p.now (word_of kind)) CALLS }
{
    CALLS.iter().copied().find(|kind| p == word_of(*kind))
}

// Whether a call of the kind has so many numbers. More may follow behind those of `evaluate`, its row figures, of
// `interest`, the key maturities, and of `bond`, the cash flows.
#[tactic(auto, unfolding(text_protocol::specs::Names::takes, text_protocol::specs::Names::takes_in, text_protocol::specs::Names::count_fits, text_protocol::specs::Names::forms))]
fn takes(kind: CallKind, count: usize) -> bool
    ensures { result ≡ takes (kind_number kind) count }
{
    match kind {
        CallKind::Admit => count == admit_place::COUNT,
        CallKind::Evaluate => evaluate_place::COUNT <= count,
        CallKind::Quote => count == quote_place::COUNT,
        CallKind::Move => count == move_place::COUNT,
        CallKind::Read | CallKind::Open | CallKind::Withdraw => count == id_place::COUNT,
        CallKind::Outside => count == outside_place::COUNT,
        CallKind::Notice => count == notice_place::COUNT,
        CallKind::Interest => interest_place::COUNT <= count,
        CallKind::Bond => bond_place::COUNT <= count,
    }
}

// ---- the numbers of a call

// The calls with three terms, an evaluation and a bond.
#[tactic(auto, unfolding(text_protocol::specs::Line::has_terms))]
fn has_terms(kind: u64) -> bool
    ensures { result ≡ has_terms kind }
{
    (kind == CallKind::EVALUATE) | (kind == CallKind::BOND)
}

// Where the first term's RRCL stands in a call with terms. Those of the other two follow a term's numbers apart.
fn first_low(kind: u64) -> usize
    ensures { LowsAt kind result }
{
    if kind == CallKind::BOND {
        bond_place::RRCL0
    } else {
        evaluate_place::RRCL0
    }
}

// The numbers K RRCL RRCH of a term.
const TERM_NUMBERS: usize = 3;

// A pair stands in a call with terms alone, in place of a term's RRCL RRCH.
pub fn pair_fits(kind: u64, n: usize) -> bool
    ensures { result ≡ pair_fits kind n }
{
    let low = first_low(kind);
    has_terms(kind) & ((n == low) | ((n == low + TERM_NUMBERS) | (n == low + 2 * TERM_NUMBERS)))
}

pub fn with_pair(kind: u64, n: usize, p: Pairs) -> Pairs
    ensures { result ≡ with_pair kind n p }
{
    let low = first_low(kind);
    Pairs {
        first: p.first | (n == low),
        second: p.second | (n == low + TERM_NUMBERS),
        third: p.third | (n == low + 2 * TERM_NUMBERS),
    }
}

// A word more: the pairs with it, unless it is in no call.
#[tactic(auto, unfolding(text_protocol::specs::Line::taking))]
fn take_word(xs: &mut Numbers, kind: CallKind, pairs: Pairs, w: Item) -> Option<Pairs>
    ensures { reading_of result xs.new ≡ taking (kind_number kind) xs.old pairs w }
{
    match w {
        Item::One(z) => {
            xs.keep(z);
            Some(pairs)
        }
        Item::Two(ym, yn) => {
            let n = xs.count();
            if !pair_fits(kind.number(), n) {
                return None;
            }
            xs.keep(ym);
            xs.keep(yn);
            Some(with_pair(kind.number(), n, pairs))
        }
        Item::Neither => None,
    }
}

// A call with its numbers, where it takes so many.
#[tactic(auto, unfolding(text_protocol::specs::Line::finished))]
fn finish(kind: CallKind, pairs: Pairs, xs: &Numbers) -> Line
    ensures { said result xs.now ≡ finished (kind_number kind) xs.now pairs }
{
    if takes(kind, xs.count()) {
        Line::Call(kind, pairs)
    } else {
        Line::Bad
    }
}

// The words from `from` on, behind the call's.
fn words_behind(l: &[u8], from: usize, kind: CallKind, xs: &mut Numbers) -> Line
    requires { from ≤ length l.now }
    ensures { said result xs.new ≡ fill (kind_number kind) [] no_pairs (words (drop from l.now)) }
{
    xs.clear();
    let mut s = from;
    let mut pairs = Pairs::default();
    loop {
        let a = past_blanks(l, s);
        if a == l.len() {
            return finish(kind, pairs, xs);
        }
        let w = word_at(l, a);
        let Some(more) = take_word(xs, kind, pairs, w.item) else {
            return Line::Bad;
        };
        pairs = more;
        s = w.end;
    }
}

// What a line says.
pub fn read_line(l: &[u8], xs: &mut Numbers) -> Line
    ensures { said result xs.new ≡ meaning l.now }
{
    if LONGEST < l.len() {
        return Line::Bad;
    }
    let a = past_blanks(l, 0);
    if a == l.len() {
        return Line::Blank;
    }
    let e = past_word(l, a);
    let word = &l[a..e];
    if is_heading(word) {
        return Line::Blank;
    }
    match kind_of(word) {
        Some(kind) => words_behind(l, e, kind, xs),
        None => Line::Bad,
    }
}
