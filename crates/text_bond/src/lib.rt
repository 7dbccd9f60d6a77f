// The evening's bond line (document 02, W-206): what the call is given, from the numbers of the line, and its answer,
// appended to a text. How a bond is worked out is the crate `bond`'s; nothing here depends on it.
#![tactic(auto, using(text_out::specs::Appends::appending), unfolding(paper::specs::Verdicts::is_done, text_bytes::specs::Numbers::spaced, text_bytes::specs::Numbers::answer_text, text_protocol::specs::Answers::bond_figures_numbers, text_protocol::specs::Answers::bond_limits_numbers, text_protocol::specs::Answers::bond_text))]

ghost use Rattle.std.specs.Prelude.{◌≡◌, ◌++◌, ◌+◌, ◌*◌, ◌≤◌, length};
ghost use Rattle.text_bytes.specs.Bytes.{room};
ghost use Rattle.text_protocol.specs.Calls.{bond_statics_of, bond_of};
ghost use Rattle.text_protocol.specs.Answers.{bond_figures_numbers, bond_limits_numbers, bond_numbers, bond_text};
ghost use Rattle.text_bytes.specs.Numbers.{answer_text, spaced};
ghost use Rattle.text_protocol.specs.Answers.{answer_most};
ghost use Rattle.text_out.specs.Places.{next_bytes};

use inputs::number_at;
use paper::Tentative;
use paper_bonds::{Bond, BondAnswer, BondLimits, BondStatics};
use text_answer::record::put_rates;
use text_answer::say_number;
use text_call::{signed_at, term_of};
use text_out::Text;
use text_protocol::{Kept, Pairs, bond_place};

// ---- what is given

fn statics_of(zs: &[i64]) -> BondStatics
    ensures { result ≡ bond_statics_of zs.now }
{
    BondStatics {
        h: number_at(zs, bond_place::H),
        q: number_at(zs, bond_place::Q),
        wait: number_at(zs, bond_place::WAIT),
        rh1: number_at(zs, bond_place::RH1),
        rh2: number_at(zs, bond_place::RH2),
        rh3: number_at(zs, bond_place::RH3),
        liq: number_at(zs, bond_place::LIQ),
        min1: number_at(zs, bond_place::MIN1),
        min2: number_at(zs, bond_place::MIN2),
        min3: number_at(zs, bond_place::MIN3),
        smax: number_at(zs, bond_place::SMAX),
        xpr: number_at(zs, bond_place::XPR),
        pchmax: number_at(zs, bond_place::PCHMAX),
        pclmax: number_at(zs, bond_place::PCLMAX),
        monitoring: number_at(zs, bond_place::MONITORING),
        ewma: number_at(zs, bond_place::ISEWMA),
    }
}

// The bond of a line's numbers, where `k` is kept of the interest lines and pairs stand in the terms `p`.
pub fn bond_of(k: Kept, p: Pairs, zs: &[i64]) -> Bond
    ensures { result ≡ bond_of k zs.now p }
{
    Bond {
        m: number_at(zs, bond_place::M),
        net: number_at(zs, bond_place::NET),
        face: number_at(zs, bond_place::FACE),
        accrued: number_at(zs, bond_place::ACCRUED),
        s: number_at(zs, bond_place::S),
        tentative: Tentative {
            bp: number_at(zs, bond_place::TENTATIVE),
            age: number_at(zs, bond_place::AGE),
        },
        statics: statics_of(zs),
        first: term_of(k, p.first, zs, bond_place::K0),
        second: term_of(k, p.second, zs, bond_place::K1),
        third: term_of(k, p.third, zs, bond_place::K2),
        repo: signed_at(zs, bond_place::REPO),
    }
}

// ---- what is answered

// P TENTATIVE AGE
fn put_figures(out: &mut Text, gross: u64, tentative: Tentative)
    requires { length out.old + 3 * next_bytes ≤ room }
    ensures text { out.new ≡ out.old ++ spaced (bond_figures_numbers gross tentative) }
    ensures most { length out.new ≤ length out.old + 3 * next_bytes }
{
    out.put_next(gross);
    out.put_next(tentative.bp);
    out.put_next(tentative.age);
}

// LOWER UPPER OFFLOWER OFFUPPER
fn put_limits(out: &mut Text, x: BondLimits)
    requires { length out.old + 4 * next_bytes ≤ room }
    ensures text { out.new ≡ out.old ++ spaced (bond_limits_numbers x) }
    ensures most { length out.new ≤ length out.old + 4 * next_bytes }
{
    out.put_next(x.band.lower);
    out.put_next(x.band.upper);
    out.put_next(x.off.lower);
    out.put_next(x.off.upper);
}

// P TENTATIVE AGE S1 S2 S3, and the limits of each term.
fn say_worked(out: &mut Text, a: BondAnswer)
    requires { length out.old + answer_most ≤ room }
    ensures text { out.new ≡ out.old ++ answer_text 0 (bond_numbers a) }
    ensures most { length out.new ≤ length out.old + answer_most }
{
    out.put_number(0);
    put_figures(out, a.gross, a.tentative);
    put_rates(out, a.rates);
    put_limits(out, a.limits[0]);
    put_limits(out, a.limits[1]);
    put_limits(out, a.limits[2]);
    out.put_byte(b'\n');
}

pub fn say_bond(out: &mut Text, a: BondAnswer)
    requires { length out.old + answer_most ≤ room }
    ensures text { out.new ≡ out.old ++ bond_text a }
    ensures most { length out.new ≤ length out.old + answer_most }
{
    let no = a.verdict.number();
    if no == 0 {
        return say_worked(out, a);
    }
    say_number(out, no);
}
