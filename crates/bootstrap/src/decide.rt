// What a quote does to a book: the node that it adds, or the refusal.
ghost use Rattle.std.specs.Prelude.{◌≡◌};
ghost use Rattle.ground.specs.declared.Ground.TheVariants.{RateRange};
ghost use Rattle.ground.specs.Verdicts.{unless};
ghost use Rattle.curve.specs.Lengthen.{at_rate};
ghost use Rattle.curve.specs.Limits.{ProperCurve};
ghost use Rattle.curve.specs.Rates.{nodes_of};
ghost use Rattle.legs.specs.Runs.{leg_flows};
ghost use Rattle.book.specs.Verdict.{StartsWithBook};
ghost use Rattle.bond.specs.Limits.{Extends};
ghost use Rattle.bond.specs.Value.{breaks_rate_range, rate_for};
ghost use Rattle.bootstrap.specs.Bought.{bond_payments};
ghost use Rattle.bootstrap.specs.Refusals.{open_node, extension_verdict, curve_at, in_book_verdict, bootstrap_verdict};
ghost use Rattle.bootstrap.specs.Limits.{QuoteLimits};
ghost use Rattle.bootstrap.specs.Bootstrap.{new_node, decision_of};

use crate::Quote;
use crate::bought::payments_of;
use crate::refusals::{breaks_curve_end, quote_verdict};
use bond::rate::{breaks_rate_range, rate_for};
use bond::value::Extension;
use book::parts::{block_at, curves_of};
use curve::{Curve, Node};
use curve_block::curve_of;
use ground::{Ground, Refusal, refuse_if};
use legs::Leg;
use logarithm::tables::{Rows, Tables};

// The node of a quote, its rate not yet found.
fn open_node(q: Quote, l: Leg) -> Node
    requires { QuoteLimits q × (l ≡ bond_payments q) }
    ensures { result ≡ open_node q }
{
    Node {
        day: l.first + (l.count - 1) * l.period,
        rate: 0,
        first: q.first,
        second: q.second,
        third: q.third,
    }
}

// Of a bond on a curve where 17 does not apply: ground 18, or the node at the smallest rate.
fn priced(c: Curve, n: Node, l: Leg, cash: u64, tables: Tables<'_>) -> Result<Node, Refusal>
    requires { Extends c n l }
    ensures { result ≡ decision_of (unless (breaks_rate_range (nodes_of c) n (leg_flows l) cash) RateRange 0 (Ok tt)) (at_rate n (rate_for (nodes_of c) n (leg_flows l) cash)) }
{
    let e = Extension::new(c, n, l, tables);
    refuse_if(breaks_rate_range(e, cash, tables), Ground::RateRange, 0)?;
    Ok(n.at_rate(rate_for(e, cash, tables)))
}

// On a curve of the book, of a quote that keeps its own rules: grounds 17 and 18, or the node at the smallest rate.
#[tactic(auto, unfolding(crate::specs::Refusals::extension_verdict, crate::specs::Bootstrap::new_node))]
fn extended(c: Curve, q: Quote) -> Result<Node, Refusal>
    requires { ProperCurve c × QuoteLimits q }
    ensures { result ≡ decision_of (extension_verdict c q) (new_node c q) }
{
    let l = payments_of(q);
    let n = open_node(q, l);
    refuse_if(breaks_curve_end(c, n.day), Ground::CurveEnd, 0)?;
    let mut rows = Rows::ZEROS;
    let tables = rows.fill();
    priced(c, n, l, q.cash, tables)
}

// On an accepted book.
#[tactic(auto, unfolding(crate::specs::Refusals::in_book_verdict))]
fn quoted(book: &[u8], q: Quote) -> Result<Node, Refusal>
    requires { StartsWithBook book.now }
    ensures { result ≡ decision_of (in_book_verdict book.now q) (new_node (curve_at book.now q.curve) q) }
{
    quote_verdict(curves_of(book), q)?;
    extended(curve_of(block_at(book, q.curve)), q)
}

// On any bytes: the whole-book check first.
#[tactic(auto, unfolding(crate::specs::Refusals::bootstrap_verdict))]
pub fn decided(book: &[u8], used: usize, day: u64, q: Quote) -> Result<Node, Refusal>
    ensures { result ≡ decision_of (bootstrap_verdict book.now used day q) (new_node (curve_at book.now q.curve) q) }
{
    acceptance::check(book, used, Some(day))?;
    quoted(book, q)
}
