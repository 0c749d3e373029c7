ghost use Rattle.std.specs.Prelude.{◌≡◌, ◌↔◌, ◌≤◌, ℕ, length};
ghost use Rattle.pre_streams.specs.Fits.{Fits};
ghost use Rattle.pre_bound.specs.Settled.{PriosBelow};
ghost use Rattle.pre_bound.specs.Listed.{GoodCertificate};
ghost use Rattle.pre_check.specs.Lines.{HasRows, Breaks};
ghost use Rattle.pre_check.specs.Breaches.{breaches, first_from};
ghost use Rattle.pre_check.specs.declared.verdicts.Verdict.TheVariants.{Accepted, Rejected};

use crate::breaches::breaches;
use pre_bound::Certificate;
use pre_streams::{Row, Streams};
use pre_topo::Network;

/// What is found of a certificate.
#[derive(Clone, Copy, Debug, PartialEq, Eq)]
pub enum Verdict {
    /// All eleven clauses hold.
    Accepted,
    /// This clause is the first that fails, counted from 1, and this row the first at which it does: a line of the
    /// certificate's text, counted from 1 without skipped lines.
    Rejected { clause: u8, row: u64 },
}

/// Each priority is below 8, as its type says.
fn prios_below(rows: &[Row])
    ensures { PriosBelow rows.now }
{
    for row in rows {
        let _prio = row.prio.number();
    }
}

/// The first clause that fails, and its line.
fn first_of(breaches: &[Option<u64>]) -> Verdict
    requires { length breaches.now ≤ 11 }
    ensures { result ≡ first_from 1 breaches.now }
{
    let mut clause = 1;
    let mut rest = breaches;
    while let [breach, further @ ..] = rest {
        if let Some(row) = *breach {
            return Verdict::Rejected { clause, row };
        }
        clause += 1;
        rest = further;
    }
    Verdict::Accepted
}

/// Whether a certificate is good for a network and its streams: `Accepted` exactly where all eleven clauses hold, else the
/// first clause that fails, with the first row of the text at which it does. It takes no memory.
pub fn judge(net: &Network, streams: &Streams, certificate: &Certificate) -> Verdict
    requires fits { Fits net.now streams.now }
    requires rows { HasRows net.now streams.now.rows certificate.now }
    ensures accepted { (result ≡ Accepted) ↔ GoodCertificate net.now streams.now certificate.now }
    ensures rejected { (clause row : ℕ) → result ≡ Rejected clause row → Breaks net.now streams.now.rows certificate.now clause row }
{
    let rows = streams.rows.as_slice();
    prios_below(rows);
    first_of(&breaches(
        net,
        rows,
        certificate.arcs.as_slice(),
        certificate.ports.as_slice(),
        certificate.hops.as_slice(),
        certificate.bounds.as_slice(),
    ))
}
