ghost use Rattle.std.specs.Prelude.{◌≡◌, List, slice_get, Some, IfOk, AllPairs};
ghost use Rattle.pre_curve.specs.Windows.{InOrder, offers_of};
ghost use Rattle.pre_streams.specs.declared.rows.Row.{Row};
ghost use Rattle.pre_script.specs.Fits.{SendsInOrder};
ghost use Rattle.pre_bound.specs.Settled.{PriosBelow};
ghost use Rattle.pre_cli.specs.Curves.{lines_of, sends_in, LinesRise, LinesFind, RowFinds, Finds, earlier};

use pre_base::Send;
use pre_curve::{Curve, first_breach};
use pre_script::SendLine;
use pre_streams::Row;
use std::alloc::{AllocError, Global};

/// Of a script's sends those of the row of this number.
fn lines_of(alloc: Global, sends: &[SendLine], number: usize) -> Result<Vec<SendLine>, AllocError>
    ensures { IfOk result (λ lines. lines.items ≡ lines_of sends.now number) }
{
    let mut lines = Vec::new(alloc);
    for line in sends {
        if line.send.stream.0 as usize == number {
            lines.push(*line)?;
        }
    }
    Ok(lines)
}

fn sends_in(alloc: Global, lines: &[SendLine]) -> Result<Vec<Send>, AllocError>
    ensures { IfOk result (λ sends. sends.items ≡ sends_in lines.now) }
{
    let mut sends = Vec::new(alloc);
    for line in lines {
        sends.push(line.send)?;
    }
    Ok(sends)
}

/// The line of the first of these sends that closes a window in which they break the curve.
fn break_in(alloc: Global, lines: &[SendLine], curve: &Curve) -> Result<Option<u64>, AllocError>
    requires { InOrder (offers_of (sends_in lines.now)) }
    ensures { IfOk result (LinesFind lines.now curve.now) }
{
    let sends = sends_in(alloc, lines)?;
    match first_breach(sends.as_slice(), curve) {
        Some(place) => Ok(Some(lines[place].line)),
        None => Ok(None),
    }
}

/// The least line with which the sends of a row break its curve.
fn row_break(
    alloc: Global,
    row: &Row,
    number: usize,
    sends: &[SendLine],
) -> Result<Option<u64>, AllocError>
    requires order { AllPairs SendsInOrder sends.now }
    requires rise { LinesRise sends.now }
    ensures { IfOk result (λ found. (rows : List Row) → slice_get rows number ≡ Some row.now → RowFinds rows sends.now number found) }
{
    match &row.curve {
        Some(curve) => {
            let lines = lines_of(alloc, sends, number)?;
            break_in(alloc, lines.as_slice(), curve)
        }
        None => Ok(None),
    }
}

fn earlier(least: Option<u64>, found: Option<u64>) -> Option<u64>
    ensures { result ≡ earlier least found }
{
    match (least, found) {
        (Some(first), Some(second)) => Some(if second < first { second } else { first }),
        (Some(first), None) => Some(first),
        (None, found) => found,
    }
}

/// The least line with which the sends of a stream break its curve, and `None` where all keep to their curves.
pub(crate) fn unruly_line(
    alloc: Global,
    rows: &[Row],
    sends: &[SendLine],
) -> Result<Option<u64>, AllocError>
    requires order { AllPairs SendsInOrder sends.now }
    requires rise { LinesRise sends.now }
    ensures { IfOk result (Finds rows.now sends.now) }
{
    let mut least = None;
    for (number, row) in rows.iter().enumerate() {
        let found = row_break(alloc, row, number, sends)?;
        least = earlier(least, found);
    }
    Ok(least)
}

/// Each priority is below 8, as its type says.
pub(crate) fn prios_below(rows: &[Row])
    ensures { PriosBelow rows.now }
{
    for row in rows {
        let _prio = row.prio.number();
    }
}
