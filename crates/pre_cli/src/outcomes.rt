ghost use Rattle.std.specs.Prelude.{◌≡◌, ◌++◌, codes};
ghost use Rattle.pre_base.specs.Faults.{HasCause};
ghost use Rattle.pre_base.specs.Told.{WhereTold};
ghost use Rattle.pre_base.specs.Sinks.{TakesAll};
ghost use Rattle.pre_certify.specs.Text.{stream_name};
ghost use Rattle.pre_cli.specs.Outcomes.{why_words, outcome_words, outcome_line, held_line, held_lines, name_held};

use crate::refusals::{put_numbered, put_unfit_words};
use pre_admit::{Outcome, Why};
use pre_base::{Failed, Sink, write_all};
use pre_streams::Row;

// The name of the row of which that came.
fn name_of<'a>(held: &'a [Row], outcome: &'a Outcome) -> &'a [u8]
    ensures { result.now ≡ name_held held.now outcome.now }
{
    match outcome {
        Outcome::Admitted(id) => match held.get(id.0 as usize) {
            Some(row) => row.name.as_str().as_bytes(),
            None => b"",
        },
        Outcome::Refused(refused) => refused.row.name.as_str().as_bytes(),
    }
}

fn put_why<S: Sink>(sink: &mut S, why: &Why) -> Result<(), Failed>
    ensures octets { WhereTold (S.tells sink.old) (S.tells sink.new) (TakesAll result (why_words why.now)) }
    ensures cause { HasCause (S.faults sink.old) (S.faults sink.new) result }
{
    match why {
        Why::Name => write_all(sink, b" name"),
        Why::Route { hop } => put_numbered(sink, b" route", *hop),
        Why::Count => write_all(sink, b" count"),
        Why::Unfit(cause) => put_unfit_words(sink, cause),
        Why::Memory => write_all(sink, b" memory"),
    }
}

// Writes a word and a name behind it.
fn put_named<S: Sink>(sink: &mut S, word: &[u8], name: &[u8]) -> Result<(), Failed>
    ensures octets { WhereTold (S.tells sink.old) (S.tells sink.new) (TakesAll result (word.now ++ name.now)) }
    ensures cause { HasCause (S.faults sink.old) (S.faults sink.new) result }
{
    write_all(sink, word)?;
    write_all(sink, name)
}

fn put_refused<S: Sink>(sink: &mut S, name: &[u8], why: &Why) -> Result<(), Failed>
    ensures octets { WhereTold (S.tells sink.old) (S.tells sink.new) (TakesAll result ((codes "# refused " ++ name.now) ++ why_words why.now)) }
    ensures cause { HasCause (S.faults sink.old) (S.faults sink.new) result }
{
    put_named(sink, b"# refused ", name)?;
    put_why(sink, why)
}

fn put_words<S: Sink>(sink: &mut S, name: &[u8], outcome: &Outcome) -> Result<(), Failed>
    ensures octets { WhereTold (S.tells sink.old) (S.tells sink.new) (TakesAll result (outcome_words name.now outcome.now)) }
    ensures cause { HasCause (S.faults sink.old) (S.faults sink.new) result }
{
    match outcome {
        Outcome::Admitted(_) => put_named(sink, b"# admitted ", name),
        Outcome::Refused(refused) => put_refused(sink, name, &refused.why),
    }
}

fn put_outcome<S: Sink>(sink: &mut S, held: &[Row], outcome: &Outcome) -> Result<(), Failed>
    ensures octets { WhereTold (S.tells sink.old) (S.tells sink.new) (TakesAll result (held_line held.now outcome.now)) }
    ensures cause { HasCause (S.faults sink.old) (S.faults sink.new) result }
{
    put_words(sink, name_of(held, outcome), outcome)?;
    write_all(sink, b"\n")
}

/// Writes a line for each row that was to be admitted: that it was, or why it wasn't.
pub(crate) fn put_outcomes<S: Sink>(
    sink: &mut S,
    held: &[Row],
    outcomes: &[Outcome],
) -> Result<(), Failed>
    ensures octets { WhereTold (S.tells sink.old) (S.tells sink.new) (TakesAll result (held_lines held.now outcomes.now)) }
    ensures cause { HasCause (S.faults sink.old) (S.faults sink.new) result }
{
    for outcome in outcomes {
        put_outcome(sink, held, outcome)?;
    }
    Ok(())
}
