ghost use Rattle.std.specs.Prelude.{◌≡◌, ◌++◌, codes};
ghost use Rattle.pre_base.specs.Faults.{HasCause};
ghost use Rattle.pre_base.specs.Told.{WhereTold};
ghost use Rattle.pre_base.specs.Sinks.{TakesAll};
ghost use Rattle.pre_cli.specs.Statuses.{file_word, behind_space, row_words, arc_numbers, unfit_words, unfit_text};

use crate::FileWord;
use crate::statuses::{put_behind_space, put_place};
use pre_base::{ArcId, Failed, FileRow, Sink, write_all};
use pre_certify::Unfit;

fn rules_word(file: FileWord) -> &'static [u8]
    ensures { result.now ≡ codes "rules " ++ file_word file }
{
    match file {
        FileWord::Net => b"rules net",
        FileWord::Streams => b"rules streams",
        FileWord::Cert => b"rules cert",
        FileWord::Script => b"rules script",
        FileWord::Mpackets => b"rules mpackets",
        FileWord::Pcap => b"rules pcap",
        FileWord::Trace => b"rules trace",
        FileWord::More => b"rules more",
    }
}

/// Writes a word and a number behind it.
pub(crate) fn put_numbered<S: Sink>(sink: &mut S, word: &[u8], number: u64) -> Result<(), Failed>
    ensures octets { WhereTold (S.tells sink.old) (S.tells sink.new) (TakesAll result (word.now ++ behind_space number)) }
    ensures cause { HasCause (S.faults sink.old) (S.faults sink.new) result }
{
    write_all(sink, word)?;
    put_behind_space(sink, number)
}

fn put_row<S: Sink>(sink: &mut S, row: FileRow) -> Result<(), Failed>
    ensures octets { WhereTold (S.tells sink.old) (S.tells sink.new) (TakesAll result (row_words row)) }
    ensures cause { HasCause (S.faults sink.old) (S.faults sink.new) result }
{
    match row {
        FileRow::Top => write_all(sink, b" top"),
        FileRow::Timing => write_all(sink, b" timing"),
        FileRow::Node(place) => put_numbered(sink, b" node", place),
        FileRow::Link(place) => put_numbered(sink, b" link", place),
        FileRow::Stream(place) => put_numbered(sink, b" stream", place),
        FileRow::Flow(place) => put_numbered(sink, b" flow", place),
    }
}

fn put_row_and_rule<S: Sink>(sink: &mut S, row: FileRow, rule: u64) -> Result<(), Failed>
    ensures octets { WhereTold (S.tells sink.old) (S.tells sink.new) (TakesAll result (row_words row ++ behind_space rule)) }
    ensures cause { HasCause (S.faults sink.old) (S.faults sink.new) result }
{
    put_row(sink, row)?;
    put_behind_space(sink, rule)
}

/// Writes the first fault of a file's rules.
pub(crate) fn put_rules<S: Sink>(
    sink: &mut S,
    file: FileWord,
    row: FileRow,
    rule: u8,
) -> Result<(), Failed>
    ensures octets { WhereTold (S.tells sink.old) (S.tells sink.new) (TakesAll result ((codes "rules " ++ file_word file) ++ (row_words row ++ behind_space rule))) }
    ensures cause { HasCause (S.faults sink.old) (S.faults sink.new) result }
{
    write_all(sink, rules_word(file))?;
    put_row_and_rule(sink, row, rule as u64)
}

fn put_arcs<S: Sink>(sink: &mut S, arcs: &[ArcId]) -> Result<(), Failed>
    ensures octets { WhereTold (S.tells sink.old) (S.tells sink.new) (TakesAll result (arc_numbers arcs.now)) }
    ensures cause { HasCause (S.faults sink.old) (S.faults sink.new) result }
{
    for arc in arcs {
        put_behind_space(sink, arc.0 as u64)?;
    }
    Ok(())
}

fn put_cycle<S: Sink>(sink: &mut S, arcs: &[ArcId]) -> Result<(), Failed>
    ensures octets { WhereTold (S.tells sink.old) (S.tells sink.new) (TakesAll result (codes " cycle" ++ arc_numbers arcs.now)) }
    ensures cause { HasCause (S.faults sink.old) (S.faults sink.new) result }
{
    write_all(sink, b" cycle")?;
    put_arcs(sink, arcs)
}

fn put_large<S: Sink>(sink: &mut S, arc: u64, prio: u64) -> Result<(), Failed>
    ensures octets { WhereTold (S.tells sink.old) (S.tells sink.new) (TakesAll result (codes " large" ++ (behind_space arc ++ behind_space prio))) }
    ensures cause { HasCause (S.faults sink.old) (S.faults sink.new) result }
{
    write_all(sink, b" large")?;
    put_place(sink, arc, prio)
}

fn put_port_need<S: Sink>(sink: &mut S, arc: u64, prio: u64, need: u64) -> Result<(), Failed>
    ensures octets { WhereTold (S.tells sink.old) (S.tells sink.new) (TakesAll result (behind_space arc ++ (behind_space prio ++ behind_space need))) }
    ensures cause { HasCause (S.faults sink.old) (S.faults sink.new) result }
{
    put_behind_space(sink, arc)?;
    put_place(sink, prio, need)
}

fn put_ring<S: Sink>(sink: &mut S, arc: u64, prio: u64, need: u64) -> Result<(), Failed>
    ensures octets { WhereTold (S.tells sink.old) (S.tells sink.new) (TakesAll result (codes " ring" ++ (behind_space arc ++ (behind_space prio ++ behind_space need)))) }
    ensures cause { HasCause (S.faults sink.old) (S.faults sink.new) result }
{
    write_all(sink, b" ring")?;
    put_port_need(sink, arc, prio, need)
}

/// Writes why there is no certificate, behind a space.
pub(crate) fn put_unfit_words<S: Sink>(sink: &mut S, cause: &Unfit) -> Result<(), Failed>
    ensures octets { WhereTold (S.tells sink.old) (S.tells sink.new) (TakesAll result (unfit_words cause.now)) }
    ensures cause { HasCause (S.faults sink.old) (S.faults sink.new) result }
{
    match cause {
        Unfit::Overload { arc } => put_numbered(sink, b" overload", arc.0 as u64),
        Unfit::Cycle { arcs } => put_cycle(sink, arcs.as_slice()),
        Unfit::Large { arc, prio } => put_large(sink, arc.0 as u64, prio.number() as u64),
        Unfit::Ring { arc, prio, need } => {
            put_ring(sink, arc.0 as u64, prio.number() as u64, *need)
        }
        Unfit::Memory => write_all(sink, b" memory"),
    }
}

/// Writes that there is no certificate, and why.
fn put_why_unfit<S: Sink>(sink: &mut S, cause: &Unfit) -> Result<(), Failed>
    ensures octets { WhereTold (S.tells sink.old) (S.tells sink.new) (TakesAll result (codes "unfit" ++ unfit_words cause.now)) }
    ensures cause { HasCause (S.faults sink.old) (S.faults sink.new) result }
{
    write_all(sink, b"unfit")?;
    put_unfit_words(sink, cause)
}

/// Writes a refusal of the certifier.
pub(crate) fn put_unfit<S: Sink>(sink: &mut S, cause: &Unfit) -> Result<(), Failed>
    ensures octets { WhereTold (S.tells sink.old) (S.tells sink.new) (TakesAll result (unfit_text cause.now)) }
    ensures cause { HasCause (S.faults sink.old) (S.faults sink.new) result }
{
    match cause {
        Unfit::Memory => write_all(sink, b"memory"),
        Unfit::Overload { arc: _ } => put_why_unfit(sink, cause),
        Unfit::Cycle { arcs: _ } => put_why_unfit(sink, cause),
        Unfit::Large { arc: _, prio: _ } => put_why_unfit(sink, cause),
        Unfit::Ring {
            arc: _,
            prio: _,
            need: _,
        } => put_why_unfit(sink, cause),
    }
}

/// Writes the first clause of a certificate that fails, and its first row.
pub(crate) fn put_rejected<S: Sink>(sink: &mut S, clause: u64, row: u64) -> Result<(), Failed>
    ensures octets { WhereTold (S.tells sink.old) (S.tells sink.new) (TakesAll result (codes "rejected" ++ (behind_space clause ++ behind_space row))) }
    ensures cause { HasCause (S.faults sink.old) (S.faults sink.new) result }
{
    write_all(sink, b"rejected")?;
    put_place(sink, clause, row)
}

/// Writes the line of a script at which sends break a curve.
pub(crate) fn put_unruly<S: Sink>(sink: &mut S, line: u64) -> Result<(), Failed>
    ensures octets { WhereTold (S.tells sink.old) (S.tells sink.new) (TakesAll result (codes "unruly" ++ behind_space line)) }
    ensures cause { HasCause (S.faults sink.old) (S.faults sink.new) result }
{
    put_numbered(sink, b"unruly", line)
}

/// Writes the arrival before which a run stopped.
pub(crate) fn put_alias<S: Sink>(sink: &mut S, arc: u64, ordinal: u64) -> Result<(), Failed>
    ensures octets { WhereTold (S.tells sink.old) (S.tells sink.new) (TakesAll result (codes "alias" ++ (behind_space arc ++ behind_space ordinal))) }
    ensures cause { HasCause (S.faults sink.old) (S.faults sink.new) result }
{
    write_all(sink, b"alias")?;
    put_place(sink, arc, ordinal)
}

/// Writes the port behind which bursts still grow.
pub(crate) fn put_unsettled<S: Sink>(sink: &mut S, arc: u64, prio: u64) -> Result<(), Failed>
    ensures octets { WhereTold (S.tells sink.old) (S.tells sink.new) (TakesAll result (codes "unsettled" ++ (behind_space arc ++ behind_space prio))) }
    ensures cause { HasCause (S.faults sink.old) (S.faults sink.new) result }
{
    write_all(sink, b"unsettled")?;
    put_place(sink, arc, prio)
}
