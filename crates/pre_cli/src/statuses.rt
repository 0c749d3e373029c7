ghost use Rattle.std.specs.Prelude.{◌≡◌, ◌++◌, codes};
ghost use Rattle.pre_base.specs.Faults.{HasCause};
ghost use Rattle.pre_base.specs.Told.{WhereTold};
ghost use Rattle.pre_base.specs.Sinks.{TakesAll};
ghost use Rattle.pre_cli.specs.Statuses.{number_of, file_word, behind_space, text_of, usage};

use crate::refusals::{put_alias, put_rejected, put_rules, put_unfit, put_unruly, put_unsettled};
use pre_base::{ArcId, Failed, FileRow, Prio, Sink, write_all};
use pre_certify::Unfit;
use pre_text::put_number;

/// The kinds of file that words name.
#[derive(Clone, Copy, Debug, PartialEq, Eq)]
pub enum FileWord {
    Net,
    Streams,
    Cert,
    Script,
    Mpackets,
    Pcap,
    Trace,
    More,
}

/// What a command came to.
#[derive(Debug, Drop)]
pub enum Status {
    /// The whole was done.
    Done,
    /// The words have none of the known forms.
    Words,
    /// A file wasn't read: it isn't there, or the shelf failed.
    ReadFault,
    /// The sink failed.
    WriteFault,
    /// The first fault of a file's grammar: its line from 1 and its rule, or 0 and 0 where the file is too long.
    Form {
        file: FileWord,
        line: u64,
        rule: u8,
    },
    /// The first fault of the rules of a network or stream file: its row and its rule.
    Rules {
        file: FileWord,
        row: FileRow,
        rule: u8,
    },
    /// There is no certificate, for this cause.
    Unfit(Unfit),
    /// The certificate isn't good: the first clause that fails, and its first row.
    Rejected {
        clause: u8,
        row: u64,
    },
    /// The sends of a stream break its curve: the least line of the script with which one does so.
    Unruly {
        line: u64,
    },
    /// The run stopped before this arrival, which would give what wasn't sent as it.
    Alias {
        arc: ArcId,
        ordinal: u64,
    },
    /// Want of memory.
    Memory,
    /// The routes of the streams have a cycle, and the bursts still grow after the last round: the first port behind which they do.
    Unsettled {
        arc: ArcId,
        prio: Prio,
    },
    /// No arc of the network has the name.
    NoArc,
}

impl Status {
    ghost use Rattle.pre_cli.specs.Statuses.{number_of};

    /// The number that the program ends with.
    pub fn number(&self) -> u8
        ensures { result ≡ number_of self.now }
    {
        match self {
            Status::Done => 0,
            Status::Words => 1,
            Status::ReadFault => 2,
            Status::WriteFault => 3,
            Status::Form { .. } => 4,
            Status::Rules { .. } => 5,
            Status::Unfit(Unfit::Memory) | Status::Memory => 10,
            Status::Unfit(_) => 6,
            Status::Rejected { .. } => 7,
            Status::Unruly { .. } => 8,
            Status::Alias { .. } => 9,
            Status::Unsettled { .. } => 12,
            Status::NoArc => 13,
        }
    }
}

fn form_word(file: FileWord) -> &'static [u8]
    ensures { result.now ≡ codes "form " ++ file_word file }
{
    match file {
        FileWord::Net => b"form net",
        FileWord::Streams => b"form streams",
        FileWord::Cert => b"form cert",
        FileWord::Script => b"form script",
        FileWord::Mpackets => b"form mpackets",
        FileWord::Pcap => b"form pcap",
        FileWord::Trace => b"form trace",
        FileWord::More => b"form more",
    }
}

pub(crate) fn put_behind_space<S: Sink>(sink: &mut S, n: u64) -> Result<(), Failed>
    ensures octets { WhereTold (S.tells sink.old) (S.tells sink.new) (TakesAll result (behind_space n)) }
    ensures cause { HasCause (S.faults sink.old) (S.faults sink.new) result }
{
    write_all(sink, b" ")?;
    put_number(sink, n)
}

pub(crate) fn put_place<S: Sink>(sink: &mut S, line: u64, rule: u64) -> Result<(), Failed>
    ensures octets { WhereTold (S.tells sink.old) (S.tells sink.new) (TakesAll result (behind_space line ++ behind_space rule)) }
    ensures cause { HasCause (S.faults sink.old) (S.faults sink.new) result }
{
    put_behind_space(sink, line)?;
    put_behind_space(sink, rule)
}

fn put_form<S: Sink>(sink: &mut S, file: FileWord, line: u64, rule: u8) -> Result<(), Failed>
    ensures octets { WhereTold (S.tells sink.old) (S.tells sink.new) (TakesAll result ((codes "form " ++ file_word file) ++ (behind_space line ++ behind_space rule))) }
    ensures cause { HasCause (S.faults sink.old) (S.faults sink.new) result }
{
    write_all(sink, form_word(file))?;
    put_place(sink, line, rule as u64)
}

#[tactic(auto, unfolding(crate::specs::Statuses::usage))]
fn put_usage<S: Sink>(sink: &mut S) -> Result<(), Failed>
    ensures octets { WhereTold (S.tells sink.old) (S.tells sink.new) (TakesAll result usage) }
    ensures cause { HasCause (S.faults sink.old) (S.faults sink.new) result }
{
    write_all(
        sink,
        b"usage: preempt certify, judge, migrate, replay, mpackets, drill, admit, capture or dissect",
    )
}

/// Writes the text of a status, without an end of the line, and nothing for Done.
pub fn put_status<S: Sink>(status: &Status, sink: &mut S) -> Result<(), Failed>
    ensures octets { WhereTold (S.tells sink.old) (S.tells sink.new) (TakesAll result (text_of status.now)) }
    ensures cause { HasCause (S.faults sink.old) (S.faults sink.new) result }
{
    match status {
        Status::Done => Ok(()),
        Status::Words => put_usage(sink),
        Status::ReadFault => write_all(sink, b"read fault"),
        Status::WriteFault => write_all(sink, b"write fault"),
        Status::Form { file, line, rule } => put_form(sink, *file, *line, *rule),
        Status::Rules { file, row, rule } => put_rules(sink, *file, *row, *rule),
        Status::Unfit(cause) => put_unfit(sink, cause),
        Status::Rejected { clause, row } => put_rejected(sink, *clause as u64, *row),
        Status::Unruly { line } => put_unruly(sink, *line),
        Status::Alias { arc, ordinal } => put_alias(sink, arc.0 as u64, *ordinal),
        Status::Memory => write_all(sink, b"memory"),
        Status::Unsettled { arc, prio } => put_unsettled(sink, arc.0 as u64, prio.number() as u64),
        Status::NoArc => write_all(sink, b"no arc"),
    }
}
