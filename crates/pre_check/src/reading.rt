ghost use Rattle.std.specs.Prelude.{◌≡◌, ◌+◌, ◌^◌, ◌<◌, ◌∷◌, IfOk, OnOk, length};
ghost use Rattle.pre_streams.specs.Fits.{Fits};
ghost use Rattle.pre_check.specs.Lines.{HasRows};
ghost use Rattle.pre_check.specs.Due.{due_lines};
ghost use Rattle.pre_text.specs.Lines.{lines_of, numbered_lines};
ghost use Rattle.pre_check.specs.Seen.{seen, nothing_seen};
ghost use Rattle.pre_check.specs.Reading.{ReadsAs, LineReadsAs, after_line, after_lines, ended, certificate_of, told};

use crate::drafts::Draft;
use crate::due::{Due, due_lines};
use crate::saying::{AFTER_END, Said, said_by};
use pre_bound::Certificate;
use pre_streams::Streams;
use pre_text::{Line, LineWords, Lines, starts_comment};
use pre_topo::Network;
use std::alloc::{AllocError, Global};

/// Why a certificate can't be read.
#[derive(Clone, Copy, Debug, PartialEq, Eq)]
pub enum CertificateFault {
    /// The line breaks a rule: 1 words, 2 number, 3 not the row that is due, 4 no end, 5 after the end, 6 a number above
    /// 10^12.
    Fault { line: u64, rule: u8 },
    /// There isn't enough memory.
    Memory,
}

impl From<AllocError> for CertificateFault {
    ghost use Rattle.std.specs.Prelude.{◌≡◌};
    ghost use Rattle.pre_check.specs.declared.reading.CertificateFault.TheVariants.{Memory};

    ghost from_gives = { λ _ e. e ≡ Memory };

    fn from(_error: AllocError) -> CertificateFault {
        CertificateFault::Memory
    }
}

/// The certificate that a text spells for this network and these streams.
///
/// The first line is `certificate 1`, `2` or `3`; then come the lines `arc ARC RANK LARGEST`,
/// `port ARC PRIO BLOCK WORK RATE DELAY SIZE`, `hop STREAM HOP BURST` and `bound STREAM BOUND` of the rows that are due,
/// in their order, and `end`. In version 1 an arc's line has no LARGEST, which is taken as 1522 where a flow uses the arc
/// and as 0 elsewhere; in version 3 it has no RANK. Lines without words and those that begin with `#` are skipped, and
/// counted. The first line with a fault is answered, and of its rules the first in the order 5, 1, 2, 3, 6.
///
/// # Errors
///
/// `Fault` is exactly the first fault, and `Memory` comes where there isn't enough memory.
pub fn read_certificate(
    alloc: Global,
    text: &[u8],
    net: &Network,
    streams: &Streams,
) -> Result<Certificate, CertificateFault>
    requires { Fits net.now streams.now }
    ensures exact { ReadsAs result (certificate_of net.now streams.now text.now) }
    ensures rows { IfOk result (HasRows net.now streams.now.rows) }
{
    let due = due_lines(alloc, net, streams.rows.as_slice())?;
    read_lines(alloc, text, net, streams, due.as_slice())
}

/// The certificate that a text spells, where these lines are due.
fn read_lines(
    alloc: Global,
    text: &[u8],
    net: &Network,
    streams: &Streams,
    due: &[Due],
) -> Result<Certificate, CertificateFault>
    ensures { ReadsAs result (ended due.now (length (lines_of text.now)) (after_lines net.now streams.now due.now nothing_seen (numbered_lines text.now))) }
{
    let mut draft = Draft::new(alloc);
    let mut lines = Lines::of(text);
    let mut count: u64 = 0;
    while let Some(line) = lines.next_line() {
        count = line.number;
        read_line(&mut draft, net, streams, due, &line)?;
    }
    draft.ended(due, count)
}

fn read_line(
    draft: &mut Draft,
    net: &Network,
    streams: &Streams,
    due: &[Due],
    line: &Line,
) -> Result<(), CertificateFault>
    ensures exact { LineReadsAs result (seen draft.new) (after_line net.now streams.now due.now (seen draft.old) (line.now.number, line.now.octets.now)) }
{
    let mut words = LineWords::of(line.octets);
    let Some(first) = words.next_word() else {
        return Ok(());
    };
    if starts_comment(first) {
        return Ok(());
    }
    let Some(row) = due.get(draft.place) else {
        return Err(CertificateFault::Fault {
            line: line.number,
            rule: AFTER_END,
        });
    };
    let said = said_by(net, streams, draft.version, row, first, &mut words);
    take_up(draft, line.number, said)
}

/// Takes up what the line says, or answers its fault.
fn take_up(draft: &mut Draft, line: u64, said: Result<Said, u8>) -> Result<(), CertificateFault>
    requires { draft.old.place + 1 < 2 ^ 64 }
    ensures exact { LineReadsAs result (seen draft.new) (told line (seen draft.old) said) }
{
    match said {
        Err(rule) => Err(CertificateFault::Fault { line, rule }),
        Ok(said) => match draft.add(said) {
            Ok(()) => Ok(()),
            Err(_) => Err(CertificateFault::Memory),
        },
    }
}
