ghost use Rattle.std.specs.Prelude.{◌≡◌, ℕ, Result, ◌+◌, ◌^◌, ◌<◌, ◌∷◌, IfOk, OnOk};
ghost use Rattle.pre_text.specs.Lines.{words_of};
ghost use Rattle.pre_script.specs.Drafts.{seen, IsLatest};
ghost use Rattle.pre_script.specs.Fits.{Fits};
ghost use Rattle.pre_script.specs.Reading.{ReadsAs, LineReadsAs, after_line, script_of, told};
ghost use Rattle.pre_script.specs.Saying.{SaysAs, said_by};

use crate::drafts::Draft;
use crate::rules::AFTER_END;
use crate::saying::{Refusal, Said, said_by};
use crate::{Script, ScriptFault};
use pre_streams::Streams;
use pre_text::{Line, LineWords, Lines, starts_comment};
use pre_topo::Network;
use std::alloc::Global;

/// The script that a text spells for this network and these streams.
///
/// Each line is `send TICK STREAM SIZE`, `set TICK ARC VALUE`, `lose ARC ORDINAL`, `damage ARC ORDINAL OFFSET HEX` or, as
/// the last one, `until TICK`, its words parted by spaces. HEX is 1 to 32 octets, in pairs of digits of either case.
/// Lines without words and those that begin with `#` are skipped, and counted. The first line with a fault is answered,
/// and of its rules the first in the order 8, 1, 2, 3, 4, 5, 6, 9, 10.
///
/// # Errors
///
/// `Fault` is exactly the first fault, and `Memory` comes where there isn't enough memory.
pub fn read_script(
    alloc: Global,
    text: &[u8],
    net: &Network,
    streams: &Streams,
) -> Result<Script, ScriptFault>
    ensures exact { ReadsAs result (script_of net.now streams.now text.now) }
    ensures fits { IfOk result (Fits net.now streams.now) }
{
    let mut draft = Draft::new(alloc);
    let mut lines = Lines::of(text);
    let mut count: u64 = 0;
    while let Some(line) = lines.next_line() {
        count = line.number;
        read_line(alloc, &mut draft, net, streams, &line)?;
    }
    draft.ended(count)
}

fn read_line(
    alloc: Global,
    draft: &mut Draft,
    net: &Network,
    streams: &Streams,
    line: &Line,
) -> Result<(), ScriptFault>
    requires { IsLatest draft.old }
    ensures exact { LineReadsAs result (seen draft.new) (after_line net.now streams.now (seen draft.old) (line.now.number, line.now.octets.now)) }
    ensures latest { OnOk result (IsLatest draft.new) }
{
    let mut words = LineWords::of(line.octets);
    let Some(first) = words.next_word() else {
        return Ok(());
    };
    if starts_comment(first) {
        return Ok(());
    }
    if draft.until.is_some() {
        return Err(ScriptFault::Fault {
            line: line.number,
            rule: AFTER_END,
        });
    }
    let said = said_by(alloc, draft, net, streams, line.number, first, &mut words);
    take_up(draft, line.number, said)
}

/// Takes up what the line says, or answers its fault.
fn take_up(draft: &mut Draft, line: u64, said: Result<Said, Refusal>) -> Result<(), ScriptFault>
    requires { IsLatest draft.old }
    ensures exact { (due : Result Said ℕ) → SaysAs said due → LineReadsAs result (seen draft.new) (told line (seen draft.old) due) }
    ensures latest { OnOk result (IsLatest draft.new) }
{
    match said {
        Err(Refusal::Rule(rule)) => Err(ScriptFault::Fault { line, rule }),
        Err(Refusal::Memory) => Err(ScriptFault::Memory),
        Ok(said) => match draft.add(said) {
            Ok(()) => Ok(()),
            Err(_) => Err(ScriptFault::Memory),
        },
    }
}
