ghost use Rattle.std.specs.Prelude.{◌≡◌, ◌+◌, ◌^◌, ◌<◌, max, OnOk};
ghost use Rattle.pre_script.specs.Drafts.{seen, IsLatest};
ghost use Rattle.pre_script.specs.Seen.{comes_last, nothing_seen, with_said};
ghost use Rattle.pre_script.specs.Reading.{ReadsAs, until_end};

use crate::rules::END;
use crate::saying::Said;
use crate::{Damage, Loss, Script, ScriptFault, SendLine, SetLine};
use pre_base::{Items, Tick};
use std::alloc::{AllocError, Global};

/// What the lines of a script have said so far.
#[derive(Debug, Drop)]
pub struct Draft {
    pub sends: Items<SendLine>,
    pub sets: Items<SetLine>,
    pub losses: Items<Loss>,
    pub damages: Items<Damage>,
    pub until: Option<Tick>,
    /// The greatest tick of a send or set.
    pub latest: Tick,
}

impl Draft {
    pub fn new(alloc: Global) -> Draft
        ensures nothing { seen result ≡ nothing_seen }
        ensures latest { IsLatest result }
    {
        Draft {
            sends: Items::new(alloc),
            sets: Items::new(alloc),
            losses: Items::new(alloc),
            damages: Items::new(alloc),
            until: None,
            latest: Tick(0),
        }
    }

    /// Whether no send or set so far is later.
    pub fn comes_last(&self, tick: Tick) -> bool
        requires { IsLatest self.now }
        ensures { result ≡ comes_last (seen self.now) tick.0 }
    {
        self.latest.0 <= tick.0
    }

    /// Takes up what one more line says.
    pub fn add(&mut self, said: Said) -> Result<(), AllocError>
        requires { IsLatest self.old }
        ensures more { OnOk result (seen self.new ≡ with_said (seen self.old) said) }
        ensures latest { OnOk result (IsLatest self.new) }
    {
        match said {
            Said::Send(line) => {
                self.sends.push(line)?;
                self.latest = later(self.latest, line.send.tick);
            }
            Said::Set(line) => {
                self.sets.push(line)?;
                self.latest = later(self.latest, line.tick);
            }
            Said::Lose(line) => self.losses.push(line)?,
            Said::Damage(line) => self.damages.push(line)?,
            Said::Until(tick) => self.until = Some(tick),
        }
        Ok(())
    }

    /// The script, where its end was said in these lines.
    pub fn ended(self, count: u64) -> Result<Script, ScriptFault>
        requires { count + 1 < 2 ^ 64 }
        ensures { ReadsAs result (until_end count (seen self) self.until) }
    {
        let Draft {
            sends,
            sets,
            losses,
            damages,
            until,
            latest: _,
        } = self;
        match until {
            None => Err(ScriptFault::Fault {
                line: count + 1,
                rule: END,
            }),
            Some(until) => Ok(Script {
                sends,
                sets,
                losses,
                damages,
                until,
            }),
        }
    }
}

fn later(a: Tick, b: Tick) -> Tick
    ensures { result.0 ≡ max a.0 b.0 }
{
    if a.0 < b.0 { b } else { a }
}
