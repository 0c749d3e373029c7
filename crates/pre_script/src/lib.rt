//! Scripts: what is sent in a run, and what befalls its links.
#![tactic(auto)]

mod drafts;
mod laws;
mod reading;
mod rules;
mod saying;
mod scripts;
mod writing;

pub use laws::script_reads_back;
pub use reading::read_script;
pub use scripts::{Damage, Loss, Script, ScriptFault, SendLine, SetLine, Setting};
pub use writing::put_script;

#[cfg(test)]
mod tests {
    use super::*;
    use pre_base::{ArcId, MemorySink, Send, StreamId, Tick};
    use pre_topo::read_network;
    use std::alloc::Global;
    use std::test::Fail;

    /// A link that negotiates.
    const NEGOTIATES: &str =
        "node = [{name = \"a\", kind = \"station\"}, {name = \"b\", kind = \"station\"}]\nlink = [{ends = [\"a\", \"b\"], cost = 1, mode = \"negotiate\"}]\n";

    fn read_with_pair(alloc: Global, text: &[u8]) -> Result<Result<Script, ScriptFault>, Fail> {
        let net = pre_topo::pair(alloc)?;
        let streams = pre_streams::pair(alloc)?;
        Ok(read_script(alloc, text, &net, &streams))
    }

    fn fault_of(alloc: Global, text: &[u8]) -> Result<Option<ScriptFault>, Fail> {
        Ok(read_with_pair(alloc, text)?.err())
    }

    fn fault(line: u64, rule: u8) -> Option<ScriptFault> {
        Some(ScriptFault::Fault { line, rule })
    }

    #[test]
    fn reads_every_kind_of_line(rt: HostRuntime) -> Result<(), Fail> {
        let alloc = rt.alloc();
        let net = read_network(alloc, NEGOTIATES.as_bytes())
            .ok()
            .ok_or("network")?;
        let streams = pre_streams::pair(alloc)?;
        let text =
            b"# all\nlose b>a 18446744073709551615\r\n\n send  5 y 1522\nset 5 a>b gone\ndamage a>b 0 9 0aFf\nuntil 0\n#";
        let script = read_script(alloc, text, &net, &streams)
            .ok()
            .ok_or("script")?;
        let (tick, stream, arc) = (Tick(5), StreamId(1), ArcId(0));
        let send = Send {
            tick,
            stream,
            size: 1522,
        };
        assert_eq!(rt;
            script.sends.as_slice(),
            [SendLine { send, line: 4 }].as_slice()
        );
        let value = Setting::Gone;
        assert_eq!(rt;
            script.sets.as_slice(),
            [SetLine { tick, arc, value }].as_slice()
        );
        let loss = Loss {
            arc: ArcId(1),
            ordinal: 18446744073709551615,
        };
        assert_eq!(rt; script.losses.as_slice(), [loss].as_slice());
        let damage = script.damages.as_slice().first().ok_or("damage")?;
        assert_eq!(rt; (damage.arc, damage.ordinal, damage.offset), (arc, 0, 9));
        assert_eq!(rt; damage.octets.as_slice(), [10, 255].as_slice());
        assert_eq!(rt; script.until, Tick(0));
        Ok(())
    }

    #[test]
    fn what_is_written_is_read_back(rt: HostRuntime) -> Result<(), Fail> {
        script_reads_back();
        let alloc = rt.alloc();
        let net = read_network(alloc, NEGOTIATES.as_bytes())
            .ok()
            .ok_or("network")?;
        let streams = pre_streams::pair(alloc)?;
        let text =
            b"damage b>a 3 7 0AfF\nset 4 a>b off\nset 5 b>a on\nlose a>b 2\nsend 5  x 64\nset 6 a>b on\nsend 7 y 99\nuntil 9";
        let script = read_script(alloc, text, &net, &streams)
            .ok()
            .ok_or("script")?;
        let mut sink = MemorySink::make(alloc, 256, 256, &[])?;
        assert!(rt; put_script(&script, &net, &streams, &mut sink).is_ok());
        let written =
            b"set 4 a>b off\nsend 5 x 64\nset 5 b>a on\nset 6 a>b on\nsend 7 y 99\nlose a>b 2\ndamage b>a 3 7 0aff\nuntil 9\n";
        assert_eq!(rt; sink.octets(), written.as_slice());
        let again = read_script(alloc, written, &net, &streams)
            .ok()
            .ok_or("again")?;
        assert_eq!(rt; again.sends.len(), 2);
        assert_eq!(rt; again.sets.as_slice(), script.sets.as_slice());
        assert_eq!(rt; again.losses.as_slice(), script.losses.as_slice());
        assert_eq!(rt; again.damages.len(), 1);
        Ok(())
    }

    #[test]
    fn finds_the_first_fault(rt: HostRuntime) -> Result<(), Fail> {
        let alloc = rt.alloc();
        assert_eq!(rt; fault_of(alloc, b"lose a>b")?, fault(1, 1));
        assert_eq!(rt; fault_of(alloc, b"damage a>b 0 0 0 00")?, fault(1, 1));
        assert_eq!(rt; fault_of(alloc, b"send 0 x 64 7")?, fault(1, 1));
        assert_eq!(rt; fault_of(alloc, b"\nsend 01 x 64")?, fault(2, 2));
        assert_eq!(rt; fault_of(alloc, b"lose a>c 00")?, fault(1, 2));
        assert_eq!(rt; fault_of(alloc, b"damage a>c 0 0 0")?, fault(1, 2));
        let long =
            b"damage a>b 0 0 000102030405060708090a0b0c0d0e0f101112131415161718191a1b1c1d1e1f20";
        assert_eq!(rt; fault_of(alloc, long)?, fault(1, 2));
        assert_eq!(rt; fault_of(alloc, b"damage a>c 0 0 00")?, fault(1, 3));
        assert_eq!(rt; fault_of(alloc, b"send 0 z 63")?, fault(1, 3));
        assert_eq!(rt; fault_of(alloc, b"send 9 x 64\nsend 8 x 63")?, fault(2, 4));
        assert_eq!(rt; fault_of(alloc, b"send 0 x 63")?, fault(1, 5));
        assert_eq!(rt; fault_of(alloc, b"set 0 a>b on")?, fault(1, 6));
        assert_eq!(rt; fault_of(alloc, b"send 0 x 64\n")?, fault(2, 7));
        assert_eq!(rt; fault_of(alloc, b"until 1\nunknown")?, fault(2, 8));
        assert_eq!(rt; fault_of(alloc, b"until 4000000000001")?, fault(1, 10));
        Ok(())
    }
}
