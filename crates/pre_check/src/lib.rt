//! Judging certificates of express streams: whether one is good, or the first clause that fails and its first row.
#![tactic(auto)]

mod breaches;
mod clauses;
mod drafts;
mod due;
mod laws;
mod reading;
mod said;
mod saying;
mod uses;
mod verdicts;

pub use laws::migration_law;
pub use reading::{CertificateFault, read_certificate};
pub use verdicts::{Verdict, judge};

#[cfg(test)]
mod tests {
    use super::*;
    use std::alloc::Global;
    use std::test::Fail;

    // The least certificate of the built-in network and streams.
    const LEAST: &str =
        "certificate 2\narc a>b 0 1522\nport a>b 6 143 2000 0 2143 2214\nhop x 0 2000\nbound x 2131\nend\n";

    fn verdict_of(alloc: Global, text: &str) -> Result<Option<Verdict>, Fail> {
        let net = pre_topo::pair(alloc)?;
        let streams = pre_streams::pair(alloc)?;
        match read_certificate(alloc, text.as_bytes(), &net, &streams) {
            Ok(certificate) => Ok(Some(judge(&net, &streams, &certificate))),
            Err(_) => Ok(None),
        }
    }

    fn fault_of(alloc: Global, text: &str) -> Result<Option<CertificateFault>, Fail> {
        let net = pre_topo::pair(alloc)?;
        let streams = pre_streams::pair(alloc)?;
        Ok(read_certificate(alloc, text.as_bytes(), &net, &streams).err())
    }

    #[test]
    fn accepts_each_version(rt: HostRuntime) -> Result<(), Fail> {
        let texts = [
            LEAST,
            "certificate 1\narc a>b 0\nport a>b 6 143 2000 0 2143 2214\nhop x 0 2000\nbound x 2131\nend",
            "certificate 3\narc a>b 1522\nport a>b 6 143 2000 0 2143 2214\nhop x 0 2000\nbound x 2131\nend",
            "# greater\ncertificate 2\n\narc a>b 7 1600\nport a>b 6 144 2001 0 2145 2300\nhop x 0 2001\nbound x 2133\nend",
        ];
        for text in texts {
            assert_eq!(rt;
                verdict_of(rt.alloc(), text)?,
                Some(Verdict::Accepted),
                "{text}"
            );
        }
        Ok(())
    }

    #[test]
    fn rejects_one_unit_less(rt: HostRuntime) -> Result<(), Fail> {
        let lines = [
            (
                "arc a>b 0 1522",
                "port a>b 6 143 2000 0 2143 2214",
                "hop x 0 1999",
                "bound x 2131",
                3,
                4,
            ),
            (
                "arc a>b 0 1522",
                "port a>b 6 142 2000 0 2143 2214",
                "hop x 0 2000",
                "bound x 2131",
                4,
                3,
            ),
            (
                "arc a>b 0 1522",
                "port a>b 6 143 1999 0 2143 2214",
                "hop x 0 2000",
                "bound x 2131",
                5,
                3,
            ),
            (
                "arc a>b 0 1522",
                "port a>b 6 143 2000 0 2142 2214",
                "hop x 0 2000",
                "bound x 2131",
                6,
                3,
            ),
            (
                "arc a>b 0 1522",
                "port a>b 6 143 2000 0 2143 2213",
                "hop x 0 2000",
                "bound x 2131",
                8,
                3,
            ),
            (
                "arc a>b 0 1522",
                "port a>b 6 143 2000 0 2143 5460",
                "hop x 0 2000",
                "bound x 2131",
                9,
                3,
            ),
            (
                "arc a>b 0 1522",
                "port a>b 6 143 2000 0 2143 2214",
                "hop x 0 2000",
                "bound x 2130",
                10,
                5,
            ),
            (
                "arc a>b 0 1521",
                "port a>b 6 143 2000 0 2143 2214",
                "hop x 0 2000",
                "bound x 2131",
                11,
                2,
            ),
        ];
        for (arc, port, hop, bound, clause, row) in lines {
            let text = format!(in rt.alloc();
                "certificate 2\n# {clause}\n{arc}\n{port}\n{hop}\n{bound}\nend"
            )?;
            let verdict = verdict_of(rt.alloc(), text.as_str())?;
            assert_eq!(rt;
                verdict,
                Some(Verdict::Rejected { clause, row }),
                "{clause}"
            );
        }
        Ok(())
    }

    #[test]
    fn finds_the_first_fault(rt: HostRuntime) -> Result<(), Fail> {
        let texts = [
            ("certificate 4", 1, 1),
            ("arc a>b 0", 1, 1),
            ("arc a>b 0 1522", 1, 3),
            ("certificate 1\narc a>b 0 1522", 2, 1),
            ("certificate 2\narc a>b 00 0", 2, 2),
            ("certificate 2\ncertificate 2", 2, 3),
            ("certificate 2\narc b>a 0 1522", 2, 3),
            ("certificate 2\narc a>b 0 1000000000001", 2, 6),
            (
                "certificate 2\n\narc a>b 0 1522\nport a>b 06 143 2000 0 2143 2214",
                4,
                2,
            ),
            (
                "certificate 2\narc a>b 0 1522\nport a>b 9 143 2000 0 2143 2214",
                3,
                3,
            ),
            ("certificate 2\narc a>b 0 1522\nend", 3, 3),
            ("certificate 2\n", 2, 4),
        ];
        for (text, line, rule) in texts {
            let fault = Some(CertificateFault::Fault { line, rule });
            assert_eq!(rt; fault_of(rt.alloc(), text)?, fault, "{text}");
        }
        let text = format!(in rt.alloc(); "{LEAST}#\nend")?;
        let fault = Some(CertificateFault::Fault { line: 8, rule: 5 });
        assert_eq!(rt; fault_of(rt.alloc(), text.as_str())?, fault);
        Ok(())
    }
}
