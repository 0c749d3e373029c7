//! What is written is read back: the text of a certificate is read as that certificate.
#![tactic(auto)]

mod laws;

pub use laws::{certificate_reads_back, comments_are_skipped};

#[cfg(test)]
mod tests {
    use super::*;
    use pre_base::MemorySink;
    use pre_bound::Certificate;
    use pre_certify::put_certificate;
    use pre_check::read_certificate;
    use std::alloc::Global;
    use std::process::Abort;
    use std::test::Fail;

    fn read(alloc: Global, text: &[u8]) -> Result<Certificate, Fail> {
        let net = pre_topo::pair(alloc)?;
        let streams = pre_streams::pair(alloc)?;
        let read = read_certificate(alloc, text, &net, &streams);
        Ok(read.ok().ok_or("a certificate")?)
    }

    fn assert_same(rt: &impl Abort, a: &Certificate, b: &Certificate) {
        assert_eq!(rt; a.arcs.as_slice(), b.arcs.as_slice());
        assert_eq!(rt; a.ports.as_slice(), b.ports.as_slice());
        assert_eq!(rt; a.hops.as_slice(), b.hops.as_slice());
        assert_eq!(rt; a.bounds.as_slice(), b.bounds.as_slice());
    }

    /// A certificate of the built-in streams in each version; version 1 is written as version 2.
    #[test]
    fn what_is_written_is_read_back(rt: HostRuntime) -> Result<(), Fail> {
        certificate_reads_back();
        comments_are_skipped();
        let alloc = rt.alloc();
        for (first, written) in [
            (
                "certificate 1\narc a>b 9\n",
                "certificate 2\narc a>b 9 1522\n",
            ),
            (
                "certificate 2\narc a>b 9 1600\n",
                "certificate 2\narc a>b 9 1600\n",
            ),
            (
                "certificate 3\narc a>b 1600\n",
                "certificate 3\narc a>b 1600\n",
            ),
        ] {
            let rest =
                "port a>b 6 150 2000 0 2150 2220\nhop x 0 2000\nbound x 1000000000000\nend\n";
            let text = format!(in alloc; "{first}{rest}")?;
            let certificate = read(alloc, text.as_bytes())?;
            let net = pre_topo::pair(alloc)?;
            let streams = pre_streams::pair(alloc)?;
            let mut sink = MemorySink::make(alloc, 1000, 7, &[])?;
            assert!(rt; put_certificate(&certificate, &net, &streams, &mut sink).is_ok());
            let due = format!(in alloc; "{written}{rest}")?;
            assert_eq!(rt; sink.octets(), due.as_bytes());
            assert_same(&rt, &certificate, &read(alloc, sink.octets())?);
        }
        Ok(())
    }
}
