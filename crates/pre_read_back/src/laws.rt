ghost use Rattle.pre_read_back.specs.ReadBack.{DueAreReadBack, GoodAreReadBack, ReadAreReadBack, CommentsAreSkipped};

/// What `put_certificate` writes of a certificate is read by `read_certificate` as a certificate with the same rows, where
/// its rows are those that are due for the network and the streams, and its arcs have ranks or none has one. So is each good
/// certificate, as `certify` gives them, and what is read of its text is good; and so is each certificate that was read, of
/// whichever version its text was.
pub fn certificate_reads_back()
    ensures due { DueAreReadBack }
    ensures good { GoodAreReadBack }
    ensures read { ReadAreReadBack }
{}

/// Comments before the text of a certificate leave what is read of it: `read_certificate` skips them.
pub fn comments_are_skipped()
    ensures { CommentsAreSkipped }
{}
