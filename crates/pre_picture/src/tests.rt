use crate::pieces::{Label, Piece, put_text};
use pre_base::{MemorySink, Sink};
use std::test::Fail;

#[test]
fn texts_are_escaped(rt: HostRuntime) -> Result<(), Fail> {
    let mut sink = MemorySink::make(rt.alloc(), 256, 64, &[])?;
    let label = Label {
        first: Piece::Text(b"a>b"),
        middle: Piece::Plain(b" "),
        last: Piece::Number(7),
    };
    assert!(rt; put_text(&mut sink, b"name", 10, 20, &label).is_ok());
    assert_eq!(rt;
        sink.octets(),
        b"<text class=\"name\" x=\"10\" y=\"20\">a&gt;b 7</text>\n".as_slice()
    );
    Ok(())
}
