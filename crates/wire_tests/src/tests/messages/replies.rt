use bson_values::{Document, NoMemory, Text, Value};
use op_msg::put_reply;
use std::test::Fail;

#[test]
fn a_reply_is_put_with_ample_memory(rt: HostRuntime) -> Result<(), Fail> {
    let mut doc = Document::new(rt.alloc());
    let name = Text::of(rt.alloc(), "ok")?;
    doc.push(name, Value::Int(1)).map_err(|_| NoMemory)?;
    let bytes = put_reply(rt.alloc(), 0x0102_0304, -2, &doc)?;
    assert_eq!(rt;
        bytes.as_slice(),
        [
            0x22, 0, 0, 0, 4, 3, 2, 1, 0xfe, 0xff, 0xff, 0xff, 0xdd, 7, 0, 0, 0, 0, 0, 0, 0, 0xd,
            0, 0, 0, 0x10, 0x6f, 0x6b, 0, 1, 0, 0, 0, 0,
        ]
        .as_slice()
    );
    Ok(())
}
