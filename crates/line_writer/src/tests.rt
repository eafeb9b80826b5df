//! A line with a value of each kind, behind what its buffer holds.

use crate::LineWriter;
use std::test::Fail;

#[test]
fn writes_behind_what_is_there(rt: HostRuntime) -> Result<(), Fail> {
    let mut bytes = Vec::new(rt.alloc());
    bytes.extend_from_slice(b"before ")?;
    let mut line = LineWriter::begin(bytes)?;
    line.flag("a", true)?;
    line.number("b", 18_446_744_073_709_551_615)?;
    line.null("c")?;
    line.optional("d", Some(0))?;
    line.optional("e", None)?;
    line.numbers("f", &[3, 1])?;
    line.key("g")?;
    line.open_array()?;
    line.open_object()?;
    line.text("h", "a\"\n")?;
    line.close_object()?;
    line.element(7)?;
    line.close_array()?;
    let bytes = line.finish()?;
    let want =
        "before {\"a\":true,\"b\":18446744073709551615,\"c\":null,\"d\":0,\"e\":null,\"f\":[3,1],\"g\":[{\"h\":\"a\\\"\\n\"},7]}\n";
    assert_eq!(rt; bytes.as_slice(), want.as_bytes());
    Ok(())
}
