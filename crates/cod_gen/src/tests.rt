//! A scenario where memory is had.
use crate::generate;
use cod_script::What;
use cod_types::{Call, SegId};
use std::test::Fail;

#[test]
fn first_and_last_line(rt: HostRuntime) -> Result<(), Fail> {
    let scenario = generate(rt.alloc(), 0)?;
    assert!(rt; scenario.segments() == 40 && scenario.clients() == 8);
    if scenario.clients() == 8 {
        let lines = scenario.lines(0);
        assert!(rt; lines.len() == 302);
        let first = &lines[0];
        assert!(rt; first.line == 50);
        assert!(rt;
            matches!(
                first.what,
                What::Segment {
                    seg: SegId(7),
                    call: Call::Write { off: 82951, .. }
                }
            )
        );
        let lines = scenario.lines(7);
        assert!(rt; lines.len() == 220);
        assert!(rt; lines[219].line == 1978);
    }
    Ok(())
}
