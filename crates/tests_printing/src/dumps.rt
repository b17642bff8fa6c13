use ports::{MemSink, PortFault};
use printed_lines::{FaultCode, FaultPlace, LineBuf};
use std::test::Fail;
use ternary::Tern;
use told_lines::{Line, Lines};
use wave_dump::Dump;

// One line is told, and the run is refused before its first step; one call of the sink fails.
#[test]
fn a_fault_is_kept_and_told(rt: HostRuntime) -> Result<(), Fail> {
    let failed = Err(PortFault::Failed);
    let line = "$comment show \\$end 1 $end\n";
    let all =
        "$comment show \\$end 1 $end\n$version Cosmos $end\n$timescale 1 ns $end\n$scope module net $end\n$upscope $end\n$enddefinitions $end\n#0\n$dumpvars\n$end\n$comment script line 1: E1 UnknownNode $end\n";
    let rows = [
        (9, Ok(()), Ok(()), all),
        (1, failed, failed, ""),
        (2, Ok(()), failed, line),
    ];
    for (number, told, ended, text) in rows {
        let sink = MemSink::new(rt.alloc(), vec![in rt.alloc(); number]?, 1000);
        let raw = LineBuf::new(rt.alloc(), 0)?;
        let mut dump = Dump::new(rt.alloc(), raw, sink);
        dump.reserve(400)?;
        let shown = Line::Shown {
            name: b"$end",
            values: &[Tern::One],
        };
        assert_eq!(rt; dump.tell(0, shown), told);
        let refused = Line::Refused {
            place: FaultPlace::Script(1),
            code: FaultCode::E1UnknownNode,
            name: b"",
            count: 0,
        };
        assert_eq!(rt; dump.tell(0, refused), told);
        let (sink, result) = dump.finish(&[]);
        assert_eq!(rt; result, ended);
        assert_eq!(rt; sink.written(), text.as_bytes());
    }
    Ok(())
}
