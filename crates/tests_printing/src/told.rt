use ports::HonestSink;
use printed_lines::{FaultCode, FaultPlace, NodeSort, SwitchTold};
use settling::Settled;
use std::test::Fail;
use switch_paths::{SwitchKind, SwitchState};
use ternary::Tern;
use told_lines::{Line, Lines, Met, Printer};

#[test]
fn each_kind_of_line_is_printed_with_its_column(rt: HostRuntime) -> Result<(), Fail> {
    let printer = Printer::new(rt.alloc(), HonestSink::new(rt.alloc()), true)?;
    let mut out = Met {
        inner: printer,
        missed: false,
    };
    out.reserve(400)?;
    out.tell(
        0,
        Line::Wave {
            n: 7,
            k: 2,
            mark: true,
            values: &[Tern::One, Tern::Unk],
        },
    )?;
    assert!(rt; !out.missed);
    out.tell(
        9,
        Line::Unmet {
            name: b"q",
            want: &[Some(Tern::One), None],
            got: &[Tern::Zero, Tern::Unk],
            n: 7,
        },
    )?;
    out.tell(
        10,
        Line::Shown {
            name: b"bus",
            values: &[Tern::Unk, Tern::Zero],
        },
    )?;
    out.tell(
        0,
        Line::Looked {
            name: b"out",
            state: Tern::Zero,
            sort: NodeSort::Size(1),
        },
    )?;
    let switch = SwitchTold {
        number: 2,
        kind: SwitchKind::NChan,
        strength: 2,
        state: SwitchState::Closed,
    };
    out.tell(
        0,
        Line::AtEnd {
            switch,
            gate: b"a",
            gate_state: Tern::One,
            end: b"Gnd",
            end_state: Tern::Zero,
        },
    )?;
    out.tell(
        0,
        Line::AtGate {
            switch,
            source: b"Gnd",
            source_state: Tern::Zero,
            drain: b"out",
            drain_state: Tern::Zero,
        },
    )?;
    out.tell(
        63,
        Line::Reported {
            groups: 3,
            texts: 2,
            fresh: 1,
        },
    )?;
    out.tell(
        0,
        Line::Refused {
            place: FaultPlace::Script(4),
            code: FaultCode::G1GroupNodes,
            name: b"s1",
            count: 201,
        },
    )?;
    assert!(rt; out.missed);
    let sink = out.inner.into_sink();
    let text =
        "1 7 2* 1X\n10 expect q=1- got 0X after 7\n11 show bus X0\n1 look out 0 size:1\n1 at 2 n 2 closed gate a 1 end Gnd 0\n1 gate 2 n 2 closed ends Gnd 0 out 0\n64 groups 3 texts 2 new 1\nscript line 4: G1 GroupNodes s1 201\n";
    assert_eq!(rt; sink.written(), text.as_bytes());
    Ok(())
}

#[test]
fn a_row_is_printed_column_by_column(rt: HostRuntime) -> Result<(), Fail> {
    let mut out = Printer::new(rt.alloc(), HonestSink::new(rt.alloc()), true)?;
    out.reserve(1000)?;
    let counts = [
        Settled {
            steps: 1,
            joined: false,
        },
        Settled {
            steps: 4,
            joined: true,
        },
    ];
    let values = [Tern::One, Tern::Zero, Tern::Unk, Tern::One];
    out.tell_row(3, &counts, 2, &values)?;
    let mut round = Met {
        inner: out,
        missed: false,
    };
    round.tell_row(4, &counts, 2, &values)?;
    let sink = round.inner.into_sink();
    let text = "1 3 1 10\n2 3 4* X1\n1 4 1 10\n2 4 4* X1\n";
    assert_eq!(rt; sink.written(), text.as_bytes());
    Ok(())
}
