// Refusals as `{:?}` shows them.
use crate::{Cause, Fault};
use std::test::Fail;

// A cause that gives its refusals no name.
#[derive(Clone, Copy, Debug)]
struct Late;

impl Cause for Late {
    ghost number_of = { λ _. 6 };

    fn number(self) -> u8 {
        6
    }
}

// One that does.
#[derive(Clone, Copy, Debug)]
struct Early;

impl Cause for Early {
    const FAULT: &'static str = "EarlyFault";

    ghost number_of = { λ _. 5 };

    fn number(self) -> u8 {
        5
    }
}

#[test]
fn names_refusals_by_their_causes(rt: HostRuntime) -> Result<(), Fail> {
    let late = Fault {
        cause: Late,
        row: 3,
        table: "calls",
    };
    let early = Fault {
        cause: Early,
        row: 0,
        table: 'x',
    };
    let late = format!(in rt.alloc(); "{late:?}")?;
    assert_eq!(rt;
        late.as_str(),
        "Fault { cause: Late, row: 3, table: \"calls\" }"
    );
    let early = format!(in rt.alloc(); "{early:?}")?;
    assert_eq!(rt;
        early.as_str(),
        "EarlyFault { cause: Early, row: 0, table: 'x' }"
    );
    Ok(())
}

#[test]
fn shows_a_refusal_without_a_cause_of_ours(rt: HostRuntime) -> Result<(), Fail> {
    let fault = Fault {
        cause: 7_u8,
        row: 2,
        table: "glyphs",
    };
    let shown = fault.unnamed();
    let text = format!(in rt.alloc(); "{shown:?}")?;
    assert_eq!(rt;
        text.as_str(),
        "Fault { cause: 7, row: 2, table: \"glyphs\" }"
    );
    Ok(())
}
