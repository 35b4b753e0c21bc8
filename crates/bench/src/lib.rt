// The bench permit, against which lanecheck judges plans.
#![tactic(auto)]

ghost use Rattle.std.specs.Prelude.{◌≡◌};
ghost use Rattle.bench.specs.Examples.{StepsThrough};
ghost use Rattle.bench.specs.Permit.{bench_table};
ghost use Rattle.rowtable.specs.Table.{contents};

use rowtable::{RowTable, Transition};

// Outside the lane, inside with the load down, inside with the load up.
const STATES: u8 = 3;

const ROWS: [Transition; 7] = [
    Transition {
        from: 0,
        motion: 12,
        to: 1,
    },
    Transition {
        from: 1,
        motion: 1,
        to: 1,
    },
    Transition {
        from: 1,
        motion: 2,
        to: 1,
    },
    Transition {
        from: 1,
        motion: 6,
        to: 2,
    },
    Transition {
        from: 2,
        motion: 2,
        to: 2,
    },
    Transition {
        from: 2,
        motion: 7,
        to: 1,
    },
    Transition {
        from: 1,
        motion: 13,
        to: 0,
    },
];

// The bench permit, vetted.
pub fn bench_permit() -> RowTable
    ensures { contents result ≡ bench_table }
{
    let mut table = RowTable::new();
    table.vet(STATES, &ROWS).unwrap();
    table
}

// Some sets that silent reach and After give, shown by computing their definitions.
pub fn examples_stand() -> u8
    ensures { StepsThrough }
{
    0
}
