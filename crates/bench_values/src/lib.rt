// The bench values of 01, P1 to P12, as one table of facts about the definitions. They hold as definitions; the function gives
// the gate a contract that names them.
#![tactic(auto)]

ghost use Rattle.std.specs.Prelude.{◌≡◌};
ghost use Rattle.bench_values.specs.Rows.{Rows};

// How many rows the table has.
#[tactic(auto, using(crate::proofs::Rows::rows_hold))]
pub fn row_count() -> u8
    ensures count { result ≡ 12 }
    ensures table { Rows }
{
    12
}
